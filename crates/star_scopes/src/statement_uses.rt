//! The free names that statements use, in the order of the text.
ghost use Rattle.std.specs.Prelude.{◌≡◌, map, OnOk};
ghost use Rattle.bz_text.specs.Answers.{Gives};
ghost use Rattle.star_trees.specs.Variables.{Names};
ghost use Rattle.star_scopes.specs.ExprMeaning.{meaning};
ghost use Rattle.star_scopes.specs.Files.{file_scopes, free_names};
ghost use Rattle.star_scopes.specs.StatementMeaning.{kind_meaning, stmt_meaning};
ghost use Rattle.star_scopes.specs.StatementUses as spec;

use crate::bindings::{file_variables, function_variables};
use crate::dialects::Dialect;
use crate::expr_uses::{expr_uses, params_use, two_use};
use crate::unbound::Unbound;
use bz_text::May;
use star_grammar::{BareExpr, BareParam, BareStmt, BareStmtKind};
use star_names::{Names, Scopes};
use std::alloc::Global;

#[cycle(statement_uses)]
#[tactic(auto, using(crate::proofs::StatementLayers::statement_lines))]
fn statement_uses(
    alloc: Global,
    dialect: Dialect,
    scopes: &mut Scopes,
    names: Names,
    statement: &BareStmt,
) -> May<Names, Unbound>
    ensures uses { Gives ((stmt_meaning statement.now).uses dialect scopes.old names) result }
    ensures same { OnOk result (scopes.new ≡ scopes.old) }
{
    kind_uses(alloc, dialect, scopes, names, &statement.kind)
}

#[cycle(statement_uses)]
#[tactic(auto, using(crate::proofs::Walks::use_walks), unfolding(crate::specs::StatementUses::body_uses))]
fn body_uses(
    alloc: Global,
    dialect: Dialect,
    scopes: &mut Scopes,
    names: Names,
    body: &[BareStmt],
) -> May<Names, Unbound>
    ensures uses { Gives (spec.body_uses dialect scopes.old (map stmt_meaning body.now) names) result }
    ensures same { OnOk result (scopes.new ≡ scopes.old) }
{
    let mut names = names;
    'statements: for statement in body {
        match statement_uses(alloc, dialect, scopes, names, statement) {
            Ok(more) => names = more,
            Err(fault) => return Err(fault),
        }
    }
    Ok(names)
}

#[cycle(statement_uses)]
fn kind_uses(
    alloc: Global,
    dialect: Dialect,
    scopes: &mut Scopes,
    names: Names,
    kind: &BareStmtKind,
) -> May<Names, Unbound>
    ensures uses { Gives ((kind_meaning kind.now).uses dialect scopes.old names) result }
    ensures same { OnOk result (scopes.new ≡ scopes.old) }
{
    match kind {
        BareStmtKind::Def {
            name: _,
            params,
            body,
        } => def_uses(
            alloc,
            dialect,
            scopes,
            names,
            body.as_slice(),
            params.as_slice(),
        ),
        BareStmtKind::If { test, then, other } => {
            let names = expr_uses(alloc, dialect, scopes, names, test)?;
            let names = body_uses(alloc, dialect, scopes, names, then.as_slice())?;
            body_uses(alloc, dialect, scopes, names, other.as_slice())
        }
        BareStmtKind::For { to, over, body } => {
            let names = two_use(alloc, dialect, scopes, names, to, over)?;
            body_uses(alloc, dialect, scopes, names, body.as_slice())
        }
        BareStmtKind::Return(value) => return_uses(alloc, dialect, scopes, names, value),
        BareStmtKind::Break => Ok(names),
        BareStmtKind::Continue => Ok(names),
        BareStmtKind::Pass => Ok(names),
        BareStmtKind::Load { file: _, names: _ } => Ok(names),
        BareStmtKind::Assign { to, value } => two_use(alloc, dialect, scopes, names, to, value),
        BareStmtKind::Augment {
            place,
            op: _,
            value,
        } => two_use(alloc, dialect, scopes, names, place, value),
        BareStmtKind::Value(value) => expr_uses(alloc, dialect, scopes, names, value),
    }
}

#[tactic(auto, unfolding(crate::specs::StatementUses::return_uses))]
fn return_uses(
    alloc: Global,
    dialect: Dialect,
    scopes: &mut Scopes,
    names: Names,
    value: &Option<BareExpr>,
) -> May<Names, Unbound>
    ensures uses { Gives (spec.return_uses dialect scopes.old value.now names) result }
    ensures same { OnOk result (scopes.new ≡ scopes.old) }
{
    match value {
        Some(value) => expr_uses(alloc, dialect, scopes, names, value),
        None => Ok(names),
    }
}

#[cycle(statement_uses)]
#[tactic(auto, unfolding(crate::specs::StatementUses::def_uses))]
fn def_uses(
    alloc: Global,
    dialect: Dialect,
    scopes: &mut Scopes,
    names: Names,
    body: &[BareStmt],
    params: &[BareParam],
) -> May<Names, Unbound>
    ensures uses { Gives (spec.def_uses dialect scopes.old params.now (map stmt_meaning body.now) names) result }
    ensures same { OnOk result (scopes.new ≡ scopes.old) }
{
    let names = params_use(alloc, dialect, scopes, names, params)?;
    scopes.enter(function_variables(alloc, params, body)?)?;
    let names = body_uses(alloc, dialect, scopes, names, body)?;
    scopes.leave();
    Ok(names)
}

/// The free names of a file, or the first use of a name that is unbound.
pub(crate) fn free_names(alloc: Global, dialect: Dialect, body: &[BareStmt]) -> May<Names, Unbound>
    ensures { Gives (free_names dialect body.now) result }
{
    let mut scopes = Scopes::new(alloc);
    scopes.enter(file_variables(alloc, body)?)?;
    body_uses(alloc, dialect, &mut scopes, Names::new(alloc), body)
}
