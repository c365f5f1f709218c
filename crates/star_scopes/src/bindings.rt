//! The variables that targets, clauses, parameters and statements bind.
ghost use Rattle.std.specs.Prelude.{◌≡◌, IfOk, map, []};
ghost use Rattle.star_trees.specs.Variables.{each_binds, function_variables, variables};
ghost use Rattle.star_scopes.specs.Bindings.{loaded_binds};
ghost use Rattle.star_scopes.specs.ExprMeaning.{clause_meaning, meaning, param_meaning};
ghost use Rattle.star_scopes.specs.Meanings.{ClauseMeaning, ExprMeaning, ParamMeaning, StmtMeaning};
ghost use Rattle.star_scopes.specs.StatementBinds.{body_binds};
ghost use Rattle.star_scopes.specs.StatementMeaning.{kind_meaning, stmt_meaning};

use bz_text::Mem;
use star_grammar::{BareClause, BareExpr, BareLoadName, BareParam, BareStmt, BareStmtKind};
use star_names::Names;
use std::alloc::Global;

#[cycle(binding_targets)]
#[tactic(auto, unfolding(crate::specs::ExprMeaning::meaning))]
fn with_target(alloc: Global, names: Names, target: &BareExpr) -> Mem<Names>
    ensures { IfOk result (λ bound. bound ≡ (meaning target.now).bound names) }
{
    match target {
        BareExpr::Name(name) => names.with(alloc, &name.name),
        BareExpr::Bracketed(target) => with_target(alloc, names, target.get()),
        BareExpr::Tuple(targets) => with_targets(alloc, names, targets.as_slice()),
        BareExpr::List(targets) => with_targets(alloc, names, targets.as_slice()),
        _ => Ok(names),
    }
}

#[cycle(binding_targets)]
#[tactic(auto, using(crate::proofs::Walks::binding_walks))]
fn with_targets(alloc: Global, names: Names, targets: &[BareExpr]) -> Mem<Names>
    ensures { IfOk result (λ bound. bound ≡ each_binds (map (λ (one : ExprMeaning). one.bound) (map
        meaning targets.now)) names) }
{
    let mut names = names;
    'targets: for target in targets {
        names = with_target(alloc, names, target)?;
    }
    Ok(names)
}

#[tactic(auto, unfolding(crate::specs::ExprMeaning::clause_meaning, crate::specs::ExprMeaning::meaning))]
fn with_clause(alloc: Global, names: Names, clause: &BareClause) -> Mem<Names>
    ensures { IfOk result (λ bound. bound ≡ (clause_meaning clause.now).bound names) }
{
    match clause {
        BareClause::For { to, over: _ } => with_target(alloc, names, to),
        BareClause::If(_) => Ok(names),
    }
}

/// The variables of a comprehension.
#[tactic(auto, using(crate::proofs::Walks::binding_walks))]
pub(crate) fn clause_variables(alloc: Global, clauses: &[BareClause]) -> Mem<Names>
    ensures { IfOk result (λ bound. bound ≡ variables (map (λ (one : ClauseMeaning). one.bound) (map
        clause_meaning clauses.now))) }
{
    let mut names = Names::new(alloc);
    'clauses: for clause in clauses {
        names = with_clause(alloc, names, clause)?;
    }
    Ok(names)
}

#[tactic(auto, unfolding(crate::specs::ExprMeaning::param_meaning))]
fn with_param(alloc: Global, names: Names, param: &BareParam) -> Mem<Names>
    ensures { IfOk result (λ bound. bound ≡ (param_meaning param.now).bound names) }
{
    match param {
        BareParam::Required(name) => names.with(alloc, name),
        BareParam::Optional { name, default: _ } => names.with(alloc, name),
        BareParam::Bare { line: _ } => Ok(names),
        BareParam::Rest { name, line: _ } => names.with(alloc, name),
        BareParam::Keywords { name, line: _ } => names.with(alloc, name),
    }
}

/// The variables that parameters are.
#[tactic(auto, using(crate::proofs::Walks::binding_walks))]
pub(crate) fn param_variables(alloc: Global, params: &[BareParam]) -> Mem<Names>
    ensures { IfOk result (λ bound. bound ≡ variables (map (λ (one : ParamMeaning). one.bound) (map
        param_meaning params.now))) }
{
    let mut names = Names::new(alloc);
    'params: for param in params {
        names = with_param(alloc, names, param)?;
    }
    Ok(names)
}

#[cycle(binding_statements)]
#[tactic(auto, unfolding(crate::specs::StatementMeaning::stmt_meaning, crate::specs::StatementMeaning::kind_meaning))]
fn with_statement(alloc: Global, names: Names, statement: &BareStmt) -> Mem<Names>
    ensures { IfOk result (λ bound. bound ≡ (stmt_meaning statement.now).bound names) }
{
    with_kind(alloc, names, &statement.kind)
}

#[cycle(binding_statements)]
#[tactic(auto, unfolding(crate::specs::StatementMeaning::stmt_meaning, crate::specs::StatementMeaning::kind_meaning))]
fn with_kind(alloc: Global, names: Names, kind: &BareStmtKind) -> Mem<Names>
    ensures { IfOk result (λ bound. bound ≡ (kind_meaning kind.now).bound names) }
{
    match kind {
        BareStmtKind::Def {
            name,
            params: _,
            body: _,
        } => names.with(alloc, &name.name),
        BareStmtKind::If {
            test: _,
            then,
            other,
        } => {
            let names = with_body(alloc, names, then.as_slice())?;
            with_body(alloc, names, other.as_slice())
        }
        BareStmtKind::For { to, over: _, body } => {
            let names = with_target(alloc, names, to)?;
            with_body(alloc, names, body.as_slice())
        }
        BareStmtKind::Load {
            file: _,
            names: loaded,
        } => with_loaded(alloc, names, loaded.items()),
        BareStmtKind::Assign { to, value: _ } => with_target(alloc, names, to),
        BareStmtKind::Augment {
            place,
            op: _,
            value: _,
        } => with_target(alloc, names, place),
        _ => Ok(names),
    }
}

#[cycle(binding_statements)]
#[tactic(auto, using(crate::proofs::Walks::binding_walks))]
fn with_body(alloc: Global, names: Names, body: &[BareStmt]) -> Mem<Names>
    ensures { IfOk result (λ bound. bound ≡ body_binds (map stmt_meaning body.now) names) }
{
    let mut names = names;
    'statements: for statement in body {
        names = with_statement(alloc, names, statement)?;
    }
    Ok(names)
}

#[tactic(auto, using(crate::proofs::Walks::loaded_walks))]
fn with_loaded(alloc: Global, names: Names, loaded: &[BareLoadName]) -> Mem<Names>
    ensures { IfOk result (λ bound. bound ≡ each_binds (map loaded_binds loaded.now) names) }
{
    let mut names = names;
    'names: for one in loaded {
        names = names.with(alloc, &one.name.local)?;
    }
    Ok(names)
}

/// The variables of a function.
pub(crate) fn function_variables(
    alloc: Global,
    params: &[BareParam],
    body: &[BareStmt],
) -> Mem<Names>
    ensures { IfOk result (λ bound. bound ≡ function_variables (map (λ (one : ParamMeaning). one.bound)
        (map param_meaning params.now))
        (map (λ (one : StmtMeaning). one.bound) (map stmt_meaning body.now))) }
{
    let names = param_variables(alloc, params)?;
    with_body(alloc, names, body)
}

/// The variables of a file.
pub(crate) fn file_variables(alloc: Global, body: &[BareStmt]) -> Mem<Names>
    ensures { IfOk result (λ bound. bound ≡ body_binds (map stmt_meaning body.now) []) }
{
    with_body(alloc, Names::new(alloc), body)
}
