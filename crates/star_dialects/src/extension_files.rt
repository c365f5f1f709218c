//! Extensions' files: no `if`, no `for` and no second binding of a name at top level. The names
//! bound so far go from place to place, in the order of the text; a place that is refused ends the
//! walk.
ghost use Rattle.std.specs.Prelude.{◌≡◌, IfOk, Err, [], ◌∷◌, map};
ghost use Rattle.bz_text.specs.Answers.{Gives};
ghost use Rattle.star_dialects.specs.ExtensionFiles as spec;
ghost use Rattle.star_dialects.specs.Forms.{form_on};

use crate::forms::{Form, Refused};
use bz_text::{May, Mem, Miss, OutOfMemory, Txt};
use star_grammar::{BareExpr, BareLoadName, BareStmt, BareStmtKind};
use star_names::Names;
use std::alloc::Global;

/// The first form of an extension's file that is refused, in the order of its text.
pub fn refused_in_bzl(alloc: Global, body: &[BareStmt]) -> Mem<Option<Refused>>
    ensures { IfOk result (λ refused. refused ≡ spec.first_in_bzl body.now) }
{
    match with_statements(alloc, body, Names::new(alloc)) {
        Ok(_) => Ok(None),
        Err(Miss::Because(refused)) => Ok(Some(refused)),
        Err(Miss::OutOfMemory) => Err(OutOfMemory),
    }
}

#[tactic(auto, using(crate::proofs::NamesAfter::walks))]
fn with_statements(alloc: Global, body: &[BareStmt], names: Names) -> May<Names, Refused>
    ensures { Gives (spec.names_after names (spec.body_places body.now)) result }
{
    let mut names = names;
    let mut rest = body;
    'turns: while let Some((statement, more)) = rest.split_first() {
        names = match with_statement(alloc, statement, names) {
            Ok(names) => names,
            Err(miss) => return Err(miss),
        };
        rest = more;
    }
    Ok(names)
}

#[tactic(auto, using(crate::proofs::StatementPlaces::statement_kinds))]
fn with_statement(alloc: Global, statement: &BareStmt, names: Names) -> May<Names, Refused>
    ensures { Gives (spec.names_after names (spec.statement_places statement.now)) result }
{
    let line = statement.line;
    match &statement.kind {
        BareStmtKind::Def {
            name,
            params: _,
            body: _,
        } => with_name(alloc, &name.name, line, names),
        BareStmtKind::If {
            test: _,
            then: _,
            other: _,
        } => refused(line, Form::If),
        BareStmtKind::For {
            to: _,
            over: _,
            body: _,
        } => refused(line, Form::For),
        BareStmtKind::Load {
            file: _,
            names: loaded,
        } => with_loaded(alloc, loaded.items(), names),
        BareStmtKind::Assign { to, value: _ } => with_target(alloc, to, names),
        BareStmtKind::Augment {
            place,
            op: _,
            value: _,
        } => with_target(alloc, place, names),
        _ => Ok(names),
    }
}

fn refused(line: u64, form: Form) -> May<Names, Refused>
    ensures { Gives (Err (form_on line form)) result }
{
    Err(Miss::Because(Refused { line, form }))
}

fn with_name(alloc: Global, name: &Txt, line: u64, names: Names) -> May<Names, Refused>
    ensures { Gives (spec.names_after names (spec.binding name.now line ∷ [])) result }
{
    match names.slot_of(name.as_str()) {
        Some(_) => refused(line, Form::Rebinding),
        None => Ok(names.with(alloc, name)?),
    }
}

#[tactic(auto, using(crate::proofs::NamesAfter::walks))]
fn with_loaded(alloc: Global, loaded: &[BareLoadName], names: Names) -> May<Names, Refused>
    ensures { Gives (spec.names_after names (map spec.load_place loaded.now)) result }
{
    let mut names = names;
    let mut rest = loaded;
    'turns: while let Some((one, more)) = rest.split_first() {
        names = match with_name(alloc, &one.name.local, one.line, names) {
            Ok(names) => names,
            Err(miss) => return Err(miss),
        };
        rest = more;
    }
    Ok(names)
}

#[cycle(targets)]
fn with_target(alloc: Global, target: &BareExpr, names: Names) -> May<Names, Refused>
    ensures { Gives (spec.names_after names (spec.target_places target.now)) result }
{
    match target {
        BareExpr::Name(name) => with_name(alloc, &name.name, name.line, names),
        BareExpr::Bracketed(target) => with_target(alloc, target.get(), names),
        BareExpr::Tuple(targets) => with_targets(alloc, targets.as_slice(), names),
        BareExpr::List(targets) => with_targets(alloc, targets.as_slice(), names),
        _ => Ok(names),
    }
}

#[cycle(targets)]
fn with_targets(alloc: Global, targets: &[BareExpr], names: Names) -> May<Names, Refused>
    ensures { Gives (spec.names_after names (spec.all_places (map spec.target_places targets.now))) result }
{
    let mut names = names;
    'turns: for target in targets {
        names = match with_target(alloc, target, names) {
            Ok(names) => names,
            Err(miss) => return Err(miss),
        };
    }
    Ok(names)
}
