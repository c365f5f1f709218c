//! MODULE.bazel files: no `load`, `def`, `if`, `for`, `lambda`, `*` or `**`, but for a `**` whose
//! value is a dictionary display. Each function gives the first form in its part that is refused.
ghost use Rattle.std.specs.Prelude.{◌≡◌, Some, map};
ghost use Rattle.std.specs.Option.{option_map};
ghost use Rattle.star_dialects.specs.Forms.{form_on};
ghost use Rattle.star_dialects.specs.ModuleFiles as spec;

use crate::forms::{Form, Refused};
use sqlite_items::Boxed;
use star_grammar::{BareArg, BareClause, BareExpr, BarePair, BareStmt, BareStmtKind};

/// The first form of a MODULE.bazel file that is refused, in the order of its text.
pub fn refused_in_module(body: &[BareStmt]) -> Option<Refused>
    ensures { result ≡ spec.first_in_module body.now }
{
    let mut rest = body;
    'turns: while let Some((statement, more)) = rest.split_first() {
        if let Some(refused) = first_in_statement(statement) {
            return Some(refused);
        }
        rest = more;
    }
    None
}

fn first_in_statement(statement: &BareStmt) -> Option<Refused>
    ensures { result ≡ spec.first_in_statement statement.now }
{
    let line = statement.line;
    match &statement.kind {
        BareStmtKind::Def {
            name: _,
            params: _,
            body: _,
        } => refused(line, Form::Def),
        BareStmtKind::If {
            test: _,
            then: _,
            other: _,
        } => refused(line, Form::If),
        BareStmtKind::For {
            to: _,
            over: _,
            body: _,
        } => refused(line, Form::For),
        BareStmtKind::Return(value) => first_in_returned(value),
        BareStmtKind::Break => None,
        BareStmtKind::Continue => None,
        BareStmtKind::Pass => None,
        BareStmtKind::Load { file: _, names: _ } => refused(line, Form::Load),
        BareStmtKind::Assign { to, value } => first_in(to).or(first_in(value)),
        BareStmtKind::Augment {
            place,
            op: _,
            value,
        } => first_in(place).or(first_in(value)),
        BareStmtKind::Value(value) => first_in(value),
    }
}

fn first_in_returned(value: &Option<BareExpr>) -> Option<Refused>
    ensures { result ≡ spec.first_in_returned value.now }
{
    match value {
        Some(value) => first_in(value),
        None => None,
    }
}

fn refused(line: u64, form: Form) -> Option<Refused>
    ensures { result ≡ Some (form_on line form) }
{
    Some(Refused { line, form })
}

#[cycle(expressions)]
fn first_in(expression: &BareExpr) -> Option<Refused>
    ensures { result ≡ (spec.seen expression.now).first }
{
    match expression {
        BareExpr::Name(_) => None,
        BareExpr::Int(_) => None,
        BareExpr::Text(_) => None,
        BareExpr::List(items) => first_in_items(items.as_slice()),
        BareExpr::Tuple(items) => first_in_items(items.as_slice()),
        BareExpr::Dict(pairs) => first_in_pairs(pairs.as_slice()),
        BareExpr::ListComp { item, clauses } => {
            first_in(item.get()).or(first_in_clauses(clauses.as_slice()))
        }
        BareExpr::DictComp {
            key,
            value,
            clauses,
        } => first_in(key.get()).or(first_in(value.get()).or(first_in_clauses(clauses.as_slice()))),
        BareExpr::Bracketed(inside) => first_in(inside.get()),
        BareExpr::Unary { op: _, of } => first_in(of.get()),
        BareExpr::Binary { op: _, left, right } => first_in(left.get()).or(first_in(right.get())),
        BareExpr::Cond { test, then, other } => {
            first_in(then.get()).or(first_in(test.get()).or(first_in(other.get())))
        }
        BareExpr::Lambda {
            params: _,
            body: _,
            line,
        } => refused(*line, Form::Lambda),
        BareExpr::Attr { of, name: _ } => first_in(of.get()),
        BareExpr::Index { of, at } => first_in(of.get()).or(first_in(at.get())),
        BareExpr::Slice {
            of,
            begin,
            end,
            step,
        } => {
            let ends = first_in_bound(end).or(first_in_bound(step));
            first_in(of.get()).or(first_in_bound(begin).or(ends))
        }
        BareExpr::Call { function, args } => {
            first_in(function.get()).or(first_in_args(args.as_slice()))
        }
    }
}

#[cycle(expressions)]
fn first_in_bound(bound: &Option<Boxed<BareExpr>>) -> Option<Refused>
    ensures { result ≡ spec.first_in_bound (option_map spec.seen bound.now) }
{
    match bound {
        Some(bound) => first_in(bound.get()),
        None => None,
    }
}

#[cycle(expressions)]
#[tactic(auto, using(crate::proofs::FirstAmong::one_by_one))]
fn first_in_items(items: &[BareExpr]) -> Option<Refused>
    ensures { result ≡ spec.first_in_items (map spec.seen items.now) }
{
    'turns: for item in items {
        if let Some(refused) = first_in(item) {
            return Some(refused);
        }
    }
    None
}

#[cycle(expressions)]
#[tactic(auto, using(crate::proofs::FirstAmong::one_by_one))]
fn first_in_pairs(pairs: &[BarePair]) -> Option<Refused>
    ensures { result ≡ spec.first_in_parts (map spec.first_in_pair pairs.now) }
{
    'turns: for pair in pairs {
        if let Some(refused) = first_in(&pair.key).or(first_in(&pair.value)) {
            return Some(refused);
        }
    }
    None
}

#[cycle(expressions)]
#[tactic(auto, using(crate::proofs::FirstAmong::one_by_one))]
fn first_in_clauses(clauses: &[BareClause]) -> Option<Refused>
    ensures { result ≡ spec.first_in_parts (map spec.first_in_clause clauses.now) }
{
    'turns: for clause in clauses {
        if let Some(refused) = first_in_clause(clause) {
            return Some(refused);
        }
    }
    None
}

#[cycle(expressions)]
fn first_in_clause(clause: &BareClause) -> Option<Refused>
    ensures { result ≡ spec.first_in_clause clause.now }
{
    match clause {
        BareClause::For { to, over } => first_in(to).or(first_in(over)),
        BareClause::If(test) => first_in(test),
    }
}

#[cycle(expressions)]
#[tactic(auto, using(crate::proofs::FirstAmong::one_by_one))]
fn first_in_args(args: &[BareArg]) -> Option<Refused>
    ensures { result ≡ spec.first_in_parts (map spec.first_in_arg args.now) }
{
    'turns: for arg in args {
        if let Some(refused) = first_in_arg(arg) {
            return Some(refused);
        }
    }
    None
}

#[cycle(expressions)]
fn first_in_arg(arg: &BareArg) -> Option<Refused>
    ensures { result ≡ spec.first_in_arg arg.now }
{
    match arg {
        BareArg::Positional(value) => first_in(value),
        BareArg::Named { name: _, value } => first_in(value),
        BareArg::Star { value: _, line } => refused(*line, Form::Star),
        BareArg::DoubleStar { value, line } => {
            if is_display(value) {
                first_in(value)
            } else {
                refused(*line, Form::StarStar)
            }
        }
    }
}

/// Whether it is a dictionary display without a comprehension, also in round brackets.
fn is_display(expression: &BareExpr) -> bool
    ensures { result ≡ (spec.seen expression.now).is_display }
{
    match expression {
        BareExpr::Dict(_) => true,
        BareExpr::Bracketed(inside) => is_display(inside.get()),
        _ => false,
    }
}
