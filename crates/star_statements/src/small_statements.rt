//! Small statements, and lines of them: `Simple = Small {';' Small} [';'] newline`. Their
//! expressions nest in them, so many constructs at most.
ghost use Rattle.std.specs.Prelude.{◌≡◌, Some};
ghost use Rattle.star_grammar.specs.ExpressionReading.{reads};
ghost use Rattle.star_grammar.specs.Readers as readers;
ghost use Rattle.star_grammar.specs.Readers.{more, one};
ghost use Rattle.star_grammar.specs.StatementReading as spec;
ghost use Rattle.star_grammar.specs.declared.symbols.Sign.TheVariants as s;
ghost use Rattle.star_grammar.specs.Rules.{deep};
ghost use Rattle.star_grammar.specs.Statements.{on_line};
ghost use Rattle.star_grammar.specs.declared.bare_statements.BareStmtKind as st;
ghost use Rattle.star_statements.specs.Remainders.{behind_expression};
ghost use Rattle.star_expressions.specs.Reads.{Finds, Reads};

use crate::loads::load;
use bz_text::May;
use sqlite_items::Items;
use star_expressions::{
    Cursor, HeldTree, NoTree, checked, deep, is_place, is_target, only, test_list,
};
use star_grammar::{BareExpr, BareStmt, BareStmtKind, Inside, Sign};
use star_trees::{BinOp, Held};
use std::alloc::Global;

#[tactic(auto, unfolding(star_grammar::specs::StatementReading::returned_value))]
fn returned_value(
    alloc: Global,
    symbols: &mut Cursor<'_>,
    nesting: usize,
    line: u64,
) -> May<(BareStmt, usize), NoTree>
    ensures { Reads (spec.returned_value (reads nesting) line symbols.old.rest.now) result
        symbols.new.rest.now }
{
    let (value, depth) = test_list(alloc, symbols, nesting)?;
    let kind = BareStmtKind::Return(Some(value));
    deep(BareStmt { line, kind }, depth)
}

/// `[Expression]`, behind `return`.
#[tactic(auto, unfolding(star_grammar::specs::StatementReading::returned))]
fn returned(
    alloc: Global,
    symbols: &mut Cursor<'_>,
    nesting: usize,
    inside: Inside,
    line: u64,
) -> May<(BareStmt, usize), NoTree>
    ensures { Reads (spec.returned (reads nesting) inside line symbols.old.rest.now) result
        symbols.new.rest.now }
{
    checked(inside.function)?;
    if symbols.sees(Sign::Semicolon) || symbols.sees(Sign::Newline) {
        let kind = BareStmtKind::Return(None);
        return Ok((BareStmt { line, kind }, 1));
    }
    returned_value(alloc, symbols, nesting, line)
}

/// The value, behind the targets and `=`.
#[tactic(auto, unfolding(star_grammar::specs::StatementReading::assigned))]
fn assigned(
    alloc: Global,
    symbols: &mut Cursor<'_>,
    nesting: usize,
    line: u64,
    to: HeldTree,
) -> May<(BareStmt, usize), NoTree>
    ensures { Reads (spec.assigned (reads nesting) line to symbols.old.rest.now) result
        symbols.new.rest.now }
{
    checked(is_target(&to.get().0))?;
    let (value, own) = test_list(alloc, symbols, nesting)?;
    let (to, depth) = to.release();
    let kind = BareStmtKind::Assign { to, value };
    deep(BareStmt { line, kind }, depth.max(own))
}

/// `Augmented Expression`, behind a place.
#[tactic(auto, unfolding(star_grammar::specs::StatementReading::changed))]
fn changed(
    alloc: Global,
    symbols: &mut Cursor<'_>,
    nesting: usize,
    line: u64,
    place: HeldTree,
    op: BinOp,
) -> May<(BareStmt, usize), NoTree>
    ensures { Reads (spec.changed (reads nesting) line place op symbols.old.rest.now) result
        symbols.new.rest.now }
{
    symbols.skip();
    checked(is_place(&place.get().0))?;
    let (value, own) = test_list(alloc, symbols, nesting)?;
    let (place, depth) = place.release();
    let kind = BareStmtKind::Augment { place, op, value };
    deep(BareStmt { line, kind }, depth.max(own))
}

fn evaluated(line: u64, value: (BareExpr, usize)) -> May<(BareStmt, usize), NoTree>
    ensures { Finds (deep (on_line line (st.Value value.0)) value.1) result }
{
    let (value, depth) = value;
    let kind = BareStmtKind::Value(value);
    deep(BareStmt { line, kind }, depth)
}

/// What stands behind the first expression.
fn behind_expression(
    alloc: Global,
    symbols: &mut Cursor<'_>,
    nesting: usize,
    line: u64,
    first: (BareExpr, usize),
) -> May<(BareStmt, usize), NoTree>
    ensures { Reads (behind_expression (reads nesting) line first symbols.old.rest.now) result
        symbols.new.rest.now }
{
    if symbols.eat(Sign::Assign) {
        return assigned(alloc, symbols, nesting, line, Held::new(first));
    }
    match symbols.augmented() {
        Some(op) => changed(alloc, symbols, nesting, line, Held::new(first), op),
        None => evaluated(line, first),
    }
}

/// `Vars '=' Expression | Place Augmented Expression | Expression`
#[tactic(auto, unfolding(star_grammar::specs::StatementReading::valued))]
fn valued(
    alloc: Global,
    symbols: &mut Cursor<'_>,
    nesting: usize,
    line: u64,
) -> May<(BareStmt, usize), NoTree>
    ensures { Reads (spec.valued (reads nesting) line symbols.old.rest.now) result symbols.new.rest.now }
{
    let first = test_list(alloc, symbols, nesting)?;
    behind_expression(alloc, symbols, nesting, line, first)
}

/// A word, where it may stand.
fn jump(symbols: &mut Cursor<'_>, allowed: bool) -> May<(), NoTree>
    ensures { Reads (readers.checked allowed (readers.behind symbols.old.rest.now)) result
        symbols.new.rest.now }
{
    symbols.skip();
    checked(allowed)
}

#[tactic(auto, unfolding(star_grammar::specs::StatementReading::small, star_grammar::specs::StatementReading::jump))]
fn small(
    alloc: Global,
    symbols: &mut Cursor<'_>,
    nesting: usize,
    inside: Inside,
) -> May<(BareStmt, usize), NoTree>
    ensures { Reads (spec.small (reads nesting) inside symbols.old.rest.now) result symbols.new.rest.now }
{
    let line = symbols.line();
    if symbols.eat(Sign::Return) {
        returned(alloc, symbols, nesting, inside, line)
    } else if symbols.sees(Sign::Break) {
        jump(symbols, inside.looping)?;
        Ok((
            BareStmt {
                line,
                kind: BareStmtKind::Break,
            },
            1,
        ))
    } else if symbols.sees(Sign::Continue) {
        jump(symbols, inside.looping)?;
        Ok((
            BareStmt {
                line,
                kind: BareStmtKind::Continue,
            },
            1,
        ))
    } else if symbols.sees(Sign::Pass) {
        symbols.skip();
        Ok((
            BareStmt {
                line,
                kind: BareStmtKind::Pass,
            },
            1,
        ))
    } else if symbols.eat(Sign::Load) {
        load(alloc, symbols, inside, line)
    } else {
        valued(alloc, symbols, nesting, line)
    }
}

/// `{';' Small}`
#[tactic(auto, unfolding(star_grammar::specs::Readers::rounds))]
fn more_small(
    alloc: Global,
    symbols: &mut Cursor<'_>,
    nesting: usize,
    inside: Inside,
    first: (BareStmt, usize),
) -> May<(Items<BareStmt>, usize), NoTree>
    ensures { Reads (more s.Semicolon (Some s.Newline) (spec.small (reads nesting) inside) (one first)
        symbols.old.rest.now) result symbols.new.rest.now }
{
    let (statement, mut depth) = first;
    let mut body = only(alloc, statement)?;
    'turns: for turn in 0..symbols.left() {
        if !symbols.goes_on(Sign::Semicolon, Some(Sign::Newline)) {
            return Ok((body, depth));
        }
        symbols.skip();
        let (statement, own) = small(alloc, symbols, nesting, inside)?;
        body.push(statement)?;
        depth = depth.max(own);
    }
    Ok((body, depth))
}

#[tactic(auto, unfolding(star_grammar::specs::StatementReading::simple))]
pub(crate) fn simple(
    alloc: Global,
    symbols: &mut Cursor<'_>,
    nesting: usize,
    inside: Inside,
) -> May<(Items<BareStmt>, usize), NoTree>
    ensures { Reads (spec.simple (reads nesting) inside symbols.old.rest.now) result symbols.new.rest.now }
{
    let first = small(alloc, symbols, nesting, inside)?;
    let body = more_small(alloc, symbols, nesting, inside, first)?;
    symbols.closed(Sign::Semicolon, Sign::Newline)?;
    Ok(body)
}
