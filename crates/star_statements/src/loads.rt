//! Loads: `Load = 'load' '(' string {',' [identifier '='] string} [','] ')'`.
ghost use Rattle.std.specs.Prelude.{◌≡◌, [], Some};
ghost use Rattle.star_grammar.specs.Readers.{more};
ghost use Rattle.star_grammar.specs.StatementReading as spec;
ghost use Rattle.star_grammar.specs.declared.symbols.Sign.TheVariants as s;
ghost use Rattle.star_expressions.specs.Reads.{Reads};

use bz_text::{May, Seq};
use star_expressions::{Cursor, NoTree, checked, deep};
use star_grammar::{BareLoadName, BareStmt, BareStmtKind, Inside, Sign};
use star_trees::LoadName;
use std::alloc::Global;

#[tactic(auto, unfolding(star_grammar::specs::StatementReading::loaded_same))]
fn loaded_same(
    alloc: Global,
    symbols: &mut Cursor<'_>,
    line: u64,
) -> May<(BareLoadName, usize), NoTree>
    ensures { Reads (spec.loaded_same line symbols.old.rest.now) result symbols.new.rest.now }
{
    let local = symbols.text(alloc)?;
    let remote = local.copy(alloc)?;
    let name = LoadName { local, remote };
    Ok((BareLoadName { name, line }, 1))
}

#[tactic(auto, unfolding(star_grammar::specs::StatementReading::loaded_renamed))]
fn loaded_renamed(
    alloc: Global,
    symbols: &mut Cursor<'_>,
    line: u64,
) -> May<(BareLoadName, usize), NoTree>
    ensures { Reads (spec.loaded_renamed line symbols.old.rest.now) result symbols.new.rest.now }
{
    let local = symbols.name(alloc)?;
    symbols.expect(Sign::Assign)?;
    let remote = symbols.text(alloc)?;
    let name = LoadName { local, remote };
    Ok((BareLoadName { name, line }, 1))
}

/// `[identifier '='] string`
#[tactic(auto, unfolding(star_grammar::specs::StatementReading::loaded))]
fn loaded(alloc: Global, symbols: &mut Cursor<'_>) -> May<(BareLoadName, usize), NoTree>
    ensures { Reads (spec.loaded symbols.old.rest.now) result symbols.new.rest.now }
{
    let line = symbols.line();
    if symbols.sees_word() {
        loaded_renamed(alloc, symbols, line)
    } else {
        loaded_same(alloc, symbols, line)
    }
}

/// `{',' [identifier '='] string}`
#[tactic(auto, unfolding(star_grammar::specs::Readers::rounds))]
fn more_loaded(alloc: Global, symbols: &mut Cursor<'_>) -> May<(Seq<BareLoadName>, usize), NoTree>
    ensures { Reads (more s.Comma (Some s.RightRound) spec.loaded ([], 0) symbols.old.rest.now) result
        symbols.new.rest.now }
{
    let mut names = Vec::new(alloc);
    let mut depth = 0;
    'turns: for turn in 0..symbols.left() {
        if !symbols.goes_on(Sign::Comma, Some(Sign::RightRound)) {
            return Ok((Seq::of_vec(names), depth));
        }
        symbols.skip();
        let (name, own) = loaded(alloc, symbols)?;
        names.push(name)?;
        depth = depth.max(own);
    }
    Ok((Seq::of_vec(names), depth))
}

#[tactic(auto, unfolding(star_grammar::specs::StatementReading::loaded_names))]
fn loaded_names(alloc: Global, symbols: &mut Cursor<'_>) -> May<(Seq<BareLoadName>, usize), NoTree>
    ensures { Reads (spec.loaded_names symbols.old.rest.now) result symbols.new.rest.now }
{
    let names = more_loaded(alloc, symbols)?;
    symbols.closed(Sign::Comma, Sign::RightRound)?;
    Ok(names)
}

/// What stands behind `load`.
#[tactic(auto, unfolding(star_grammar::specs::StatementReading::load))]
pub(crate) fn load(
    alloc: Global,
    symbols: &mut Cursor<'_>,
    inside: Inside,
    line: u64,
) -> May<(BareStmt, usize), NoTree>
    ensures { Reads (spec.load inside line symbols.old.rest.now) result symbols.new.rest.now }
{
    checked(inside.top)?;
    symbols.expect(Sign::LeftRound)?;
    let file = symbols.text(alloc)?;
    let (names, depth) = loaded_names(alloc, symbols)?;
    let kind = BareStmtKind::Load { file, names };
    deep(BareStmt { line, kind }, depth)
}
