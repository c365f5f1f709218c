//! Files: `File = {Statement | newline}`.
ghost use Rattle.std.specs.Prelude.{◌≡◌, [], Option};
ghost use Rattle.star_grammar.specs.Readers.{joins, turns};
ghost use Rattle.star_grammar.specs.StatementReading as spec;
ghost use Rattle.star_grammar.specs.StatementReading.{stands};
ghost use Rattle.star_trees.specs.Surroundings.{at_top};
ghost use Rattle.star_expressions.specs.Reads.{Finds, Reads};

use crate::suites::Suites;
use bz_text::{May, Miss};
use sqlite_items::Items;
use star_expressions::{Cursor, NoTree};
use star_grammar::{BareFile, BareStmt, Inside, Part, Sign};
use star_trees::DEEPEST;
use std::alloc::Global;

/// Statements in which so many constructs nest at most.
fn nested_statements(
    alloc: Global,
    symbols: &mut Cursor<'_>,
    nesting: usize,
    part: Part,
    inside: Inside,
) -> May<(Items<BareStmt>, usize), NoTree>
    ensures { Reads (stands nesting part inside symbols.old.rest.now) result symbols.new.rest.now }
{
    if nesting == 0 {
        return Err(Miss::Because(NoTree));
    }
    Suites {
        alloc,
        nesting: nesting - 1,
        nested: nested_statements,
    }
    .part(symbols, part, inside)
}

fn at_top() -> Inside
    ensures { result ≡ at_top }
{
    Inside {
        top: true,
        function: false,
        looping: false,
    }
}

/// `Statement | newline`
#[tactic(auto, unfolding(star_grammar::specs::StatementReading::file_part))]
fn file_part(alloc: Global, symbols: &mut Cursor<'_>) -> May<(Items<BareStmt>, usize), NoTree>
    ensures { Reads (spec.file_part symbols.old.rest.now) result symbols.new.rest.now }
{
    if symbols.eat(Sign::Newline) {
        return Ok((Items::new(alloc), 0));
    }
    nested_statements(alloc, symbols, DEEPEST, Part::Statement, at_top())
}

/// `{Statement | newline}`
#[tactic(auto, unfolding(star_grammar::specs::StatementReading::file_parts, star_grammar::specs::Readers::rounds))]
fn file_parts(alloc: Global, symbols: &mut Cursor<'_>) -> May<(Items<BareStmt>, usize), NoTree>
    ensures { Reads (spec.file_parts symbols.old.rest.now) result symbols.new.rest.now }
{
    let mut body = Items::new(alloc);
    let mut depth = 0;
    'turns: for turn in 0..symbols.left() {
        if symbols.left() == 0 {
            return Ok((body, depth));
        }
        let (more, own) = file_part(alloc, symbols)?;
        body.append(more)?;
        depth = depth.max(own);
    }
    Ok((body, depth))
}

/// All symbols, as a file.
#[tactic(auto, unfolding(star_grammar::specs::StatementReading::file))]
pub(crate) fn file(alloc: Global, symbols: &mut Cursor<'_>) -> May<BareFile, NoTree>
    ensures { Finds (spec.file symbols.old.rest.now) result }
{
    let (body, _) = file_parts(alloc, symbols)?;
    if symbols.left() == 0 {
        Ok(BareFile { body })
    } else {
        Err(Miss::Because(NoTree))
    }
}
