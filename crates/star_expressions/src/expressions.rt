//! Expressions: each nests one deeper in the rules of the one round it.
ghost use Rattle.std.specs.Prelude.{◌≡◌};
ghost use Rattle.star_grammar.specs.ExpressionReading as spec;
ghost use Rattle.star_grammar.specs.ExpressionReading.{reads};
ghost use Rattle.star_grammar.specs.declared.bare_expressions.Level.TheVariants as level;
ghost use Rattle.star_expressions.specs.Reads.{Reads};

use crate::cursor::{Cursor, NoTree};
use crate::grammar::Grammar;
use bz_text::{May, Miss};
use sqlite_items::Items;
use star_grammar::{BareExpr, BareParam, Level};
use std::alloc::Global;

/// An expression in which so many constructs nest at most.
pub fn expression(
    alloc: Global,
    symbols: &mut Cursor<'_>,
    nesting: usize,
    level: Level,
) -> May<(BareExpr, usize), NoTree>
    ensures { Reads (reads nesting level symbols.old.rest.now) result symbols.new.rest.now }
{
    if nesting == 0 {
        return Err(Miss::Because(NoTree));
    }
    Grammar {
        alloc,
        nesting: nesting - 1,
        nested: expression,
    }
    .at(symbols, level)
}

/// `Test {',' Test}`
pub fn test_list(
    alloc: Global,
    symbols: &mut Cursor<'_>,
    nesting: usize,
) -> May<(BareExpr, usize), NoTree>
    ensures { Reads (spec.expression (reads nesting level.Test) symbols.old.rest.now) result
        symbols.new.rest.now }
{
    Grammar {
        alloc,
        nesting,
        nested: expression,
    }
    .expression(symbols, Level::Test)
}

/// `Vars = Target {',' Target}`
pub fn target_list(
    alloc: Global,
    symbols: &mut Cursor<'_>,
    nesting: usize,
) -> May<(BareExpr, usize), NoTree>
    ensures { Reads (spec.vars (reads nesting level.Primary) symbols.old.rest.now) result
        symbols.new.rest.now }
{
    Grammar {
        alloc,
        nesting,
        nested: expression,
    }
    .vars(symbols)
}

/// The parameters of a `def`, and the bracket behind them.
pub fn listed_params(
    alloc: Global,
    symbols: &mut Cursor<'_>,
    nesting: usize,
) -> May<(Items<BareParam>, usize), NoTree>
    ensures { Reads (spec.listed_params (reads nesting level.Test) symbols.old.rest.now) result
        symbols.new.rest.now }
{
    Grammar {
        alloc,
        nesting,
        nested: expression,
    }
    .listed_params(symbols)
}
