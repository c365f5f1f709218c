//! Lists of expressions: `Expression = Test {',' Test} [',']`, and the variables that are bound,
//! which are Targets.
ghost use Rattle.std.specs.Prelude.{◌≡◌, Some};
ghost use Rattle.star_grammar.specs.ExpressionReading as spec;
ghost use Rattle.star_grammar.specs.ExpressionReading.{reads};
ghost use Rattle.star_grammar.specs.Expressions.{bracketed, joined};
ghost use Rattle.star_grammar.specs.Readers.{adds, more, one, turns};
ghost use Rattle.star_grammar.specs.declared.bare_expressions.Level.TheVariants as level;
ghost use Rattle.star_grammar.specs.declared.symbols.Sign.TheVariants as s;
ghost use Rattle.star_expressions.specs.Nests.{Nests};
ghost use Rattle.star_expressions.specs.Reads.{Finds, Reads};

use crate::cursor::{Cursor, NoTree};
use crate::grammar::{Grammar, checked, deep, only};
use crate::targets::is_target;
use bz_text::May;
use sqlite_items::{Boxed, Items};
use star_grammar::{BareExpr, Level, Sign};
use star_trees::Held;
use std::alloc::Global;

/// One expression, or a tuple of several.
pub(crate) fn joined(mut items: Items<BareExpr>, depth: usize) -> May<(BareExpr, usize), NoTree>
    ensures { Finds (joined (items, depth)) result }
{
    if items.len() != 1 {
        return deep(BareExpr::Tuple(items), depth);
    }
    Ok((items.remove(0), depth))
}

/// One expression in round brackets, or a tuple of several.
pub(crate) fn bracketed(
    alloc: Global,
    mut items: Items<BareExpr>,
    depth: usize,
) -> May<(BareExpr, usize), NoTree>
    ensures { Finds (bracketed (items, depth)) result }
{
    if items.len() != 1 {
        return deep(BareExpr::Tuple(items), depth);
    }
    deep(
        BareExpr::Bracketed(Boxed::new(alloc, items.remove(0))?),
        depth,
    )
}

impl<F: Fn(Global, &mut Cursor<'_>, usize, Level) -> May<(BareExpr, usize), NoTree>> Grammar<F> {
    /// `{',' Test}`
    #[tactic(auto, unfolding(star_grammar::specs::Readers::rounds))]
    pub(crate) fn more_items(
        &self,
        symbols: &mut Cursor<'_>,
        level: Level,
        close: Option<Sign>,
        first: (BareExpr, usize),
    ) -> May<(Items<BareExpr>, usize), NoTree>
        requires { Nests self.now.nesting (F.pre self.now.nested) (F.post self.now.nested) }
        ensures { Reads (more s.Comma close (reads self.now.nesting level) (one first)
            symbols.old.rest.now) result symbols.new.rest.now }
    {
        let (item, mut depth) = first;
        let mut items = only(self.alloc, item)?;
        'turns: for turn in 0..symbols.left() {
            if !symbols.goes_on(Sign::Comma, close) {
                return Ok((items, depth));
            }
            symbols.skip();
            let (item, own) = self.nested(symbols, level)?;
            items.push(item)?;
            depth = depth.max(own);
        }
        Ok((items, depth))
    }

    #[tactic(auto, unfolding(star_grammar::specs::ExpressionReading::rest_of_expression))]
    pub(crate) fn rest_of_expression(
        &self,
        symbols: &mut Cursor<'_>,
        level: Level,
        first: (BareExpr, usize),
    ) -> May<(BareExpr, usize), NoTree>
        requires { Nests self.now.nesting (F.pre self.now.nested) (F.post self.now.nested) }
        ensures { Reads (spec.rest_of_expression (reads self.now.nesting level) first
            symbols.old.rest.now) result symbols.new.rest.now }
    {
        let (items, depth) = self.more_items(symbols, level, None, first)?;
        joined(items, depth)
    }

    #[tactic(auto, unfolding(star_grammar::specs::ExpressionReading::expression))]
    pub(crate) fn expression(
        &self,
        symbols: &mut Cursor<'_>,
        level: Level,
    ) -> May<(BareExpr, usize), NoTree>
        requires { Nests self.now.nesting (F.pre self.now.nested) (F.post self.now.nested) }
        ensures { Reads (spec.expression (reads self.now.nesting level) symbols.old.rest.now) result
            symbols.new.rest.now }
    {
        let first = self.nested(symbols, level)?;
        self.rest_of_expression(symbols, level, first)
    }

    /// `Vars = Target {',' Target}`
    #[tactic(auto, unfolding(star_grammar::specs::ExpressionReading::vars))]
    pub(crate) fn vars(&self, symbols: &mut Cursor<'_>) -> May<(BareExpr, usize), NoTree>
        requires { Nests self.now.nesting (F.pre self.now.nested) (F.post self.now.nested) }
        ensures { Reads (spec.vars (reads self.now.nesting level.Primary) symbols.old.rest.now) result
            symbols.new.rest.now }
    {
        let targets = Held::new(self.expression(symbols, Level::Primary)?);
        checked(is_target(&targets.get().0))?;
        Ok(targets.release())
    }
}
