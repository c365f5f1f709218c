//! What stands behind an operand: `Primary = Operand | Primary '.' identifier | Primary '(' [Arg
//! {',' Arg} [',']] ')' | Primary '[' Expression ']' | Primary '[' [Test] ':' [Test] [':' [Test]]
//! ']'`.
ghost use Rattle.std.specs.Prelude.{◌≡◌, ◌||◌, Some, None, max};
ghost use Rattle.star_grammar.specs.ExpressionReading as spec;
ghost use Rattle.star_grammar.specs.ExpressionReading.{reads};
ghost use Rattle.star_grammar.specs.Readers.{sees, turns};
ghost use Rattle.star_grammar.specs.Rules.{deep};
ghost use Rattle.star_grammar.specs.declared.bare_expressions.BareExpr as e;
ghost use Rattle.star_grammar.specs.declared.symbols.Sign.TheVariants as s;
ghost use Rattle.star_expressions.specs.Nests.{Nests};
ghost use Rattle.star_expressions.specs.Reads.{Finds, Reads};

use crate::arg_orders::are_args;
use crate::cursor::{Cursor, NoTree};
use crate::grammar::{Grammar, HeldTree, boxed, checked, deep};
use bz_text::May;
use sqlite_items::Boxed;
use star_grammar::{BareExpr, Level, Sign};
use star_trees::Held;
use std::alloc::Global;

fn begins_suffix(symbols: &Cursor<'_>) -> bool
    ensures { result ≡ (sees s.Dot symbols.now.rest.now || (sees s.LeftRound symbols.now.rest.now || sees
        s.LeftSquare symbols.now.rest.now)) }
{
    symbols.sees(Sign::Dot) || (symbols.sees(Sign::LeftRound) || symbols.sees(Sign::LeftSquare))
}

/// A bound of a slice that may be left out, with its depth, held.
type HeldBound = Held<(Option<Boxed<BareExpr>>, usize)>;

/// A slice over its parts.
fn sliced(
    alloc: Global,
    of: HeldTree,
    begin: HeldBound,
    end: HeldBound,
    step: HeldBound,
) -> May<(BareExpr, usize), NoTree>
    ensures { Finds (deep (e.Slice of.0 begin.0 end.0 step.0) (max of.1 (max begin.1 (max end.1 step.1))))
        result }
{
    let (of, depth) = boxed(alloc, of)?;
    let (begin, first) = begin.release();
    let (end, second) = end.release();
    let (step, third) = step.release();
    let slice = BareExpr::Slice {
        of,
        begin,
        end,
        step,
    };
    deep(slice, depth.max(first.max(second.max(third))))
}

impl<F: Fn(Global, &mut Cursor<'_>, usize, Level) -> May<(BareExpr, usize), NoTree>> Grammar<F> {
    /// `'.' identifier`, behind the dot.
    #[tactic(auto, unfolding(star_grammar::specs::ExpressionReading::attr))]
    fn attr(&self, symbols: &mut Cursor<'_>, of: HeldTree) -> May<(BareExpr, usize), NoTree>
        requires { Nests self.now.nesting (F.pre self.now.nested) (F.post self.now.nested) }
        ensures { Reads (spec.attr (reads self.now.nesting) of symbols.old.rest.now) result
            symbols.new.rest.now }
    {
        let name = symbols.name(self.alloc)?;
        let (of, depth) = boxed(self.alloc, of)?;
        deep(BareExpr::Attr { of, name }, depth)
    }

    /// `'(' [Arg {',' Arg} [',']] ')'`, behind the bracket.
    #[tactic(auto, unfolding(star_grammar::specs::ExpressionReading::call))]
    fn call(&self, symbols: &mut Cursor<'_>, of: HeldTree) -> May<(BareExpr, usize), NoTree>
        requires { Nests self.now.nesting (F.pre self.now.nested) (F.post self.now.nested) }
        ensures { Reads (spec.call (reads self.now.nesting) of symbols.old.rest.now) result
            symbols.new.rest.now }
    {
        let (args, own) = self.listed_args(symbols)?;
        checked(are_args(self.alloc, &args)?)?;
        let (function, depth) = boxed(self.alloc, of)?;
        deep(BareExpr::Call { function, args }, depth.max(own))
    }

    /// `[Test]`, before a colon or a bracket.
    #[tactic(auto, unfolding(star_grammar::specs::ExpressionReading::bound))]
    fn bound(&self, symbols: &mut Cursor<'_>) -> May<(Option<Boxed<BareExpr>>, usize), NoTree>
        requires { Nests self.now.nesting (F.pre self.now.nested) (F.post self.now.nested) }
        ensures { Reads (spec.bound (reads self.now.nesting) symbols.old.rest.now) result
            symbols.new.rest.now }
    {
        if symbols.sees(Sign::Colon) || symbols.sees(Sign::RightSquare) {
            return Ok((None, 0));
        }
        let (bound, depth) = self.nested(symbols, Level::Test)?;
        Ok((Some(Boxed::new(self.alloc, bound)?), depth))
    }

    /// `[':' [Test]]`
    #[tactic(auto, unfolding(star_grammar::specs::ExpressionReading::step))]
    fn step(&self, symbols: &mut Cursor<'_>) -> May<(Option<Boxed<BareExpr>>, usize), NoTree>
        requires { Nests self.now.nesting (F.pre self.now.nested) (F.post self.now.nested) }
        ensures { Reads (spec.step (reads self.now.nesting) symbols.old.rest.now) result
            symbols.new.rest.now }
    {
        if symbols.eat(Sign::Colon) {
            self.bound(symbols)
        } else {
            Ok((None, 0))
        }
    }

    /// `':' [Test] [':' [Test]] ']'`, behind the first bound.
    #[tactic(auto, unfolding(star_grammar::specs::ExpressionReading::slice))]
    fn slice(
        &self,
        symbols: &mut Cursor<'_>,
        of: HeldTree,
        begin: HeldBound,
    ) -> May<(BareExpr, usize), NoTree>
        requires { Nests self.now.nesting (F.pre self.now.nested) (F.post self.now.nested) }
        ensures { Reads (spec.slice (reads self.now.nesting) of begin symbols.old.rest.now) result
            symbols.new.rest.now }
    {
        symbols.expect(Sign::Colon)?;
        let end = Held::new(self.bound(symbols)?);
        let step = Held::new(self.step(symbols)?);
        symbols.expect(Sign::RightSquare)?;
        sliced(self.alloc, of, begin, end, step)
    }

    /// `{',' Test} ']'`, behind `[` and a Test.
    #[tactic(auto, unfolding(star_grammar::specs::ExpressionReading::index))]
    fn index(
        &self,
        symbols: &mut Cursor<'_>,
        of: HeldTree,
        first: HeldTree,
    ) -> May<(BareExpr, usize), NoTree>
        requires { Nests self.now.nesting (F.pre self.now.nested) (F.post self.now.nested) }
        ensures { Reads (spec.index (reads self.now.nesting) of first symbols.old.rest.now) result
            symbols.new.rest.now }
    {
        let first = first.release();
        let at = Held::new(self.rest_of_expression(symbols, Level::Test, first)?);
        symbols.expect(Sign::RightSquare)?;
        let (of, depth) = boxed(self.alloc, of)?;
        let (at, own) = boxed(self.alloc, at)?;
        deep(BareExpr::Index { of, at }, depth.max(own))
    }

    #[tactic(auto, unfolding(star_grammar::specs::ExpressionReading::begun_subscript))]
    fn begun_subscript(
        &self,
        symbols: &mut Cursor<'_>,
        of: HeldTree,
    ) -> May<(BareExpr, usize), NoTree>
        requires { Nests self.now.nesting (F.pre self.now.nested) (F.post self.now.nested) }
        ensures { Reads (spec.begun_subscript (reads self.now.nesting) of symbols.old.rest.now) result
            symbols.new.rest.now }
    {
        let first = Held::new(self.nested(symbols, Level::Test)?);
        if symbols.sees(Sign::Colon) {
            let (begin, depth) = boxed(self.alloc, first)?;
            self.slice(symbols, of, Held::new((Some(begin), depth)))
        } else {
            self.index(symbols, of, first)
        }
    }

    /// What stands behind `[`.
    #[tactic(auto, unfolding(star_grammar::specs::ExpressionReading::subscript))]
    fn subscript(&self, symbols: &mut Cursor<'_>, of: HeldTree) -> May<(BareExpr, usize), NoTree>
        requires { Nests self.now.nesting (F.pre self.now.nested) (F.post self.now.nested) }
        ensures { Reads (spec.subscript (reads self.now.nesting) of symbols.old.rest.now) result
            symbols.new.rest.now }
    {
        if symbols.sees(Sign::Colon) {
            self.slice(symbols, of, Held::new((None, 0)))
        } else {
            self.begun_subscript(symbols, of)
        }
    }

    #[tactic(auto, unfolding(star_grammar::specs::ExpressionReading::suffix))]
    fn suffix(&self, symbols: &mut Cursor<'_>, of: HeldTree) -> May<(BareExpr, usize), NoTree>
        requires { Nests self.now.nesting (F.pre self.now.nested) (F.post self.now.nested) }
        ensures { Reads (spec.suffix (reads self.now.nesting) of symbols.old.rest.now) result
            symbols.new.rest.now }
    {
        if symbols.eat(Sign::Dot) {
            self.attr(symbols, of)
        } else if symbols.eat(Sign::LeftRound) {
            self.call(symbols, of)
        } else {
            symbols.skip();
            self.subscript(symbols, of)
        }
    }

    #[tactic(auto, unfolding(star_grammar::specs::Readers::rounds))]
    fn suffixes(
        &self,
        symbols: &mut Cursor<'_>,
        first: (BareExpr, usize),
    ) -> May<(BareExpr, usize), NoTree>
        requires { Nests self.now.nesting (F.pre self.now.nested) (F.post self.now.nested) }
        ensures { Reads (turns (spec.begins_suffix (reads self.now.nesting)) (spec.suffix (reads
            self.now.nesting)) first symbols.old.rest.now) result symbols.new.rest.now }
    {
        let mut found = Held::new(first);
        'turns: for turn in 0..symbols.left() {
            if !begins_suffix(symbols) {
                return Ok(found.release());
            }
            found = Held::new(self.suffix(symbols, found)?);
        }
        Ok(found.release())
    }

    #[tactic(auto, unfolding(star_grammar::specs::ExpressionReading::primary))]
    pub(crate) fn primary(&self, symbols: &mut Cursor<'_>) -> May<(BareExpr, usize), NoTree>
        requires { Nests self.now.nesting (F.pre self.now.nested) (F.post self.now.nested) }
        ensures { Reads (spec.primary (reads self.now.nesting) symbols.old.rest.now) result
            symbols.new.rest.now }
    {
        let first = self.operand(symbols)?;
        self.suffixes(symbols, first)
    }
}
