//! The levels of operators, from the tightest to the loosest.
ghost use Rattle.std.specs.Prelude.{◌≡◌, max};
ghost use Rattle.star_grammar.specs.ExpressionReading as spec;
ghost use Rattle.star_grammar.specs.ExpressionReading.{reads};
ghost use Rattle.star_grammar.specs.Operators as operators;
ghost use Rattle.star_grammar.specs.Readers.{front_of};
ghost use Rattle.star_grammar.specs.Rules.{deep};
ghost use Rattle.star_grammar.specs.declared.bare_expressions.BareExpr as e;
ghost use Rattle.star_expressions.specs.Nests.{Nests};
ghost use Rattle.star_expressions.specs.Reads.{Finds, Reads};

use crate::arg_orders::are_params;
use crate::cursor::{Cursor, NoTree};
use crate::grammar::{Grammar, HeldTree, boxed, checked, deep};
use bz_text::May;
use sqlite_items::Boxed;
use star_grammar::{BareExpr, Level, Sign};
use star_trees::{BinOp, Held, UnOp};
use std::alloc::Global;

/// How many levels of operators bind tighter than a comparison.
const ARITHMETIC: usize = 6;

/// The level of `and`.
const CONJUNCTION: usize = 6;

/// The level of `or`.
const DISJUNCTION: usize = 7;

/// An operator over its operands.
fn joined(
    alloc: Global,
    op: BinOp,
    left: HeldTree,
    right: HeldTree,
) -> May<(BareExpr, usize), NoTree>
    ensures { Finds (deep (e.Binary op left.0 right.0) (max left.1 right.1)) result }
{
    let (left, depth) = boxed(alloc, left)?;
    let (right, own) = boxed(alloc, right)?;
    deep(BareExpr::Binary { op, left, right }, depth.max(own))
}

/// A conditional expression over its parts.
fn selected(
    alloc: Global,
    test: HeldTree,
    chosen: HeldTree,
    other: HeldTree,
) -> May<(BareExpr, usize), NoTree>
    ensures { Finds (deep (e.Cond test.0 chosen.0 other.0) (max chosen.1 (max test.1 other.1))) result }
{
    let (test, depth) = boxed(alloc, test)?;
    let (then, own) = boxed(alloc, chosen)?;
    let (other, last) = boxed(alloc, other)?;
    deep(
        BareExpr::Cond { test, then, other },
        own.max(depth.max(last)),
    )
}

impl<F: Fn(Global, &mut Cursor<'_>, usize, Level) -> May<(BareExpr, usize), NoTree>> Grammar<F> {
    /// An operator before its operand.
    #[tactic(auto, unfolding(star_grammar::specs::ExpressionReading::prefixed))]
    fn prefixed(
        &self,
        symbols: &mut Cursor<'_>,
        op: UnOp,
        level: Level,
    ) -> May<(BareExpr, usize), NoTree>
        requires { Nests self.now.nesting (F.pre self.now.nested) (F.post self.now.nested) }
        ensures { Reads (spec.prefixed (reads self.now.nesting) op (reads self.now.nesting level)
            symbols.old.rest.now) result symbols.new.rest.now }
    {
        symbols.skip();
        let (of, depth) = self.nested(symbols, level)?;
        let of = Boxed::new(self.alloc, of)?;
        deep(BareExpr::Unary { op, of }, depth)
    }

    /// `('+' | '-' | '~') Unary | Primary`
    #[tactic(auto, unfolding(star_grammar::specs::ExpressionReading::unary))]
    pub(crate) fn unary(&self, symbols: &mut Cursor<'_>) -> May<(BareExpr, usize), NoTree>
        requires { Nests self.now.nesting (F.pre self.now.nested) (F.post self.now.nested) }
        ensures { Reads (spec.unary (reads self.now.nesting) symbols.old.rest.now) result
            symbols.new.rest.now }
    {
        match symbols.prefix() {
            Some(op) => self.prefixed(symbols, op, Level::Unary),
            None => self.primary(symbols),
        }
    }

    /// So many levels over the unary operators, the loosest of them last.
    #[tactic(auto, unfolding(star_grammar::specs::ExpressionReading::arithmetic, star_grammar::specs::Readers::rounds, star_grammar::specs::ExpressionReading::operated))]
    fn arithmetic(&self, symbols: &mut Cursor<'_>, levels: usize) -> May<(BareExpr, usize), NoTree>
        requires { Nests self.now.nesting (F.pre self.now.nested) (F.post self.now.nested) }
        ensures { Reads (spec.arithmetic (reads self.now.nesting) levels symbols.old.rest.now) result
            symbols.new.rest.now }
    {
        if levels == 0 {
            return self.unary(symbols);
        }
        let mut left = Held::new(self.arithmetic(symbols, levels - 1)?);
        'turns: for turn in 0..symbols.left() {
            let Some(op) = symbols.operator(levels - 1) else {
                return Ok(left.release());
            };
            symbols.skip();
            let right = Held::new(self.arithmetic(symbols, levels - 1)?);
            left = Held::new(joined(self.alloc, op, left, right)?);
        }
        Ok(left.release())
    }

    /// A comparison by one sign, and its right operand.
    #[tactic(auto, unfolding(star_grammar::specs::ExpressionReading::operated))]
    fn operated(
        &self,
        symbols: &mut Cursor<'_>,
        op: BinOp,
        left: HeldTree,
    ) -> May<(BareExpr, usize), NoTree>
        requires { Nests self.now.nesting (F.pre self.now.nested) (F.post self.now.nested) }
        ensures { Reads (spec.operated (reads self.now.nesting) (spec.arithmetic (reads self.now.nesting)
            6) op left symbols.old.rest.now) result symbols.new.rest.now }
    {
        symbols.skip();
        let right = self.arithmetic(symbols, ARITHMETIC)?;
        joined(self.alloc, op, left, Held::new(right))
    }

    /// `'not' 'in'`, and the right operand.
    #[tactic(auto, unfolding(star_grammar::specs::ExpressionReading::outside))]
    fn outside(&self, symbols: &mut Cursor<'_>, left: HeldTree) -> May<(BareExpr, usize), NoTree>
        requires { Nests self.now.nesting (F.pre self.now.nested) (F.post self.now.nested) }
        ensures { Reads (spec.outside (reads self.now.nesting) left symbols.old.rest.now) result
            symbols.new.rest.now }
    {
        symbols.skip();
        self.operated(symbols, BinOp::NotWithin, left)
    }

    fn compared(&self, symbols: &mut Cursor<'_>, left: HeldTree) -> May<(BareExpr, usize), NoTree>
        requires { Nests self.now.nesting (F.pre self.now.nested) (F.post self.now.nested) }
        ensures { Reads (spec.compared_by (reads self.now.nesting) left (front_of operators.comparison
            symbols.old.rest.now) symbols.old.rest.now) result symbols.new.rest.now }
    {
        match symbols.comparison() {
            Some(op) => self.operated(symbols, op, left),
            None => {
                if symbols.sees(Sign::Not) && symbols.sees_behind(Sign::In) {
                    self.outside(symbols, left)
                } else {
                    Ok(left.release())
                }
            }
        }
    }

    /// One comparison or none: comparisons don't chain.
    #[tactic(auto, unfolding(star_grammar::specs::ExpressionReading::comparison))]
    fn comparison(&self, symbols: &mut Cursor<'_>) -> May<(BareExpr, usize), NoTree>
        requires { Nests self.now.nesting (F.pre self.now.nested) (F.post self.now.nested) }
        ensures { Reads (spec.comparison (reads self.now.nesting) symbols.old.rest.now) result
            symbols.new.rest.now }
    {
        let left = self.arithmetic(symbols, ARITHMETIC)?;
        self.compared(symbols, Held::new(left))
    }

    /// `'not' Negation | Comparison`
    #[tactic(auto, unfolding(star_grammar::specs::ExpressionReading::negation))]
    pub(crate) fn negation(&self, symbols: &mut Cursor<'_>) -> May<(BareExpr, usize), NoTree>
        requires { Nests self.now.nesting (F.pre self.now.nested) (F.post self.now.nested) }
        ensures { Reads (spec.negation (reads self.now.nesting) symbols.old.rest.now) result
            symbols.new.rest.now }
    {
        match symbols.negation() {
            Some(op) => self.prefixed(symbols, op, Level::Negation),
            None => self.comparison(symbols),
        }
    }

    #[tactic(auto, unfolding(star_grammar::specs::ExpressionReading::conjunction, star_grammar::specs::Readers::rounds, star_grammar::specs::ExpressionReading::operated))]
    fn conjunction(&self, symbols: &mut Cursor<'_>) -> May<(BareExpr, usize), NoTree>
        requires { Nests self.now.nesting (F.pre self.now.nested) (F.post self.now.nested) }
        ensures { Reads (spec.conjunction (reads self.now.nesting) symbols.old.rest.now) result
            symbols.new.rest.now }
    {
        let mut left = Held::new(self.negation(symbols)?);
        'turns: for turn in 0..symbols.left() {
            let Some(op) = symbols.operator(CONJUNCTION) else {
                return Ok(left.release());
            };
            symbols.skip();
            let right = Held::new(self.negation(symbols)?);
            left = Held::new(joined(self.alloc, op, left, right)?);
        }
        Ok(left.release())
    }

    #[tactic(auto, unfolding(star_grammar::specs::ExpressionReading::disjunction, star_grammar::specs::Readers::rounds, star_grammar::specs::ExpressionReading::operated))]
    pub(crate) fn disjunction(&self, symbols: &mut Cursor<'_>) -> May<(BareExpr, usize), NoTree>
        requires { Nests self.now.nesting (F.pre self.now.nested) (F.post self.now.nested) }
        ensures { Reads (spec.disjunction (reads self.now.nesting) symbols.old.rest.now) result
            symbols.new.rest.now }
    {
        let mut left = Held::new(self.conjunction(symbols)?);
        'turns: for turn in 0..symbols.left() {
            let Some(op) = symbols.operator(DISJUNCTION) else {
                return Ok(left.release());
            };
            symbols.skip();
            let right = Held::new(self.conjunction(symbols)?);
            left = Held::new(joined(self.alloc, op, left, right)?);
        }
        Ok(left.release())
    }

    /// `Or 'else' Test`, behind `if`.
    #[tactic(auto, unfolding(star_grammar::specs::ExpressionReading::conditional))]
    fn conditional(
        &self,
        symbols: &mut Cursor<'_>,
        chosen: HeldTree,
    ) -> May<(BareExpr, usize), NoTree>
        requires { Nests self.now.nesting (F.pre self.now.nested) (F.post self.now.nested) }
        ensures { Reads (spec.conditional (reads self.now.nesting) chosen symbols.old.rest.now) result
            symbols.new.rest.now }
    {
        let test = Held::new(self.disjunction(symbols)?);
        symbols.expect(Sign::Else)?;
        let other = self.nested(symbols, Level::Test)?;
        selected(self.alloc, test, chosen, Held::new(other))
    }

    /// `Or ['if' Or 'else' Test]`
    #[tactic(auto, unfolding(star_grammar::specs::ExpressionReading::plain_test))]
    fn plain_test(&self, symbols: &mut Cursor<'_>) -> May<(BareExpr, usize), NoTree>
        requires { Nests self.now.nesting (F.pre self.now.nested) (F.post self.now.nested) }
        ensures { Reads (spec.plain_test (reads self.now.nesting) symbols.old.rest.now) result
            symbols.new.rest.now }
    {
        let first = self.disjunction(symbols)?;
        if symbols.eat(Sign::If) {
            self.conditional(symbols, Held::new(first))
        } else {
            Ok(first)
        }
    }

    /// `[Param {',' Param}] ':' Test`, behind `lambda`.
    #[tactic(auto, unfolding(star_grammar::specs::ExpressionReading::lambda))]
    fn lambda(&self, symbols: &mut Cursor<'_>, line: u64) -> May<(BareExpr, usize), NoTree>
        requires { Nests self.now.nesting (F.pre self.now.nested) (F.post self.now.nested) }
        ensures { Reads (spec.lambda (reads self.now.nesting) line symbols.old.rest.now) result
            symbols.new.rest.now }
    {
        let (params, depth) = self.signature(symbols)?;
        checked(are_params(self.alloc, &params)?)?;
        let (body, own) = self.nested(symbols, Level::Test)?;
        let body = Boxed::new(self.alloc, body)?;
        deep(BareExpr::Lambda { params, body, line }, depth.max(own))
    }

    #[tactic(auto, unfolding(star_grammar::specs::ExpressionReading::any_test))]
    fn any_test(&self, symbols: &mut Cursor<'_>) -> May<(BareExpr, usize), NoTree>
        requires { Nests self.now.nesting (F.pre self.now.nested) (F.post self.now.nested) }
        ensures { Reads (spec.any_test (reads self.now.nesting) symbols.old.rest.now) result
            symbols.new.rest.now }
    {
        let line = symbols.line();
        if symbols.eat(Sign::Lambda) {
            self.lambda(symbols, line)
        } else {
            self.plain_test(symbols)
        }
    }

    /// An expression of this level.
    pub(crate) fn at(
        &self,
        symbols: &mut Cursor<'_>,
        level: Level,
    ) -> May<(BareExpr, usize), NoTree>
        requires { Nests self.now.nesting (F.pre self.now.nested) (F.post self.now.nested) }
        ensures { Reads (spec.at (reads self.now.nesting) level symbols.old.rest.now) result
            symbols.new.rest.now }
    {
        match level {
            Level::Primary => self.primary(symbols),
            Level::Unary => self.unary(symbols),
            Level::Negation => self.negation(symbols),
            Level::Disjunction => self.disjunction(symbols),
            Level::Test => self.any_test(symbols),
        }
    }
}
