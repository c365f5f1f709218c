//! Arguments: `Arg = Test | identifier '=' Test | '*' Test | '**' Test`.
ghost use Rattle.std.specs.Prelude.{◌≡◌, Some};
ghost use Rattle.star_grammar.specs.ExpressionReading as spec;
ghost use Rattle.star_grammar.specs.ExpressionReading.{reads};
ghost use Rattle.star_grammar.specs.Readers.{one};
ghost use Rattle.star_grammar.specs.declared.bare_expressions.Level.TheVariants as level;
ghost use Rattle.star_expressions.specs.Nests.{Nests};
ghost use Rattle.star_expressions.specs.Reads.{Reads};

use crate::cursor::{Cursor, NoTree};
use crate::grammar::{Grammar, only};
use bz_text::May;
use sqlite_items::Items;
use star_grammar::{BareArg, BareExpr, Level, Sign};
use std::alloc::Global;

impl<F: Fn(Global, &mut Cursor<'_>, usize, Level) -> May<(BareExpr, usize), NoTree>> Grammar<F> {
    #[tactic(auto, unfolding(star_grammar::specs::ExpressionReading::named_arg))]
    fn named_arg(&self, symbols: &mut Cursor<'_>) -> May<(BareArg, usize), NoTree>
        requires { Nests self.now.nesting (F.pre self.now.nested) (F.post self.now.nested) }
        ensures { Reads (spec.named_arg (reads self.now.nesting level.Test) symbols.old.rest.now) result
            symbols.new.rest.now }
    {
        let name = symbols.name(self.alloc)?;
        symbols.expect(Sign::Assign)?;
        let (value, depth) = self.nested(symbols, Level::Test)?;
        Ok((BareArg::Named { name, value }, depth))
    }

    /// `'*' Test`, behind the mark.
    #[tactic(auto, unfolding(star_grammar::specs::ExpressionReading::star_arg))]
    fn star_arg(&self, symbols: &mut Cursor<'_>, line: u64) -> May<(BareArg, usize), NoTree>
        requires { Nests self.now.nesting (F.pre self.now.nested) (F.post self.now.nested) }
        ensures { Reads (spec.star_arg (reads self.now.nesting level.Test) line symbols.old.rest.now)
            result symbols.new.rest.now }
    {
        let (value, depth) = self.nested(symbols, Level::Test)?;
        Ok((BareArg::Star { value, line }, depth))
    }

    /// `'**' Test`, behind the mark.
    #[tactic(auto, unfolding(star_grammar::specs::ExpressionReading::double_star_arg))]
    fn double_star_arg(&self, symbols: &mut Cursor<'_>, line: u64) -> May<(BareArg, usize), NoTree>
        requires { Nests self.now.nesting (F.pre self.now.nested) (F.post self.now.nested) }
        ensures { Reads (spec.double_star_arg (reads self.now.nesting level.Test) line
            symbols.old.rest.now) result symbols.new.rest.now }
    {
        let (value, depth) = self.nested(symbols, Level::Test)?;
        Ok((BareArg::DoubleStar { value, line }, depth))
    }

    #[tactic(auto, unfolding(star_grammar::specs::ExpressionReading::positional_arg))]
    fn positional_arg(&self, symbols: &mut Cursor<'_>) -> May<(BareArg, usize), NoTree>
        requires { Nests self.now.nesting (F.pre self.now.nested) (F.post self.now.nested) }
        ensures { Reads (spec.positional_arg (reads self.now.nesting level.Test) symbols.old.rest.now)
            result symbols.new.rest.now }
    {
        let (value, depth) = self.nested(symbols, Level::Test)?;
        Ok((BareArg::Positional(value), depth))
    }

    #[tactic(auto, unfolding(star_grammar::specs::ExpressionReading::arg))]
    fn arg(&self, symbols: &mut Cursor<'_>) -> May<(BareArg, usize), NoTree>
        requires { Nests self.now.nesting (F.pre self.now.nested) (F.post self.now.nested) }
        ensures { Reads (spec.arg (reads self.now.nesting level.Test) symbols.old.rest.now) result
            symbols.new.rest.now }
    {
        let line = symbols.line();
        if symbols.eat(Sign::Star) {
            self.star_arg(symbols, line)
        } else if symbols.eat(Sign::StarStar) {
            self.double_star_arg(symbols, line)
        } else if symbols.sees_argument_name() {
            self.named_arg(symbols)
        } else {
            self.positional_arg(symbols)
        }
    }

    /// `{',' Arg}`
    #[tactic(auto, unfolding(star_grammar::specs::ExpressionReading::more_args, star_grammar::specs::Readers::rounds))]
    fn more_args(
        &self,
        symbols: &mut Cursor<'_>,
        first: (BareArg, usize),
    ) -> May<(Items<BareArg>, usize), NoTree>
        requires { Nests self.now.nesting (F.pre self.now.nested) (F.post self.now.nested) }
        ensures { Reads (spec.more_args (reads self.now.nesting level.Test) (one first)
            symbols.old.rest.now) result symbols.new.rest.now }
    {
        let (arg, mut depth) = first;
        let mut args = only(self.alloc, arg)?;
        'turns: for turn in 0..symbols.left() {
            if !symbols.goes_on(Sign::Comma, Some(Sign::RightRound)) {
                return Ok((args, depth));
            }
            symbols.skip();
            let (arg, own) = self.arg(symbols)?;
            args.push(arg)?;
            depth = depth.max(own);
        }
        Ok((args, depth))
    }

    /// `[Arg {',' Arg} [',']] ')'`, behind the bracket.
    #[tactic(auto, unfolding(star_grammar::specs::ExpressionReading::listed_args))]
    pub(crate) fn listed_args(
        &self,
        symbols: &mut Cursor<'_>,
    ) -> May<(Items<BareArg>, usize), NoTree>
        requires { Nests self.now.nesting (F.pre self.now.nested) (F.post self.now.nested) }
        ensures { Reads (spec.listed_args (reads self.now.nesting level.Test) symbols.old.rest.now) result
            symbols.new.rest.now }
    {
        if symbols.eat(Sign::RightRound) {
            return Ok((Items::new(self.alloc), 0));
        }
        let first = self.arg(symbols)?;
        let args = self.more_args(symbols, first)?;
        symbols.closed(Sign::Comma, Sign::RightRound)?;
        Ok(args)
    }
}
