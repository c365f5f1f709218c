//! Parameters: `Param = identifier | identifier '=' Test | '*' | '*' identifier | '**' identifier`.
ghost use Rattle.std.specs.Prelude.{◌≡◌, [], ◌∷◌};
ghost use Rattle.star_grammar.specs.ExpressionReading as spec;
ghost use Rattle.star_grammar.specs.ExpressionReading.{reads};
ghost use Rattle.star_grammar.specs.Readers.{one};
ghost use Rattle.star_grammar.specs.declared.bare_expressions.Level.TheVariants as level;
ghost use Rattle.star_expressions.specs.Nests.{Nests};
ghost use Rattle.star_expressions.specs.Reads.{Reads};

use crate::cursor::{Cursor, NoTree};
use crate::grammar::{Grammar, only};
use bz_text::May;
use sqlite_items::Items;
use star_grammar::{BareExpr, BareParam, Level, Sign};
use std::alloc::Global;

/// `*` or `*` identifier, behind the mark.
#[tactic(auto, unfolding(star_grammar::specs::ExpressionReading::rest_param))]
fn rest_param(alloc: Global, symbols: &mut Cursor<'_>, line: u64) -> May<(BareParam, usize), NoTree>
    ensures { Reads (spec.rest_param line symbols.old.rest.now) result symbols.new.rest.now }
{
    if symbols.sees_word() {
        let name = symbols.name(alloc)?;
        Ok((BareParam::Rest { name, line }, 1))
    } else {
        Ok((BareParam::Bare { line }, 1))
    }
}

/// `**` identifier, behind the mark.
#[tactic(auto, unfolding(star_grammar::specs::ExpressionReading::keywords_param))]
fn keywords_param(
    alloc: Global,
    symbols: &mut Cursor<'_>,
    line: u64,
) -> May<(BareParam, usize), NoTree>
    ensures { Reads (spec.keywords_param line symbols.old.rest.now) result symbols.new.rest.now }
{
    let name = symbols.name(alloc)?;
    Ok((BareParam::Keywords { name, line }, 1))
}

impl<F: Fn(Global, &mut Cursor<'_>, usize, Level) -> May<(BareExpr, usize), NoTree>> Grammar<F> {
    #[tactic(auto, unfolding(star_grammar::specs::ExpressionReading::named_param))]
    fn named_param(&self, symbols: &mut Cursor<'_>) -> May<(BareParam, usize), NoTree>
        requires { Nests self.now.nesting (F.pre self.now.nested) (F.post self.now.nested) }
        ensures { Reads (spec.named_param (reads self.now.nesting level.Test) symbols.old.rest.now) result
            symbols.new.rest.now }
    {
        let name = symbols.name(self.alloc)?;
        if symbols.eat(Sign::Assign) {
            let (default, depth) = self.nested(symbols, Level::Test)?;
            Ok((BareParam::Optional { name, default }, depth))
        } else {
            Ok((BareParam::Required(name), 1))
        }
    }

    #[tactic(auto, unfolding(star_grammar::specs::ExpressionReading::param))]
    fn param(&self, symbols: &mut Cursor<'_>) -> May<(BareParam, usize), NoTree>
        requires { Nests self.now.nesting (F.pre self.now.nested) (F.post self.now.nested) }
        ensures { Reads (spec.param (reads self.now.nesting level.Test) symbols.old.rest.now) result
            symbols.new.rest.now }
    {
        let line = symbols.line();
        if symbols.eat(Sign::Star) {
            rest_param(self.alloc, symbols, line)
        } else if symbols.eat(Sign::StarStar) {
            keywords_param(self.alloc, symbols, line)
        } else {
            self.named_param(symbols)
        }
    }

    /// `{',' Param}`
    #[tactic(auto, unfolding(star_grammar::specs::ExpressionReading::more_params, star_grammar::specs::Readers::rounds))]
    fn more_params(
        &self,
        symbols: &mut Cursor<'_>,
        close: Option<Sign>,
        first: (BareParam, usize),
    ) -> May<(Items<BareParam>, usize), NoTree>
        requires { Nests self.now.nesting (F.pre self.now.nested) (F.post self.now.nested) }
        ensures { Reads (spec.more_params (reads self.now.nesting level.Test) close (one first)
            symbols.old.rest.now) result symbols.new.rest.now }
    {
        let (param, mut depth) = first;
        let mut params = only(self.alloc, param)?;
        'turns: for turn in 0..symbols.left() {
            if !symbols.goes_on(Sign::Comma, close) {
                return Ok((params, depth));
            }
            symbols.skip();
            let (param, own) = self.param(symbols)?;
            params.push(param)?;
            depth = depth.max(own);
        }
        Ok((params, depth))
    }

    /// `[Param {',' Param}] ':'`, behind `lambda`.
    #[tactic(auto, unfolding(star_grammar::specs::ExpressionReading::signature))]
    pub(crate) fn signature(
        &self,
        symbols: &mut Cursor<'_>,
    ) -> May<(Items<BareParam>, usize), NoTree>
        requires { Nests self.now.nesting (F.pre self.now.nested) (F.post self.now.nested) }
        ensures { Reads (spec.signature (reads self.now.nesting level.Test) symbols.old.rest.now) result
            symbols.new.rest.now }
    {
        if symbols.eat(Sign::Colon) {
            return Ok((Items::new(self.alloc), 0));
        }
        let first = self.param(symbols)?;
        let params = self.more_params(symbols, None, first)?;
        symbols.expect(Sign::Colon)?;
        Ok(params)
    }

    /// `[Param {',' Param} [',']] ')'`, behind `def` and its bracket.
    #[tactic(auto, unfolding(star_grammar::specs::ExpressionReading::listed_params))]
    pub(crate) fn listed_params(
        &self,
        symbols: &mut Cursor<'_>,
    ) -> May<(Items<BareParam>, usize), NoTree>
        requires { Nests self.now.nesting (F.pre self.now.nested) (F.post self.now.nested) }
        ensures { Reads (spec.listed_params (reads self.now.nesting level.Test) symbols.old.rest.now)
            result symbols.new.rest.now }
    {
        if symbols.eat(Sign::RightRound) {
            return Ok((Items::new(self.alloc), 0));
        }
        let first = self.param(symbols)?;
        let params = self.more_params(symbols, Some(Sign::RightRound), first)?;
        symbols.closed(Sign::Comma, Sign::RightRound)?;
        Ok(params)
    }
}
