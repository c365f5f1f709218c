//! Comprehensions: `Comp = 'for' Vars 'in' Or {'for' Vars 'in' Or | 'if' Or}`.
ghost use Rattle.std.specs.Prelude.{◌≡◌, ◌||◌};
ghost use Rattle.star_grammar.specs.ExpressionReading as spec;
ghost use Rattle.star_grammar.specs.ExpressionReading.{reads};
ghost use Rattle.star_grammar.specs.Readers.{adds, one, sees, turns};
ghost use Rattle.star_grammar.specs.declared.symbols.Sign.TheVariants as s;
ghost use Rattle.star_expressions.specs.Nests.{Nests};
ghost use Rattle.star_expressions.specs.Reads.{Reads};

use crate::cursor::{Cursor, NoTree};
use crate::grammar::{Grammar, only};
use bz_text::May;
use sqlite_items::Items;
use star_grammar::{BareClause, BareExpr, Level, Sign};
use star_trees::Held;
use std::alloc::Global;

fn begins_clause(symbols: &Cursor<'_>) -> bool
    ensures { result ≡ (sees s.For symbols.now.rest.now || sees s.If symbols.now.rest.now) }
{
    symbols.sees(Sign::For) || symbols.sees(Sign::If)
}

impl<F: Fn(Global, &mut Cursor<'_>, usize, Level) -> May<(BareExpr, usize), NoTree>> Grammar<F> {
    /// `'for' Vars 'in' Or`
    #[tactic(auto, unfolding(star_grammar::specs::ExpressionReading::for_clause))]
    fn for_clause(&self, symbols: &mut Cursor<'_>) -> May<(BareClause, usize), NoTree>
        requires { Nests self.now.nesting (F.pre self.now.nested) (F.post self.now.nested) }
        ensures { Reads (spec.for_clause (reads self.now.nesting) symbols.old.rest.now) result
            symbols.new.rest.now }
    {
        symbols.expect(Sign::For)?;
        let to = Held::new(self.vars(symbols)?);
        symbols.expect(Sign::In)?;
        let (over, own) = self.nested(symbols, Level::Disjunction)?;
        let (to, depth) = to.release();
        Ok((BareClause::For { to, over }, depth.max(own)))
    }

    /// `'if' Or`
    #[tactic(auto, unfolding(star_grammar::specs::ExpressionReading::if_clause))]
    fn if_clause(&self, symbols: &mut Cursor<'_>) -> May<(BareClause, usize), NoTree>
        requires { Nests self.now.nesting (F.pre self.now.nested) (F.post self.now.nested) }
        ensures { Reads (spec.if_clause (reads self.now.nesting) symbols.old.rest.now) result
            symbols.new.rest.now }
    {
        symbols.expect(Sign::If)?;
        let (test, depth) = self.nested(symbols, Level::Disjunction)?;
        Ok((BareClause::If(test), depth))
    }

    #[tactic(auto, unfolding(star_grammar::specs::ExpressionReading::any_clause))]
    fn any_clause(&self, symbols: &mut Cursor<'_>) -> May<(BareClause, usize), NoTree>
        requires { Nests self.now.nesting (F.pre self.now.nested) (F.post self.now.nested) }
        ensures { Reads (spec.any_clause (reads self.now.nesting) symbols.old.rest.now) result
            symbols.new.rest.now }
    {
        if symbols.sees(Sign::For) {
            self.for_clause(symbols)
        } else {
            self.if_clause(symbols)
        }
    }

    #[tactic(auto, unfolding(star_grammar::specs::Readers::rounds))]
    fn more_clauses(
        &self,
        symbols: &mut Cursor<'_>,
        first: (BareClause, usize),
    ) -> May<(Items<BareClause>, usize), NoTree>
        requires { Nests self.now.nesting (F.pre self.now.nested) (F.post self.now.nested) }
        ensures { Reads (turns (spec.begins_clause (reads self.now.nesting)) (adds (spec.any_clause (reads
            self.now.nesting))) (one first) symbols.old.rest.now) result symbols.new.rest.now }
    {
        let (clause, mut depth) = first;
        let mut clauses = only(self.alloc, clause)?;
        'turns: for turn in 0..symbols.left() {
            if !begins_clause(symbols) {
                return Ok((clauses, depth));
            }
            let (clause, own) = self.any_clause(symbols)?;
            clauses.push(clause)?;
            depth = depth.max(own);
        }
        Ok((clauses, depth))
    }

    #[tactic(auto, unfolding(star_grammar::specs::ExpressionReading::comp))]
    pub(crate) fn comp(&self, symbols: &mut Cursor<'_>) -> May<(Items<BareClause>, usize), NoTree>
        requires { Nests self.now.nesting (F.pre self.now.nested) (F.post self.now.nested) }
        ensures { Reads (spec.comp (reads self.now.nesting) symbols.old.rest.now) result
            symbols.new.rest.now }
    {
        let first = self.for_clause(symbols)?;
        self.more_clauses(symbols, first)
    }
}
