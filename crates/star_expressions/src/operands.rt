//! Operands: `Operand = identifier | integer | string | '[' [Expression | Test Comp] ']' | '{'
//! [Entry {',' Entry} [','] | Entry Comp] '}' | '(' [Expression] ')'`.
ghost use Rattle.std.specs.Prelude.{◌≡◌, Some};
ghost use Rattle.star_grammar.specs.ExpressionReading as spec;
ghost use Rattle.star_grammar.specs.ExpressionReading.{reads};
ghost use Rattle.star_grammar.specs.Readers.{more, one};
ghost use Rattle.star_grammar.specs.declared.symbols.Sign.TheVariants as s;
ghost use Rattle.star_expressions.specs.Nests.{Nests};
ghost use Rattle.star_expressions.specs.Reads.{Finds, Reads};

use crate::cursor::{Cursor, NoTree};
use crate::grammar::{Grammar, HeldTree, boxed, deep, only};
use crate::lists::bracketed;
use bz_text::{May, Miss};
use sqlite_items::Items;
use star_grammar::{BareExpr, BareName, BarePair, Level, Sign, SymbolKind};
use star_trees::Held;
use std::alloc::Global;

impl<F: Fn(Global, &mut Cursor<'_>, usize, Level) -> May<(BareExpr, usize), NoTree>> Grammar<F> {
    fn atom_of(&self, line: u64, kind: &SymbolKind) -> May<(BareExpr, usize), NoTree>
        ensures { Finds (spec.atom_of (reads self.now.nesting) line kind.now) result }
    {
        match kind {
            SymbolKind::Name(name) => {
                let name = name.copy(self.alloc)?;
                Ok((BareExpr::Name(BareName { name, line }), 1))
            }
            SymbolKind::Int(value) => Ok((BareExpr::Int(*value), 1)),
            SymbolKind::Text(text) => Ok((BareExpr::Text(text.copy(self.alloc)?), 1)),
            SymbolKind::Sign(_) => Err(Miss::Because(NoTree)),
        }
    }

    /// `identifier | integer | string`
    #[tactic(auto, unfolding(star_grammar::specs::ExpressionReading::atom))]
    fn atom(&self, symbols: &mut Cursor<'_>) -> May<(BareExpr, usize), NoTree>
        requires { Nests self.now.nesting (F.pre self.now.nested) (F.post self.now.nested) }
        ensures { Reads (spec.atom (reads self.now.nesting) symbols.old.rest.now) result
            symbols.new.rest.now }
    {
        match symbols.rest {
            [symbol, rest @ ..] => {
                let found = self.atom_of(symbol.line, &symbol.kind)?;
                symbols.rest = rest;
                Ok(found)
            }
            [] => Err(Miss::Because(NoTree)),
        }
    }

    /// `Comp ']'`, behind `[` and an item.
    #[tactic(auto, unfolding(star_grammar::specs::ExpressionReading::list_comp))]
    fn list_comp(&self, symbols: &mut Cursor<'_>, item: HeldTree) -> May<(BareExpr, usize), NoTree>
        requires { Nests self.now.nesting (F.pre self.now.nested) (F.post self.now.nested) }
        ensures { Reads (spec.list_comp (reads self.now.nesting) item symbols.old.rest.now) result
            symbols.new.rest.now }
    {
        let (clauses, own) = self.comp(symbols)?;
        symbols.expect(Sign::RightSquare)?;
        let (item, depth) = boxed(self.alloc, item)?;
        deep(BareExpr::ListComp { item, clauses }, depth.max(own))
    }

    /// `{',' Test} [','] ']'`, behind `[` and an item.
    #[tactic(auto, unfolding(star_grammar::specs::ExpressionReading::list_of))]
    fn list_of(
        &self,
        symbols: &mut Cursor<'_>,
        first: (BareExpr, usize),
    ) -> May<(BareExpr, usize), NoTree>
        requires { Nests self.now.nesting (F.pre self.now.nested) (F.post self.now.nested) }
        ensures { Reads (spec.list_of (reads self.now.nesting) first symbols.old.rest.now) result
            symbols.new.rest.now }
    {
        let (items, depth) = self.more_items(symbols, Level::Test, Some(Sign::RightSquare), first)?;
        symbols.closed(Sign::Comma, Sign::RightSquare)?;
        deep(BareExpr::List(items), depth)
    }

    /// What stands behind `[`.
    #[tactic(auto, unfolding(star_grammar::specs::ExpressionReading::square))]
    fn square(&self, symbols: &mut Cursor<'_>) -> May<(BareExpr, usize), NoTree>
        requires { Nests self.now.nesting (F.pre self.now.nested) (F.post self.now.nested) }
        ensures { Reads (spec.square (reads self.now.nesting) symbols.old.rest.now) result
            symbols.new.rest.now }
    {
        if symbols.eat(Sign::RightSquare) {
            return deep(BareExpr::List(Items::new(self.alloc)), 0);
        }
        let first = self.nested(symbols, Level::Test)?;
        if symbols.sees(Sign::For) {
            self.list_comp(symbols, Held::new(first))
        } else {
            self.list_of(symbols, first)
        }
    }

    /// `Entry = Test ':' Test`
    #[tactic(auto, unfolding(star_grammar::specs::ExpressionReading::entry))]
    fn entry(&self, symbols: &mut Cursor<'_>) -> May<(BarePair, usize), NoTree>
        requires { Nests self.now.nesting (F.pre self.now.nested) (F.post self.now.nested) }
        ensures { Reads (spec.entry (reads self.now.nesting) symbols.old.rest.now) result
            symbols.new.rest.now }
    {
        let key = Held::new(self.nested(symbols, Level::Test)?);
        symbols.expect(Sign::Colon)?;
        let (value, own) = self.nested(symbols, Level::Test)?;
        let (key, depth) = key.release();
        Ok((BarePair { key, value }, depth.max(own)))
    }

    /// `{',' Entry}`
    #[tactic(auto, unfolding(star_grammar::specs::Readers::rounds))]
    fn more_entries(
        &self,
        symbols: &mut Cursor<'_>,
        first: (BarePair, usize),
    ) -> May<(Items<BarePair>, usize), NoTree>
        requires { Nests self.now.nesting (F.pre self.now.nested) (F.post self.now.nested) }
        ensures { Reads (more s.Comma (Some s.RightCurly) (spec.entry (reads self.now.nesting)) (one
            first) symbols.old.rest.now) result symbols.new.rest.now }
    {
        let (pair, mut depth) = first;
        let mut pairs = only(self.alloc, pair)?;
        'turns: for turn in 0..symbols.left() {
            if !symbols.goes_on(Sign::Comma, Some(Sign::RightCurly)) {
                return Ok((pairs, depth));
            }
            symbols.skip();
            let (pair, own) = self.entry(symbols)?;
            pairs.push(pair)?;
            depth = depth.max(own);
        }
        Ok((pairs, depth))
    }

    /// `Comp '}'`, behind `{`, a key and a value.
    #[tactic(auto, unfolding(star_grammar::specs::ExpressionReading::dict_comp))]
    fn dict_comp(
        &self,
        symbols: &mut Cursor<'_>,
        key: HeldTree,
        value: HeldTree,
    ) -> May<(BareExpr, usize), NoTree>
        requires { Nests self.now.nesting (F.pre self.now.nested) (F.post self.now.nested) }
        ensures { Reads (spec.dict_comp (reads self.now.nesting) key value symbols.old.rest.now) result
            symbols.new.rest.now }
    {
        let (clauses, last) = self.comp(symbols)?;
        symbols.expect(Sign::RightCurly)?;
        let (key, depth) = boxed(self.alloc, key)?;
        let (value, own) = boxed(self.alloc, value)?;
        let comp = BareExpr::DictComp {
            key,
            value,
            clauses,
        };
        deep(comp, depth.max(own).max(last))
    }

    /// `{',' Entry} [','] '}'`, behind `{` and an entry.
    #[tactic(auto, unfolding(star_grammar::specs::ExpressionReading::dict_of))]
    fn dict_of(
        &self,
        symbols: &mut Cursor<'_>,
        first: (BarePair, usize),
    ) -> May<(BareExpr, usize), NoTree>
        requires { Nests self.now.nesting (F.pre self.now.nested) (F.post self.now.nested) }
        ensures { Reads (spec.dict_of (reads self.now.nesting) first symbols.old.rest.now) result
            symbols.new.rest.now }
    {
        let (pairs, depth) = self.more_entries(symbols, first)?;
        symbols.closed(Sign::Comma, Sign::RightCurly)?;
        deep(BareExpr::Dict(pairs), depth)
    }

    /// What stands behind `{`.
    #[tactic(auto, unfolding(star_grammar::specs::ExpressionReading::curly))]
    fn curly(&self, symbols: &mut Cursor<'_>) -> May<(BareExpr, usize), NoTree>
        requires { Nests self.now.nesting (F.pre self.now.nested) (F.post self.now.nested) }
        ensures { Reads (spec.curly (reads self.now.nesting) symbols.old.rest.now) result
            symbols.new.rest.now }
    {
        if symbols.eat(Sign::RightCurly) {
            return deep(BareExpr::Dict(Items::new(self.alloc)), 0);
        }
        let key = Held::new(self.nested(symbols, Level::Test)?);
        symbols.expect(Sign::Colon)?;
        let value = Held::new(self.nested(symbols, Level::Test)?);
        if symbols.sees(Sign::For) {
            self.dict_comp(symbols, key, value)
        } else {
            let (key, depth) = key.release();
            let (value, own) = value.release();
            self.dict_of(symbols, (BarePair { key, value }, depth.max(own)))
        }
    }

    /// `{',' Test} [','] ')'`, behind `(` and an expression.
    #[tactic(auto, unfolding(star_grammar::specs::ExpressionReading::round_of))]
    fn round_of(
        &self,
        symbols: &mut Cursor<'_>,
        first: (BareExpr, usize),
    ) -> May<(BareExpr, usize), NoTree>
        requires { Nests self.now.nesting (F.pre self.now.nested) (F.post self.now.nested) }
        ensures { Reads (spec.round_of (reads self.now.nesting) first symbols.old.rest.now) result
            symbols.new.rest.now }
    {
        let (items, depth) = self.more_items(symbols, Level::Test, Some(Sign::RightRound), first)?;
        let is_trailed = symbols.eat(Sign::Comma);
        symbols.expect(Sign::RightRound)?;
        if is_trailed {
            deep(BareExpr::Tuple(items), depth)
        } else {
            bracketed(self.alloc, items, depth)
        }
    }

    /// What stands behind `(`.
    #[tactic(auto, unfolding(star_grammar::specs::ExpressionReading::round))]
    fn round(&self, symbols: &mut Cursor<'_>) -> May<(BareExpr, usize), NoTree>
        requires { Nests self.now.nesting (F.pre self.now.nested) (F.post self.now.nested) }
        ensures { Reads (spec.round (reads self.now.nesting) symbols.old.rest.now) result
            symbols.new.rest.now }
    {
        if symbols.eat(Sign::RightRound) {
            return deep(BareExpr::Tuple(Items::new(self.alloc)), 0);
        }
        let first = self.nested(symbols, Level::Test)?;
        self.round_of(symbols, first)
    }

    #[tactic(auto, unfolding(star_grammar::specs::ExpressionReading::operand))]
    pub(crate) fn operand(&self, symbols: &mut Cursor<'_>) -> May<(BareExpr, usize), NoTree>
        requires { Nests self.now.nesting (F.pre self.now.nested) (F.post self.now.nested) }
        ensures { Reads (spec.operand (reads self.now.nesting) symbols.old.rest.now) result
            symbols.new.rest.now }
    {
        if symbols.eat(Sign::LeftSquare) {
            self.square(symbols)
        } else if symbols.eat(Sign::LeftCurly) {
            self.curly(symbols)
        } else if symbols.eat(Sign::LeftRound) {
            self.round(symbols)
        } else {
            self.atom(symbols)
        }
    }
}
