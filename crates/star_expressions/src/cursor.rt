//! What is left of the symbols of a text.
ghost use Rattle.std.specs.Prelude.{◌≡◌, ◌≤◌, length, Option};
ghost use Rattle.star_grammar.specs.Rules.{front_line};
ghost use Rattle.star_grammar.specs.Readers as spec;
ghost use Rattle.star_grammar.specs.ExpressionReading.{sees_argument_name};
ghost use Rattle.star_grammar.specs.Operators as operators;
ghost use Rattle.star_expressions.specs.Reads.{Finds, Reads};

use crate::operators;
use bz_text::{May, Miss, Txt};
use star_grammar::{Sign, Symbol, SymbolKind};
use star_trees::{BinOp, UnOp};
use std::alloc::Global;

/// No tree stands there.
#[derive(Clone, Copy, Debug, PartialEq, Eq)]
pub struct NoTree;

pub struct Cursor<'a> {
    pub rest: &'a [Symbol],
}

#[tactic(auto, unfolding(star_grammar::specs::Readers::same_sign))]
pub(crate) fn same_sign(one: Sign, other: Sign) -> bool
    ensures { result ≡ spec.same_sign one other }
{
    one == other
}

fn is_sign(what: Sign, kind: &SymbolKind) -> bool
    ensures { result ≡ spec.is_sign what kind.now }
{
    match kind {
        SymbolKind::Sign(other) => same_sign(*other, what),
        SymbolKind::Name(_) => false,
        SymbolKind::Int(_) => false,
        SymbolKind::Text(_) => false,
    }
}

fn sees(what: Sign, symbols: &[Symbol]) -> bool
    ensures { result ≡ spec.sees what symbols.now }
{
    match symbols {
        [symbol, ..] => is_sign(what, &symbol.kind),
        [] => false,
    }
}

fn behind(symbols: &[Symbol]) -> &[Symbol]
    ensures { result.now ≡ spec.behind symbols.now }
{
    match symbols {
        [_, rest @ ..] => rest,
        [] => symbols,
    }
}

impl<'a> Cursor<'a> {
    pub fn left(&self) -> usize
        ensures { result ≡ length self.now.rest.now }
    {
        self.rest.len()
    }

    pub fn line(&self) -> u64
        ensures { result ≡ front_line self.now.rest.now }
    {
        match self.rest {
            [symbol, ..] => symbol.line,
            [] => 0,
        }
    }

    pub fn sees(&self, what: Sign) -> bool
        ensures { result ≡ spec.sees what self.now.rest.now }
    {
        sees(what, self.rest)
    }

    /// Whether this sign stands behind the next symbol.
    pub fn sees_behind(&self, what: Sign) -> bool
        ensures { result ≡ spec.sees what (spec.behind self.now.rest.now) }
    {
        sees(what, behind(self.rest))
    }

    pub fn skip(&mut self)
        ensures { self.new.rest.now ≡ spec.behind self.old.rest.now }
    {
        self.rest = behind(self.rest);
    }

    pub fn eat(&mut self, what: Sign) -> bool
        ensures found { result ≡ spec.sees what self.old.rest.now }
        ensures past { self.new.rest.now ≡ spec.past what self.old.rest.now }
    {
        let found = self.sees(what);
        if found {
            self.skip();
        }
        found
    }

    pub fn expect(&mut self, what: Sign) -> May<(), NoTree>
        ensures { Reads (spec.expect what self.old.rest.now) result self.new.rest.now }
    {
        if self.sees(what) {
            self.skip();
            Ok(())
        } else {
            Err(Miss::Because(NoTree))
        }
    }
}

impl<'a> Cursor<'a> {
    pub fn sees_word(&self) -> bool
        ensures { result ≡ spec.sees_word self.now.rest.now }
    {
        match self.rest {
            [symbol, ..] => is_word(&symbol.kind),
            [] => false,
        }
    }

    /// Whether a name and `=` come next.
    pub fn sees_argument_name(&self) -> bool
        ensures { result ≡ sees_argument_name self.now.rest.now }
    {
        self.sees_word() && self.sees_behind(Sign::Assign)
    }

    /// Whether the sign between items comes next, and not as the last before the sign that closes
    /// them.
    pub fn goes_on(&self, between: Sign, close: Option<Sign>) -> bool
        ensures { result ≡ spec.goes_on between close self.now.rest.now }
    {
        match close {
            None => self.sees(between),
            Some(close) => self.sees(between) && !self.sees_behind(close),
        }
    }

    fn sign(&self) -> Option<Sign>
        ensures { result ≡ spec.front_sign self.now.rest.now }
    {
        match self.rest {
            [symbol, ..] => sign_of(&symbol.kind),
            [] => None,
        }
    }

    /// The operator of this level that comes next.
    pub fn operator(&self, level: usize) -> Option<BinOp>
        ensures { result ≡ spec.front_of (operators.operator level) self.now.rest.now }
    {
        match self.sign() {
            Some(what) => operators::operator(level, what),
            None => None,
        }
    }

    pub fn comparison(&self) -> Option<BinOp>
        ensures { result ≡ spec.front_of operators.comparison self.now.rest.now }
    {
        match self.sign() {
            Some(what) => operators::comparison(what),
            None => None,
        }
    }

    pub fn prefix(&self) -> Option<UnOp>
        ensures { result ≡ spec.front_of operators.prefix self.now.rest.now }
    {
        match self.sign() {
            Some(what) => operators::prefix(what),
            None => None,
        }
    }

    pub fn negation(&self) -> Option<UnOp>
        ensures { result ≡ spec.front_of operators.negation self.now.rest.now }
    {
        match self.sign() {
            Some(what) => operators::negation(what),
            None => None,
        }
    }

    pub fn augmented(&self) -> Option<BinOp>
        ensures { result ≡ spec.front_of operators.augmented self.now.rest.now }
    {
        match self.sign() {
            Some(what) => operators::augmented(what),
            None => None,
        }
    }

    pub fn name(&mut self, alloc: Global) -> May<Txt, NoTree>
        ensures { Reads (spec.name self.old.rest.now) result self.new.rest.now }
    {
        match self.rest {
            [symbol, rest @ ..] => {
                let name = name_in(alloc, &symbol.kind)?;
                self.rest = rest;
                Ok(name)
            }
            [] => Err(Miss::Because(NoTree)),
        }
    }

    pub fn text(&mut self, alloc: Global) -> May<Txt, NoTree>
        ensures { Reads (spec.text self.old.rest.now) result self.new.rest.now }
    {
        match self.rest {
            [symbol, rest @ ..] => {
                let text = text_in(alloc, &symbol.kind)?;
                self.rest = rest;
                Ok(text)
            }
            [] => Err(Miss::Because(NoTree)),
        }
    }

    /// Takes this sign, or the one behind it and then this.
    pub fn closed(&mut self, between: Sign, close: Sign) -> May<(), NoTree>
        ensures { Reads (spec.closed between close self.old.rest.now) result self.new.rest.now }
    {
        self.eat(between);
        self.expect(close)
    }
}

fn is_word(kind: &SymbolKind) -> bool
    ensures { result ≡ spec.is_word kind.now }
{
    match kind {
        SymbolKind::Name(_) => true,
        SymbolKind::Int(_) => false,
        SymbolKind::Text(_) => false,
        SymbolKind::Sign(_) => false,
    }
}

fn sign_of(kind: &SymbolKind) -> Option<Sign>
    ensures { result ≡ spec.sign_of kind.now }
{
    match kind {
        SymbolKind::Name(_) => None,
        SymbolKind::Int(_) => None,
        SymbolKind::Text(_) => None,
        SymbolKind::Sign(what) => Some(*what),
    }
}

fn name_in(alloc: Global, kind: &SymbolKind) -> May<Txt, NoTree>
    ensures { Finds (spec.name_in kind.now) result }
{
    match kind {
        SymbolKind::Name(name) => Ok(name.copy(alloc)?),
        SymbolKind::Int(_) => Err(Miss::Because(NoTree)),
        SymbolKind::Text(_) => Err(Miss::Because(NoTree)),
        SymbolKind::Sign(_) => Err(Miss::Because(NoTree)),
    }
}

fn text_in(alloc: Global, kind: &SymbolKind) -> May<Txt, NoTree>
    ensures { Finds (spec.text_in kind.now) result }
{
    match kind {
        SymbolKind::Name(_) => Err(Miss::Because(NoTree)),
        SymbolKind::Int(_) => Err(Miss::Because(NoTree)),
        SymbolKind::Text(text) => Ok(text.copy(alloc)?),
        SymbolKind::Sign(_) => Err(Miss::Because(NoTree)),
    }
}
