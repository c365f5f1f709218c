//! The symbols of a text: its tokens, each with what its slice of the text says.
ghost use Rattle.std.specs.Prelude.{◌≡◌, length, drop, IfOk};
ghost use Rattle.std.specs.Str.{IsUtf8};
ghost use Rattle.star_grammar.specs.Symbols as spec;
ghost use Rattle.star_grammar.specs.Symbols.{sign_in};
ghost use Rattle.star_lex.specs.Slices.{AreSlices};
ghost use Rattle.star_lex.specs.declared.token.TokenKind.TheVariants as token_kind;
ghost use Rattle.star_statements.specs.Slices.{IsPlaced};

use bz_text::{Mem, Seq, Txt, same_bytes};
use star_grammar::{Sign, Symbol, SymbolKind};
use star_lex::{Token, TokenKind};
use std::alloc::Global;

/// The keyword that a word is.
#[tactic(auto, unfolding(star_grammar::specs::Symbols::keyword))]
fn keyword(word: &[u8]) -> Sign
    ensures { result ≡ spec.keyword word.now }
{
    if same_bytes(word, b"and") {
        Sign::And
    } else if same_bytes(word, b"break") {
        Sign::Break
    } else if same_bytes(word, b"continue") {
        Sign::Continue
    } else if same_bytes(word, b"def") {
        Sign::Def
    } else if same_bytes(word, b"elif") {
        Sign::Elif
    } else if same_bytes(word, b"else") {
        Sign::Else
    } else if same_bytes(word, b"for") {
        Sign::For
    } else if same_bytes(word, b"if") {
        Sign::If
    } else {
        keyword_from_in(word)
    }
}

fn keyword_from_in(word: &[u8]) -> Sign
    ensures { result ≡ sign_in (drop 8 spec.keywords) word.now }
{
    if same_bytes(word, b"in") {
        Sign::In
    } else if same_bytes(word, b"lambda") {
        Sign::Lambda
    } else if same_bytes(word, b"load") {
        Sign::Load
    } else if same_bytes(word, b"not") {
        Sign::Not
    } else if same_bytes(word, b"or") {
        Sign::Or
    } else if same_bytes(word, b"pass") {
        Sign::Pass
    } else if same_bytes(word, b"return") {
        Sign::Return
    } else {
        Sign::Reserved
    }
}

/// The mark that some bytes are.
#[tactic(auto, unfolding(star_grammar::specs::Symbols::mark))]
fn mark(word: &[u8]) -> Sign
    ensures { result ≡ spec.mark word.now }
{
    if same_bytes(word, b"+") {
        Sign::Plus
    } else if same_bytes(word, b"-") {
        Sign::Minus
    } else if same_bytes(word, b"*") {
        Sign::Star
    } else if same_bytes(word, b"//") {
        Sign::Slashes
    } else if same_bytes(word, b"%") {
        Sign::Percent
    } else if same_bytes(word, b"**") {
        Sign::StarStar
    } else if same_bytes(word, b"~") {
        Sign::Tilde
    } else if same_bytes(word, b"&") {
        Sign::Ampersand
    } else {
        mark_from_bar(word)
    }
}

fn mark_from_bar(word: &[u8]) -> Sign
    ensures { result ≡ sign_in (drop 8 spec.marks) word.now }
{
    if same_bytes(word, b"|") {
        Sign::Bar
    } else if same_bytes(word, b"^") {
        Sign::Caret
    } else if same_bytes(word, b"<<") {
        Sign::ShiftLeft
    } else if same_bytes(word, b">>") {
        Sign::ShiftRight
    } else if same_bytes(word, b".") {
        Sign::Dot
    } else if same_bytes(word, b",") {
        Sign::Comma
    } else if same_bytes(word, b"=") {
        Sign::Assign
    } else if same_bytes(word, b";") {
        Sign::Semicolon
    } else {
        mark_from_colon(word)
    }
}

fn mark_from_colon(word: &[u8]) -> Sign
    ensures { result ≡ sign_in (drop 16 spec.marks) word.now }
{
    if same_bytes(word, b":") {
        Sign::Colon
    } else if same_bytes(word, b"(") {
        Sign::LeftRound
    } else if same_bytes(word, b")") {
        Sign::RightRound
    } else if same_bytes(word, b"[") {
        Sign::LeftSquare
    } else if same_bytes(word, b"]") {
        Sign::RightSquare
    } else if same_bytes(word, b"{") {
        Sign::LeftCurly
    } else if same_bytes(word, b"}") {
        Sign::RightCurly
    } else if same_bytes(word, b"<") {
        Sign::Below
    } else {
        mark_from_above(word)
    }
}

fn mark_from_above(word: &[u8]) -> Sign
    ensures { result ≡ sign_in (drop 24 spec.marks) word.now }
{
    if same_bytes(word, b">") {
        Sign::Above
    } else if same_bytes(word, b">=") {
        Sign::AtLeast
    } else if same_bytes(word, b"<=") {
        Sign::AtMost
    } else if same_bytes(word, b"==") {
        Sign::Equal
    } else if same_bytes(word, b"!=") {
        Sign::Unequal
    } else if same_bytes(word, b"+=") {
        Sign::PlusAssign
    } else if same_bytes(word, b"-=") {
        Sign::MinusAssign
    } else if same_bytes(word, b"*=") {
        Sign::StarAssign
    } else {
        mark_from_slashesassign(word)
    }
}

fn mark_from_slashesassign(word: &[u8]) -> Sign
    ensures { result ≡ sign_in (drop 32 spec.marks) word.now }
{
    if same_bytes(word, b"//=") {
        Sign::SlashesAssign
    } else if same_bytes(word, b"%=") {
        Sign::PercentAssign
    } else if same_bytes(word, b"&=") {
        Sign::AmpersandAssign
    } else if same_bytes(word, b"|=") {
        Sign::BarAssign
    } else if same_bytes(word, b"^=") {
        Sign::CaretAssign
    } else if same_bytes(word, b"<<=") {
        Sign::ShiftLeftAssign
    } else if same_bytes(word, b">>=") {
        Sign::ShiftRightAssign
    } else {
        Sign::Reserved
    }
}

/// A name's bytes as a text.
fn name(alloc: Global, bytes: &[u8]) -> Mem<Txt>
    requires { IsUtf8 bytes.now }
    ensures { IfOk result (λ name. name ≡ bytes.now) }
{
    match str::from_utf8(bytes) {
        Ok(text) => Txt::of(alloc, text),
        Err(_) => unreachable!(),
    }
}

fn kind_over(alloc: Global, slice: &[u8], kind: &TokenKind) -> Mem<SymbolKind>
    requires { kind.now ≡ token_kind.Identifier → IsUtf8 slice.now }
    ensures { IfOk result (λ found. found ≡ spec.kind_over slice.now kind.now) }
{
    match kind {
        TokenKind::Identifier => Ok(SymbolKind::Name(name(alloc, slice)?)),
        TokenKind::Keyword => Ok(SymbolKind::Sign(keyword(slice))),
        TokenKind::Reserved => Ok(SymbolKind::Sign(Sign::Reserved)),
        TokenKind::Int(value) => Ok(SymbolKind::Int(*value)),
        TokenKind::Text(text) => Ok(SymbolKind::Text(text.copy(alloc)?)),
        TokenKind::Mark => Ok(SymbolKind::Sign(mark(slice))),
        TokenKind::Newline => Ok(SymbolKind::Sign(Sign::Newline)),
        TokenKind::Indent => Ok(SymbolKind::Sign(Sign::Indent)),
        TokenKind::Outdent => Ok(SymbolKind::Sign(Sign::Outdent)),
    }
}

fn slice_of<'a>(text: &'a [u8], token: &Token) -> &'a [u8]
    requires { IsPlaced text.now token.now }
    ensures { result.now ≡ spec.slice_of text.now token.now }
{
    let begin = token.begin as usize;
    let end = token.end as usize;
    let (_, rest) = text.split_at(begin);
    let (slice, _) = rest.split_at(end - begin);
    slice
}

fn symbol_of(alloc: Global, text: &[u8], token: &Token) -> Mem<Symbol>
    requires { IsPlaced text.now token.now }
    ensures { IfOk result (λ symbol. symbol ≡ spec.symbol_of text.now token.now) }
{
    let kind = kind_over(alloc, slice_of(text, token), &token.kind)?;
    Ok(Symbol {
        kind,
        line: token.line,
    })
}

pub(crate) fn symbols_of(alloc: Global, text: &[u8], tokens: &[Token]) -> Mem<Seq<Symbol>>
    requires { AreSlices text.now 0 tokens.now (length text.now) }
    ensures { IfOk result (λ symbols. symbols ≡ spec.symbols_of text.now tokens.now) }
{
    let mut symbols = Vec::new(alloc);
    let mut rest = tokens;
    'turns: while let Some((token, more)) = rest.split_first() {
        symbols.push(symbol_of(alloc, text, token)?)?;
        rest = more;
    }
    Ok(Seq::of_vec(symbols))
}
