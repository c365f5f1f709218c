//! The lexemes of a text. Each function reads the one at the front by the class of its first byte.
ghost use Rattle.std.specs.Prelude.{◌≡◌, ◌<◌, ◌≤◌, ℕ, pos, length, slice_index};
ghost use Rattle.std.specs.Str.{IsUtf8};
ghost use Rattle.star_lex.specs.Answers.{Answers};
ghost use Rattle.star_lex.specs.Bytes.{class_of};
ghost use Rattle.star_lex.specs.Lexemes.{IsWhitespace, IsInteger, IsLineContinuation, IsLettered};
ghost use Rattle.star_lex.specs.Lexemes.{IsLineEnd, IsOfClass, IsLexeme, IsPunctuation, IsQuoted};
ghost use Rattle.star_lex.specs.Lexemes.{IsComment, IsWord};
ghost use Rattle.star_lex.specs.Strings.{is_raw, prefix};
ghost use Rattle.star_lex.specs.Integers.{last_integer};
ghost use Rattle.star_lex.specs.declared.lexemes.Lexeme.{Lexeme};
ghost use Rattle.star_lex.specs.declared.lexemes.Lexeme.TheVariants.{Shown};
ghost use Rattle.star_lex.specs.declared.token.TokenKind.TheVariants.{Int};

use crate::bytes::{Class, byte_at, class_of, line_end};
use crate::integers::{begins_fraction, integer_of};
use crate::marks::mark_length;
use crate::runs::{Within, run_length};
use crate::strings::{behind, is_raw, string};
use crate::token::{NoLexeme, TokenKind};
use crate::words::word_kind;
use bz_text::{May, Miss};
use std::alloc::Global;

/// A lexeme of a text: whitespace, a comment, a line's end, a line continuation, or what gives a
/// token.
#[derive(Debug, Drop)]
pub(crate) enum Lexeme {
    Whitespace,
    Comment,
    LineEnd,
    LineContinuation,
    Shown(TokenKind),
}

fn whitespace(text: &[u8]) -> (Lexeme, usize)
    ensures { IsWhitespace text.now result.0 result.1 }
{
    (Lexeme::Whitespace, run_length(text, Within::Blank))
}

fn comment(text: &[u8]) -> (Lexeme, usize)
    ensures { IsComment text.now result.0 result.1 }
{
    (Lexeme::Comment, run_length(text, Within::RestOfLine))
}

fn word(text: &[u8]) -> (Lexeme, usize)
    ensures { IsWord text.now result.0 result.1 }
{
    let size = run_length(text, Within::Word);
    (Lexeme::Shown(word_kind(text.split_at(size).0)), size)
}

fn integer_lexeme(value: u64) -> Lexeme
    requires { value ≤ last_integer }
    ensures { result ≡ Shown (Int (pos value)) }
{
    Lexeme::Shown(TokenKind::Int(value as i64))
}

fn integer(text: &[u8]) -> May<(Lexeme, usize), NoLexeme>
    ensures { Answers (λ found. IsInteger text.now found.0 found.1)
        ((lexeme : Lexeme) (n : ℕ) → IsInteger text.now lexeme n → ⊥) result }
{
    let size = run_length(text, Within::Word);
    let (front, rest) = text.split_at(size);
    if begins_fraction(rest) {
        return Err(Miss::Because(NoLexeme));
    }
    match integer_of(front) {
        Some(value) => Ok((integer_lexeme(value), size)),
        None => Err(Miss::Because(NoLexeme)),
    }
}

fn quoted(alloc: Global, text: &[u8]) -> May<(Lexeme, usize), NoLexeme>
    requires some { 0 < slice_index text.now (prefix text.now) }
    requires ascii { slice_index text.now (prefix text.now) < 128 }
    requires utf8 { IsUtf8 text.now }
    ensures { Answers (λ found. IsQuoted text.now found.0 found.1)
        ((lexeme : Lexeme) (n : ℕ) → IsQuoted text.now lexeme n → ⊥) result }
{
    match string(alloc, text) {
        Ok((value, size)) => Ok((Lexeme::Shown(TokenKind::Text(value)), size)),
        Err(Miss::Because(NoLexeme)) => Err(Miss::Because(NoLexeme)),
        Err(Miss::OutOfMemory) => Err(Miss::OutOfMemory),
    }
}

fn lettered(alloc: Global, text: &[u8]) -> May<(Lexeme, usize), NoLexeme>
    requires { IsUtf8 text.now }
    ensures { Answers (λ found. IsLettered (is_raw text.now) text.now found.0 found.1)
        ((lexeme : Lexeme) (n : ℕ) → IsLettered (is_raw text.now) text.now lexeme n → ⊥) result }
{
    if is_raw(text) {
        quoted(alloc, text)
    } else {
        Ok(word(text))
    }
}

fn line_continuation(text: &[u8]) -> May<(Lexeme, usize), NoLexeme>
    ensures { Answers (λ found. IsLineContinuation text.now found.0 found.1)
        ((lexeme : Lexeme) (n : ℕ) → IsLineContinuation text.now lexeme n → ⊥) result }
{
    match line_end(behind(text, 1)) {
        Some(size) => Ok((Lexeme::LineContinuation, 1 + size)),
        None => Err(Miss::Because(NoLexeme)),
    }
}

fn feed(text: &[u8]) -> May<(Lexeme, usize), NoLexeme>
    ensures { Answers (λ found. IsLineEnd text.now found.0 found.1)
        ((lexeme : Lexeme) (n : ℕ) → IsLineEnd text.now lexeme n → ⊥) result }
{
    match line_end(text) {
        Some(size) => Ok((Lexeme::LineEnd, size)),
        None => Err(Miss::Because(NoLexeme)),
    }
}

fn punctuation(text: &[u8]) -> May<(Lexeme, usize), NoLexeme>
    ensures { Answers (λ found. IsPunctuation text.now found.0 found.1)
        ((lexeme : Lexeme) (n : ℕ) → IsPunctuation text.now lexeme n → ⊥) result }
{
    match mark_length(text) {
        Some(size) => Ok((Lexeme::Shown(TokenKind::Mark), size)),
        None => Err(Miss::Because(NoLexeme)),
    }
}

fn lexeme_of_class(alloc: Global, class: Class, text: &[u8]) -> May<(Lexeme, usize), NoLexeme>
    requires first { class ≡ class_of (slice_index text.now 0) }
    requires utf8 { IsUtf8 text.now }
    ensures { Answers (λ found. IsOfClass class text.now found.0 found.1)
        ((lexeme : Lexeme) (n : ℕ) → IsOfClass class text.now lexeme n → ⊥) result }
{
    match class {
        Class::Space => Ok(whitespace(text)),
        Class::Letter => lettered(alloc, text),
        Class::Digit => integer(text),
        Class::Quote => quoted(alloc, text),
        Class::Hash => Ok(comment(text)),
        Class::Backslash => line_continuation(text),
        Class::Feed => feed(text),
        Class::Other => punctuation(text),
    }
}

/// The lexeme at the front of a text, and its length.
#[tactic(auto, unfolding(crate::specs::Lexemes::IsLexeme))]
pub(crate) fn front_lexeme(alloc: Global, text: &[u8]) -> May<(Lexeme, usize), NoLexeme>
    requires { IsUtf8 text.now }
    ensures { Answers (λ found. IsLexeme text.now found.0 found.1)
        ((lexeme : Lexeme) (n : ℕ) → IsLexeme text.now lexeme n → ⊥) result }
{
    lexeme_of_class(alloc, class_of(byte_at(text, 0)), text)
}
