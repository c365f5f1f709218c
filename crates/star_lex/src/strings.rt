//! Strings. `Style` says how one is written, an item is one character or escape of it, and `string`
//! gives the value of the one at the front.
ghost use Rattle.std.specs.Prelude.{◌≡◌, ◌≤◌, ◌<◌, ◌+◌, ◌++◌, ◌∷◌, [], ℕ, List, length, drop};
ghost use Rattle.std.specs.Prelude.{slice_index, OnOk, option_and_then};
ghost use Rattle.std.specs.Char.{encode_utf8};
ghost use Rattle.std.specs.Str.{IsUtf8};
ghost use Rattle.star_lex.specs.Answers.{Answers};
ghost use Rattle.star_lex.specs.Strings.{bytes_of, closes, Contents, IsString, escape};
ghost use Rattle.star_lex.specs.Strings.{front_number, is_octal_digit, is_quote, is_raw, is_scalar};
ghost use Rattle.star_lex.specs.Strings.{is_tripled, item, numbered_escape, octal_digits, opening};
ghost use Rattle.star_lex.specs.Strings.{plain, prefix, quotes, raw_pair, simple_escape, style_of};
ghost use Rattle.star_lex.specs.Strings.{ascii, scalar};

use crate::bytes::{byte_at, is_visible, line_end};
use crate::integers::number;
use crate::token::NoLexeme;
use bz_text::{May, Mem, Miss, Txt};
use std::alloc::Global;

/// How a string is written: by which quote, whether by three of them, whether behind an `r`.
#[derive(Clone, Copy, Debug, PartialEq, Eq)]
pub struct Style {
    pub quote: u8,
    pub triple: bool,
    pub raw: bool,
}

/// What an item of a string puts into its value.
#[derive(Clone, Copy, Debug, PartialEq, Eq)]
pub enum Meaning {
    Nothing,
    Byte(u8),
    Kept(u8),
    Scalar(char),
}

/// What stands behind the first bytes.
pub(crate) fn behind(text: &[u8], size: usize) -> &[u8]
    ensures { result.now ≡ drop size text.now }
{
    if size <= text.len() {
        text.split_at(size).1
    } else {
        &[]
    }
}

fn front_number(base: u64, size: usize, text: &[u8]) -> Option<u64>
    requires { 0 < base }
    ensures { result ≡ front_number base size text.now }
{
    if size <= text.len() {
        number(base, text.split_at(size).0)
    } else {
        None
    }
}

fn ascii(size: usize, code: u64) -> Option<(Meaning, usize)>
    ensures { result ≡ ascii size code }
{
    if code <= 127 {
        Some((Meaning::Byte(code as u8), size))
    } else {
        None
    }
}

fn scalar(size: usize, code: u64) -> Option<(Meaning, usize)>
    ensures { result ≡ scalar size code }
{
    if code >= 1114112 {
        return None;
    }
    match char::from_u32(code as u32) {
        Some(character) => Some((Meaning::Scalar(character), size)),
        None => None,
    }
}

fn is_octal_digit(byte: u8) -> bool
    ensures { result ≡ is_octal_digit byte }
{
    b'0' <= byte && byte <= b'7'
}

fn octal_digits(text: &[u8]) -> usize
    ensures exact { result ≡ octal_digits text.now }
    ensures few { result ≤ 3 }
{
    if !is_octal_digit(byte_at(text, 0)) {
        0
    } else if !is_octal_digit(byte_at(text, 1)) {
        1
    } else if !is_octal_digit(byte_at(text, 2)) {
        2
    } else {
        3
    }
}

fn simple_escape(byte: u8) -> Option<u8>
    ensures { result ≡ simple_escape byte }
{
    match byte {
        b'a' => Some(7),
        b'b' => Some(8),
        b'f' => Some(12),
        b'n' => Some(10),
        b'r' => Some(13),
        b't' => Some(9),
        b'v' => Some(11),
        b'\\' | b'\'' | b'"' => Some(byte),
        _ => None,
    }
}

fn ascii_escape(size: usize, code: Option<u64>) -> Option<(Meaning, usize)>
    ensures { result ≡ option_and_then (ascii size) code }
{
    match code {
        Some(code) => ascii(size, code),
        None => None,
    }
}

fn scalar_escape(size: usize, code: Option<u64>) -> Option<(Meaning, usize)>
    ensures { result ≡ option_and_then (scalar size) code }
{
    match code {
        Some(code) => scalar(size, code),
        None => None,
    }
}

#[tactic(auto, unfolding(crate::specs::Strings::numbered_escape))]
fn numbered_escape(text: &[u8]) -> Option<(Meaning, usize)>
    ensures { result ≡ numbered_escape text.now }
{
    if byte_at(text, 0) == b'x' {
        return ascii_escape(4, front_number(16, 2, behind(text, 1)));
    }
    if byte_at(text, 0) == b'u' {
        return scalar_escape(6, front_number(16, 4, behind(text, 1)));
    }
    if byte_at(text, 0) == b'U' {
        return scalar_escape(10, front_number(16, 8, behind(text, 1)));
    }
    let size = octal_digits(text);
    ascii_escape(1 + size, front_number(8, size, text))
}

#[tactic(auto, unfolding(crate::specs::Strings::escape))]
fn escape(text: &[u8]) -> Option<(Meaning, usize)>
    ensures { result ≡ escape text.now }
{
    if let Some(size) = line_end(text) {
        return Some((Meaning::Nothing, 1 + size));
    }
    match simple_escape(byte_at(text, 0)) {
        Some(byte) => Some((Meaning::Byte(byte), 2)),
        None => numbered_escape(text),
    }
}

#[tactic(auto, unfolding(crate::specs::Strings::raw_pair))]
fn raw_pair(text: &[u8]) -> Option<(Meaning, usize)>
    ensures { result ≡ raw_pair text.now }
{
    if let Some(size) = line_end(text) {
        return Some((Meaning::Kept(b'\n'), 1 + size));
    }
    let byte = byte_at(text, 0);
    if is_visible(byte) {
        Some((Meaning::Kept(byte), 2))
    } else {
        None
    }
}

#[tactic(auto, unfolding(crate::specs::Strings::plain))]
fn plain(triple: bool, text: &[u8]) -> Option<(Meaning, usize)>
    ensures { result ≡ plain triple text.now }
{
    if let Some(size) = line_end(text) {
        return if triple {
            Some((Meaning::Byte(b'\n'), size))
        } else {
            None
        };
    }
    let byte = byte_at(text, 0);
    if is_visible(byte) {
        Some((Meaning::Byte(byte), 1))
    } else {
        None
    }
}

#[tactic(auto, unfolding(crate::specs::Strings::item))]
fn item(style: Style, text: &[u8]) -> Option<(Meaning, usize)>
    ensures { result ≡ item style text.now }
{
    if byte_at(text, 0) != b'\\' {
        return plain(style.triple, text);
    }
    if style.raw {
        raw_pair(behind(text, 1))
    } else {
        escape(behind(text, 1))
    }
}

fn is_tripled(quote: u8, text: &[u8]) -> bool
    ensures { result ≡ is_tripled quote text.now }
{
    byte_at(text, 0) == quote && byte_at(text, 1) == quote && byte_at(text, 2) == quote
}

#[tactic(auto, unfolding(crate::specs::Strings::closes))]
fn closes(style: Style, text: &[u8]) -> bool
    ensures { result ≡ closes style text.now }
{
    if style.triple {
        is_tripled(style.quote, text)
    } else {
        byte_at(text, 0) == style.quote
    }
}

fn quotes(style: Style) -> usize
    ensures exact { result ≡ quotes style }
    ensures few { result ≤ 3 }
{
    if style.triple { 3 } else { 1 }
}

fn is_quote(byte: u8) -> bool
    ensures { result ≡ is_quote byte }
{
    byte == b'"' || byte == b'\''
}

pub(crate) fn is_raw(text: &[u8]) -> bool
    ensures { result ≡ is_raw text.now }
{
    byte_at(text, 0) == b'r' && is_quote(byte_at(text, 1))
}

fn prefix(text: &[u8]) -> usize
    ensures exact { result ≡ prefix text.now }
    ensures few { result ≤ 1 }
{
    if is_raw(text) { 1 } else { 0 }
}

#[tactic(auto, unfolding(crate::specs::Strings::style_of))]
fn style_of(text: &[u8]) -> Style
    ensures { result ≡ style_of text.now }
{
    let before = prefix(text);
    let quote = byte_at(text, before);
    Style {
        quote,
        triple: is_tripled(quote, behind(text, before)),
        raw: is_raw(text),
    }
}

/// Puts what an item means at the end of a value.
fn push_meaning(alloc: Global, value: &mut Vec<u8>, meaning: Meaning) -> Mem<()>
    ensures { OnOk result (value.new.items ≡ value.old.items ++ bytes_of meaning) }
{
    match meaning {
        Meaning::Nothing => Ok(()),
        Meaning::Byte(byte) => Ok(value.push(byte)?),
        Meaning::Kept(byte) => push_kept(value, byte),
        Meaning::Scalar(character) => push_character(alloc, value, character),
    }
}

fn push_kept(value: &mut Vec<u8>, byte: u8) -> Mem<()>
    ensures { OnOk result (value.new.items ≡ value.old.items ++ 92 ∷ byte ∷ []) }
{
    value.push(b'\\')?;
    value.push(byte)?;
    Ok(())
}

fn push_character(alloc: Global, value: &mut Vec<u8>, character: char) -> Mem<()>
    ensures { OnOk result (value.new.items ≡ value.old.items ++ encode_utf8 character) }
{
    let mut text = String::new(alloc);
    text.push(character)?;
    value.extend_from_slice(text.as_bytes())?;
    Ok(())
}

/// The value of the items up to the quotes at the end, and the length of both.
fn contents(alloc: Global, style: Style, text: &[u8]) -> May<(Vec<u8>, usize), NoLexeme>
    requires { 0 < style.quote }
    ensures { Answers (λ found. Contents style text.now found.0.items found.1)
        ((value : List ℕ) (n : ℕ) → Contents style text.now value n → ⊥) result }
{
    let mut value = Vec::new(alloc);
    let mut rest = text;
    'items: while !closes(style, rest) {
        match item(style, rest) {
            None => return Err(Miss::Because(NoLexeme)),
            Some((meaning, size)) => {
                push_meaning(alloc, &mut value, meaning)?;
                rest = behind(rest, size);
            }
        }
    }
    Ok((value, text.len() - rest.len() + quotes(style)))
}

/// The text of these bytes.
fn text_of(bytes: Vec<u8>) -> Txt
    requires { IsUtf8 bytes.items }
    ensures { result ≡ bytes.items }
{
    match String::from_utf8(bytes) {
        Ok(text) => Txt::of_string(text),
        Err(_) => unreachable!(),
    }
}

fn opening(text: &[u8]) -> usize
    ensures exact { result ≡ opening text.now }
    ensures few { result ≤ 4 }
{
    prefix(text) + quotes(style_of(text))
}

/// The value of the string at the front, and its length.
pub(crate) fn string(alloc: Global, text: &[u8]) -> May<(Txt, usize), NoLexeme>
    requires some { 0 < slice_index text.now (prefix text.now) }
    requires ascii { slice_index text.now (prefix text.now) < 128 }
    requires utf8 { IsUtf8 text.now }
    ensures { Answers (λ found. IsString text.now found.0 found.1)
        ((value : List ℕ) (n : ℕ) → IsString text.now value n → ⊥) result }
{
    let before = opening(text);
    match contents(alloc, style_of(text), behind(text, before)) {
        Ok((bytes, size)) => Ok((text_of(bytes), before + size)),
        Err(miss) => Err(miss),
    }
}
