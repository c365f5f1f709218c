//! One line of a module file in the literal form.
ghost use Rattle.std.specs.Prelude.{◌≡◌, ◌||◌, [], ◌∷◌, IfNone, IfSome};
ghost use Rattle.std.specs.Char.{is_ascii_digit, is_ascii_lowercase};
ghost use Rattle.std.specs.List.{list_all};
ghost use Rattle.bz_text.specs.Answers.{Gives};
ghost use Rattle.bz_base.specs.Names.{begins_and_goes_on, ends, is_joint, is_module_byte};
ghost use Rattle.bz_base.specs.Names.{is_module_name};
ghost use Rattle.module_file.specs.LiteralLines.{key_of, line_of, line_of_pieces, line_with};
ghost use Rattle.module_file.specs.LiteralLines.{pieces_of};

use bz_base::{Key, May, Miss, Txt, cut_at};
use bz_version::Version;
use std::alloc::Global;

/// A line of a module file in the literal form.
#[derive(Debug, Drop)]
pub enum LiteralLine {
    Empty,
    Module(Key),
    Dep(Key),
}

/// The text hasn't the literal form.
#[derive(Clone, Copy, Debug, PartialEq, Eq)]
pub struct NotLiteral;

/// Reads a line, without its line feed.
pub fn read_line(alloc: Global, text: &str) -> May<LiteralLine, NotLiteral>
    ensures { Gives (line_of text.now) result }
{
    if text.is_empty() {
        return Ok(LiteralLine::Empty);
    }
    read_pieces(alloc, text)
}

/// Reads a directive, whose texts stand between the quotes.
fn read_pieces(alloc: Global, text: &str) -> May<LiteralLine, NotLiteral>
    ensures { Gives (line_of_pieces (pieces_of text.now)) result }
{
    let Some((front, rest)) = cut_at(text, '\"') else {
        return Err(Miss::Because(NotLiteral));
    };
    let Some((name, rest)) = cut_at(rest, '\"') else {
        return Err(Miss::Because(NotLiteral));
    };
    let Some((middle, rest)) = cut_at(rest, '\"') else {
        return Err(Miss::Because(NotLiteral));
    };
    let Some((version, tail)) = cut_at(rest, '\"') else {
        return Err(Miss::Because(NotLiteral));
    };
    let None = cut_at(tail, '\"') else {
        return Err(Miss::Because(NotLiteral));
    };
    if middle != ", version = " {
        return Err(Miss::Because(NotLiteral));
    }
    if tail != ")" {
        return Err(Miss::Because(NotLiteral));
    }
    read_directive(alloc, front, name, version)
}

fn read_directive(
    alloc: Global,
    front: &str,
    name: &str,
    version: &str,
) -> May<LiteralLine, NotLiteral>
    ensures { Gives (line_with front.now (key_of name.now version.now)) result }
{
    let key = read_key(alloc, name, version)?;
    if front == "module(name = " {
        return Ok(LiteralLine::Module(key));
    }
    if front == "bazel_dep(name = " {
        return Ok(LiteralLine::Dep(key));
    }
    Err(Miss::Because(NotLiteral))
}

/// The key of a module name and a version, neither of them empty.
fn read_key(alloc: Global, name: &str, version: &str) -> May<Key, NotLiteral>
    ensures { Gives (key_of name.now version.now) result }
{
    if !names_module(name) {
        return Err(Miss::Because(NotLiteral));
    }
    let version = match Version::parse(alloc, version) {
        Ok(version) => version.into_text(),
        Err(Miss::OutOfMemory) => return Err(Miss::OutOfMemory),
        Err(Miss::Because(_)) => return Err(Miss::Because(NotLiteral)),
    };
    if version.as_str().is_empty() {
        return Err(Miss::Because(NotLiteral));
    }
    let name = Txt::of(alloc, name)?;
    Ok(Key { name, version })
}

/// Whether the text is a module name.
fn names_module(text: &str) -> bool
    ensures { result ≡ is_module_name text.now }
{
    let bytes = text.as_bytes();
    begins_as_name(bytes) && ends_as_name(bytes)
}

fn begins_as_name(bytes: &[u8]) -> bool
    ensures { result ≡ begins_and_goes_on is_ascii_lowercase is_module_byte bytes.now }
{
    match bytes {
        [] => false,
        [first, ..] => is_letter(*first) && has_name_bytes(bytes),
    }
}

fn ends_as_name(bytes: &[u8]) -> bool
    ensures { result ≡ ends (λ b. is_ascii_lowercase b || is_ascii_digit b) bytes.now }
{
    match bytes.last() {
        None => false,
        Some(last) => may_end_name(*last),
    }
}

fn may_end_name(b: u8) -> bool
    ensures { result ≡ (is_ascii_lowercase b || is_ascii_digit b) }
{
    is_letter(b) || is_digit(b)
}

fn has_name_bytes(bytes: &[u8]) -> bool
    ensures { result ≡ list_all is_module_byte bytes.now }
{
    bytes.iter().all(|b| may_stand_in_name(*b))
}

fn may_stand_in_name(b: u8) -> bool
    ensures { result ≡ is_module_byte b }
{
    is_letter(b) || is_digit(b) || is_joint_byte(b)
}

fn is_joint_byte(b: u8) -> bool
    ensures { result ≡ is_joint b }
{
    b == b'_' || b == b'.' || b == b'-'
}

fn is_letter(b: u8) -> bool
    ensures { result ≡ is_ascii_lowercase b }
{
    b >= b'a' && b <= b'z'
}

fn is_digit(b: u8) -> bool
    ensures { result ≡ is_ascii_digit b }
{
    b >= b'0' && b <= b'9'
}
