//! Bytes by what they begin.
ghost use Rattle.std.specs.Prelude.{◌≡◌, slice_index};
ghost use Rattle.star_lex.specs.Bytes.{class_of, is_visible, line_end};

/// The class of a byte by what it begins.
#[derive(Clone, Copy, Debug, PartialEq, Eq)]
pub enum Class {
    Space,
    Letter,
    Digit,
    Quote,
    Hash,
    Backslash,
    Feed,
    Other,
}

pub(crate) fn class_of(byte: u8) -> Class
    ensures { result ≡ class_of byte }
{
    if byte == b' ' || byte == b'\t' {
        Class::Space
    } else if byte.is_ascii_alphabetic() || byte == b'_' {
        Class::Letter
    } else if byte.is_ascii_digit() {
        Class::Digit
    } else if byte == b'"' || byte == b'\'' {
        Class::Quote
    } else if byte == b'#' {
        Class::Hash
    } else if byte == b'\\' {
        Class::Backslash
    } else if byte == b'\n' || byte == b'\r' {
        Class::Feed
    } else {
        Class::Other
    }
}

pub(crate) fn is_visible(byte: u8) -> bool
    ensures { result ≡ is_visible byte }
{
    !(byte == 0 || byte == b'\r')
}

/// The byte at a place, or 0 behind the end.
pub(crate) fn byte_at(text: &[u8], place: usize) -> u8
    ensures { result ≡ slice_index text.now place }
{
    if place < text.len() { text[place] } else { 0 }
}

/// How long the line end at the front is.
pub(crate) fn line_end(text: &[u8]) -> Option<usize>
    ensures { result ≡ line_end text.now }
{
    if byte_at(text, 0) == b'\n' {
        Some(1)
    } else if byte_at(text, 0) == b'\r' && byte_at(text, 1) == b'\n' {
        Some(2)
    } else {
        None
    }
}
