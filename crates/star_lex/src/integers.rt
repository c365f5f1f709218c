//! Integers.
ghost use Rattle.std.specs.Prelude.{◌≡◌, ◌≤◌, ◌<◌, ◌+◌, ◌*◌, drop, IfSome, IfNone};
ghost use Rattle.star_lex.specs.Integers.{begins_fraction, digit, has_leading_zero, integer_of};
ghost use Rattle.star_lex.specs.Integers.{is_hexadecimal, is_octal, last_integer, number};

use crate::bytes::byte_at;

const LAST_INTEGER: u64 = 9223372036854775807;

/// What a digit counts, or 36.
fn digit(byte: u8) -> u64
    ensures exact { result ≡ digit byte }
    ensures small { result ≤ 36 }
{
    if b'0' <= byte && byte <= b'9' {
        u64::from(byte - b'0')
    } else if b'a' <= byte && byte <= b'z' {
        u64::from(byte - 87)
    } else if b'A' <= byte && byte <= b'Z' {
        u64::from(byte - 55)
    } else {
        36
    }
}

/// The number with one more digit, or nothing where it is too large for any integer.
fn with_digit(base: u64, value: u64, digit: u64) -> Option<u64>
    ensures fits { IfSome result (λ next. next ≡ value * base + digit) }
    ensures large { IfNone result (last_integer < value * base + digit) }
{
    match value.checked_mul(base) {
        None => None,
        Some(product) => product.checked_add(digit),
    }
}

/// One or more digits, as a number.
#[tactic(auto, using(crate::proofs::Numbers::number_none))]
pub(crate) fn number(base: u64, digits: &[u8]) -> Option<u64>
    requires { 0 < base }
    ensures exact { result ≡ number base digits.now }
    ensures small { IfSome result (λ value. value ≤ last_integer) }
{
    if digits.len() == 0 {
        return None;
    }
    let mut value: u64 = 0;
    'digits: for byte in digits {
        let digit = digit(*byte);
        if digit >= base {
            return None;
        }
        match with_digit(base, value, digit) {
            None => return None,
            Some(next) => value = next,
        }
    }
    if value <= LAST_INTEGER {
        Some(value)
    } else {
        None
    }
}

fn is_hexadecimal(word: &[u8]) -> bool
    ensures { result ≡ is_hexadecimal word.now }
{
    byte_at(word, 0) == b'0' && (byte_at(word, 1) == b'x' || byte_at(word, 1) == b'X')
}

fn is_octal(word: &[u8]) -> bool
    ensures { result ≡ is_octal word.now }
{
    byte_at(word, 0) == b'0' && (byte_at(word, 1) == b'o' || byte_at(word, 1) == b'O')
}

fn has_leading_zero(word: &[u8]) -> bool
    ensures { result ≡ has_leading_zero word.now }
{
    byte_at(word, 0) == b'0' && !(word.len() == 1)
}

/// What stands behind the first two bytes.
fn behind_prefix(word: &[u8]) -> &[u8]
    ensures { result.now ≡ drop 2 word.now }
{
    if word.len() < 2 {
        &[]
    } else {
        word.split_at(2).1
    }
}

/// The value of an integer.
#[tactic(auto, unfolding(crate::specs::Integers::integer_of))]
pub(crate) fn integer_of(word: &[u8]) -> Option<u64>
    ensures exact { result ≡ integer_of word.now }
    ensures small { IfSome result (λ value. value ≤ last_integer) }
{
    if is_hexadecimal(word) {
        number(16, behind_prefix(word))
    } else if is_octal(word) {
        number(8, behind_prefix(word))
    } else if has_leading_zero(word) {
        None
    } else {
        number(10, word)
    }
}

pub(crate) fn begins_fraction(text: &[u8]) -> bool
    ensures { result ≡ begins_fraction text.now }
{
    byte_at(text, 0) == b'.' && byte_at(text, 1).is_ascii_digit()
}
