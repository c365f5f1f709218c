//! Digits of a base, and what they are worth.
ghost use Rattle.std.specs.Prelude.{◌≡◌, ◌+◌, ◌*◌, ◌<◌, ◌≤◌, ◌^◌, IfNone, IfSome, pos};
ghost use Rattle.std.specs.Char.{digit_value, is_digit};
ghost use Rattle.star_integers.specs.Spellings as spec;
ghost use Rattle.star_integers.specs.Spellings.{number_behind};
ghost use Rattle.star_numbers.specs.Integers.{fitted};

use star_core::Fault;
use star_numbers::integers::narrowed;

/// The number that digits spell, with its sign.
#[tactic(auto, unfolding(crate::specs::Spellings::spelled))]
pub(crate) fn spelled(negative: bool, base: u64, digits: &[u8]) -> Result<i64, Fault>
    requires { 0 < base }
    ensures { result ≡ spec.spelled negative base digits.now }
{
    if are_digits(base, digits) {
        signed_number(negative, base, digits)
    } else {
        Err(Fault::Value)
    }
}

fn are_digits(base: u64, digits: &[u8]) -> bool
    ensures { result ≡ spec.are_digits base digits.now }
{
    match digits {
        [] => false,
        [_, ..] => all_digits(base, digits),
    }
}

fn all_digits(base: u64, digits: &[u8]) -> bool
    ensures { result ≡ spec.all_digits base digits.now }
{
    'looking: for c in digits {
        if !is_digit(*c, base) {
            return false;
        }
    }
    true
}

fn is_digit(c: u8, base: u64) -> bool
    ensures { result ≡ is_digit c base }
{
    digit_worth(c) < base
}

/// What a digit is worth; 36 where a character is none.
fn digit_worth(c: u8) -> u64
    ensures value { result ≡ digit_value c }
{
    match char::from(c).to_digit(36) {
        Some(worth) => u64::from(worth),
        None => 36,
    }
}

fn signed_number(negative: bool, base: u64, digits: &[u8]) -> Result<i64, Fault>
    requires { 0 < base }
    ensures { result ≡ fitted (spec.signed negative (number_behind base 0 digits.now)) }
{
    match number_of(base, digits) {
        Some(number) => with_sign(negative, number),
        None => Err(Fault::Overflow),
    }
}

fn with_sign(negative: bool, number: u64) -> Result<i64, Fault>
    ensures { result ≡ fitted (spec.signed negative number) }
{
    if negative {
        narrowed(-i128::from(number))
    } else {
        narrowed(i128::from(number))
    }
}

/// The number that digits spell; None where it has more than 64 bits.
fn number_of(base: u64, digits: &[u8]) -> Option<u64>
    requires { 0 < base }
    ensures fits { IfSome result (λ number. number ≡ number_behind base 0 digits.now) }
    ensures large { IfNone result (2 ^ 64 ≤ number_behind base 0 digits.now) }
{
    let mut number = 0u64;
    'reading: for c in digits {
        match with_digit(base, number, *c) {
            Some(next) => number = next,
            None => return None,
        }
    }
    Some(number)
}

/// A number with one more digit; None where it has more than 64 bits.
fn with_digit(base: u64, number: u64, c: u8) -> Option<u64>
    ensures fits { IfSome result (λ next. next ≡ number * base + digit_value c) }
    ensures large { IfNone result (2 ^ 64 ≤ number * base + digit_value c) }
{
    number.checked_mul(base)?.checked_add(digit_worth(c))
}
