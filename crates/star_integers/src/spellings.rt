//! Texts that spell integers.
ghost use Rattle.std.specs.Prelude.{◌≡◌};
ghost use Rattle.star_integers.specs.Spellings as spec;

use crate::digits::spelled;
use star_core::Fault;

/// The integer that a text spells in a base.
#[tactic(auto, unfolding(crate::specs::Spellings::integer_of))]
pub fn integer_of(text: &str, base: i64) -> Result<i64, Fault>
    ensures { result ≡ spec.integer_of text.now base }
{
    if is_base(base) {
        in_base(base.unsigned_abs(), text.as_bytes())
    } else {
        Err(Fault::Value)
    }
}

fn is_base(base: i64) -> bool
    ensures { result ≡ spec.is_base base }
{
    base == 0 || (1 < base && base < 37)
}

fn in_base(base: u64, text: &[u8]) -> Result<i64, Fault>
    ensures { result ≡ spec.in_base base text.now }
{
    match text {
        [] => Err(Fault::Value),
        [b'-', rest @ ..] => unsigned(true, base, rest),
        [b'+', rest @ ..] => unsigned(false, base, rest),
        [_, ..] => unsigned(false, base, text),
    }
}

#[tactic(auto, unfolding(crate::specs::Spellings::unsigned))]
fn unsigned(negative: bool, base: u64, text: &[u8]) -> Result<i64, Fault>
    ensures { result ≡ spec.unsigned negative base text.now }
{
    let [first, letter, digits @ ..] = text else {
        return unprefixed(negative, base, text);
    };
    let of_letter = base_of_letter(*letter);
    if is_prefix(base, *first, of_letter) {
        spelled(negative, of_letter, digits)
    } else {
        unprefixed(negative, base, text)
    }
}

/// The base of the letter of a prefix; 0 of another character.
#[tactic(auto, unfolding(crate::specs::Spellings::base_of_letter))]
fn base_of_letter(c: u8) -> u64
    ensures { result ≡ spec.base_of_letter c }
{
    match c {
        b'b' | b'B' => 2,
        b'o' | b'O' => 8,
        b'x' | b'X' => 16,
        _ => 0,
    }
}

fn is_prefix(base: u64, first: u8, of_letter: u64) -> bool
    ensures { result ≡ spec.is_prefix base first of_letter }
{
    first == b'0' && of_letter != 0 && (base == 0 || base == of_letter)
}

#[tactic(auto, unfolding(crate::specs::Spellings::unprefixed))]
fn unprefixed(negative: bool, base: u64, digits: &[u8]) -> Result<i64, Fault>
    ensures { result ≡ spec.unprefixed negative base digits.now }
{
    if base == 0 {
        decimal(negative, digits)
    } else {
        spelled(negative, base, digits)
    }
}

fn decimal(negative: bool, digits: &[u8]) -> Result<i64, Fault>
    ensures { result ≡ spec.decimal negative digits.now }
{
    match digits {
        [] => Err(Fault::Value),
        [b'0', _, ..] => Err(Fault::Value),
        [_, ..] => spelled(negative, 10, digits),
    }
}
