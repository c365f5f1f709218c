//! `abs` and `int`.
ghost use Rattle.std.specs.Prelude.{◌≡◌, option_copied};
ghost use Rattle.star_functions.specs.Answers as spec;

use star_calls::integer;
use star_core::{Fault, Heap, Val};
use star_integers::integer_of;
use star_library::text_of;
use star_numbers::integers::negated;
use star_operators::Outcome;
use star_operators::outcomes::number;

fn absolute(value: i64) -> Result<i64, Fault>
    ensures { result ≡ spec.absolute value }
{
    if value < 0 { negated(value) } else { Ok(value) }
}

/// The absolute value of a number.
pub(crate) fn absolute_came(value: Result<i64, Fault>) -> Result<Outcome, Fault>
    ensures { result ≡ spec.absolute_came value }
{
    match value {
        Ok(value) => number(absolute(value)),
        Err(reason) => Err(reason),
    }
}

fn base_of(value: Option<Val>) -> Result<i64, Fault>
    ensures { result ≡ spec.base_of value }
{
    match value {
        Some(value) => integer(value),
        None => Ok(10),
    }
}

fn spelled_came(text: &str, base: Result<i64, Fault>) -> Result<Outcome, Fault>
    ensures { result ≡ spec.spelled_came text.now base }
{
    match base {
        Ok(base) => number(integer_of(text, base)),
        Err(reason) => Err(reason),
    }
}

fn text_integer(text: Option<&str>, base: Option<Val>) -> Result<Outcome, Fault>
    ensures { result ≡ spec.text_integer (option_copied text.entry) base }
{
    match text {
        Some(text) => spelled_came(text, base_of(base)),
        None => Err(Fault::Kind),
    }
}

fn without_base(value: i64, base: Option<Val>) -> Result<Outcome, Fault>
    ensures { result ≡ spec.without_base value base }
{
    match base {
        None => Ok(Outcome::Known(Val::Int(value))),
        Some(_) => Err(Fault::Kind),
    }
}

fn number_of_flag(flag: bool) -> i64
    ensures { result ≡ spec.number_of_flag flag }
{
    if flag { 1 } else { 0 }
}

/// The integer of a string, a bool or an integer.
#[tactic(auto, unfolding(crate::specs::Answers::integer_came))]
pub(crate) fn integer_came(heap: &Heap, value: &Val, base: Option<Val>) -> Result<Outcome, Fault>
    ensures { result ≡ spec.integer_came heap.now value.now base }
{
    match value {
        Val::None => Err(Fault::Kind),
        Val::Bool(flag) => without_base(number_of_flag(*flag), base),
        Val::Int(known) => without_base(*known, base),
        Val::Cell(_) => text_integer(text_of(heap, value), base),
    }
}
