//! The operators on integers.
ghost use Rattle.std.specs.Prelude.{◌≡◌, ◌≢◌, ◌+◌, ◌<◌, ◌≤◌, ◌+ℤ◌, ◌*ℤ◌, ◌^◌, neg_ℤ, pos};
ghost use Rattle.std.specs.Prelude.{unsigned_abs};
ghost use Rattle.star_numbers.specs.Integers as spec;
ghost use Rattle.star_numbers.specs.Integers.{fitted, floored};

use star_core::Fault;

#[tactic(auto, using(crate::proofs::Fits::fitted_checked))]
pub fn sum(left: i64, right: i64) -> Result<i64, Fault>
    ensures { result ≡ spec.sum left right }
{
    left.checked_add(right).ok_or(Fault::Overflow)
}

#[tactic(auto, using(crate::proofs::Fits::fitted_checked))]
pub fn difference(left: i64, right: i64) -> Result<i64, Fault>
    ensures { result ≡ spec.difference left right }
{
    left.checked_sub(right).ok_or(Fault::Overflow)
}

#[tactic(auto, using(crate::proofs::Fits::fitted_checked))]
pub fn product(left: i64, right: i64) -> Result<i64, Fault>
    ensures { result ≡ spec.product left right }
{
    left.checked_mul(right).ok_or(Fault::Overflow)
}

#[tactic(auto, using(crate::proofs::Fits::fitted_checked))]
pub fn negated(number: i64) -> Result<i64, Fault>
    ensures { result ≡ spec.negated number }
{
    number.checked_neg().ok_or(Fault::Overflow)
}

/// Each bit turned.
#[tactic(auto, using(crate::proofs::Fits::fitted_checked))]
pub fn inverted(number: i64) -> Result<i64, Fault>
    ensures { result ≡ spec.inverted number }
{
    (-1i64).checked_sub(number).ok_or(Fault::Overflow)
}

/// The quotient, rounded down.
pub fn quotient(number: i64, divisor: i64) -> Result<i64, Fault>
    ensures { result ≡ spec.quotient number divisor }
{
    if divisor == 0 {
        return Err(Fault::Zero);
    }
    floored(number, divisor)
}

/// The remainder, which has the divisor's sign.
pub fn remainder(number: i64, divisor: i64) -> Result<i64, Fault>
    ensures { result ≡ spec.remainder number divisor }
{
    if divisor == 0 {
        return Err(Fault::Zero);
    }
    left_over(number, divisor)
}

fn floored(number: i64, divisor: i64) -> Result<i64, Fault>
    requires { divisor ≢ pos 0 }
    ensures { result ≡ fitted (spec.floored number divisor) }
{
    if divisor < 0 {
        return narrowed(turned(number).div_euclid(turned(divisor)));
    }
    Ok(number.div_euclid(divisor))
}

fn left_over(number: i64, divisor: i64) -> Result<i64, Fault>
    requires { divisor ≢ pos 0 }
    ensures { result ≡ fitted (spec.left_over number divisor) }
{
    if divisor < 0 {
        return narrowed(-turned(number).rem_euclid(turned(divisor)));
    }
    Ok(number.rem_euclid(divisor))
}

/// A number with its sign turned.
fn turned(number: i64) -> i128
    ensures { result ≡ neg_ℤ number }
{
    -i128::from(number)
}

/// A number of 128 bits, where it has 64.
pub fn narrowed(number: i128) -> Result<i64, Fault>
    ensures { result ≡ fitted number }
{
    match i64::try_from(number) {
        Ok(narrow) => Ok(narrow),
        Err(_) => Err(Fault::Overflow),
    }
}

/// Times a power of two.
pub fn shifted_left(number: i64, by: i64) -> Result<i64, Fault>
    ensures { result ≡ spec.shifted_left number by }
{
    if by < 0 {
        return Err(Fault::Value);
    }
    if number == 0 {
        return Ok(0);
    }
    if by < 64 {
        times_power(number, by as u32)
    } else {
        Err(Fault::Overflow)
    }
}

/// Divided by a power of two, rounded down.
pub fn shifted_right(number: i64, by: i64) -> Result<i64, Fault>
    ensures { result ≡ spec.shifted_right number by }
{
    if by < 0 {
        return Err(Fault::Value);
    }
    if number == 0 {
        return Ok(0);
    }
    if by < 64 {
        Ok(by_power(number, by as u32))
    } else {
        Err(Fault::Overflow)
    }
}

fn times_power(number: i64, count: u32) -> Result<i64, Fault>
    requires { count < 64 }
    ensures { result ≡ fitted (number *ℤ pos (2 ^ count)) }
{
    match i128::from(number).checked_mul(2i128.pow(count)) {
        Some(wide) => narrowed(wide),
        None => Err(Fault::Overflow),
    }
}

fn by_power(number: i64, count: u32) -> i64
    requires { count < 64 }
    ensures { result ≡ floored number (pos (2 ^ count)) }
{
    number >> count
}

/// The number so many steps behind the first.
pub fn steps_behind(first: i64, step: i64, count: u64) -> Result<i64, Fault>
    ensures { result ≡ fitted (first +ℤ pos count *ℤ step) }
{
    narrowed(i128::from(first) + all_steps(step, count))
}

fn all_steps(step: i64, count: u64) -> i128
    ensures value { result ≡ pos count *ℤ step }
    ensures bound { unsigned_abs result + 2 ^ 63 ≤ 2 ^ 127 }
{
    i128::from(count) * i128::from(step)
}

/// The bits of both.
pub fn bits_of_both(left: i64, right: i64) -> i64
    ensures { result ≡ spec.bits_of_both left right }
{
    left & right
}

/// The bits of either.
pub fn bits_of_either(left: i64, right: i64) -> i64
    ensures { result ≡ spec.bits_of_either left right }
{
    left | right
}

/// The bits of one alone.
pub fn bits_of_one(left: i64, right: i64) -> i64
    ensures { result ≡ spec.bits_of_one left right }
{
    left ^ right
}
