//! Laws of quotients and remainders.
ghost use Rattle.std.specs.Prelude.{◌≡◌, ◌≢◌, ◌+ℤ◌, ◌*ℤ◌, ℤ, pos};
ghost use Rattle.star_numbers.specs.Integers.{floored, left_over};
ghost use Rattle.star_number_laws.specs.Remainders.{IsRemainder};

/// Quotient times divisor plus remainder is the number.
pub fn division_is_whole()
    ensures { (number divisor : ℤ)
        → divisor ≢ pos 0
        → floored number divisor *ℤ divisor +ℤ left_over number divisor ≡ number }
{}

/// A remainder is 0 or has the divisor's sign, and is smaller.
pub fn remainder_is_small()
    ensures { (number divisor : ℤ)
        → divisor ≢ pos 0
        → IsRemainder divisor (left_over number divisor) }
{}
