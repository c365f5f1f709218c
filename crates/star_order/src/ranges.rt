//! Ranges as sequences of numbers.
ghost use Rattle.std.specs.Prelude.{◌≡◌};
ghost use Rattle.std.specs.Ordering.{int_eq};
ghost use Rattle.star_order.specs.Ranges as spec;

use star_library::range_length;

/// Whether two ranges have the same numbers.
pub(crate) fn same_range(
    first: i64,
    stop: i64,
    step: i64,
    other_first: i64,
    other_stop: i64,
    other_step: i64,
) -> bool
    ensures { result ≡ spec.same_range first stop step other_first other_stop other_step }
{
    let count = range_length(first, stop, step);
    let other_count = range_length(other_first, other_stop, other_step);
    same_counted(count, other_count, first, step, other_first, other_step)
}

/// Whether sequences of so many numbers and of so many are one.
fn same_counted(
    count: u64,
    other_count: u64,
    first: i64,
    step: i64,
    other_first: i64,
    other_step: i64,
) -> bool
    ensures { result ≡ spec.same_counted count other_count first step other_first other_step }
{
    if count != other_count {
        return false;
    }
    same_steps(count, first, step, other_first, other_step)
}

/// Whether two sequences of so many numbers are one.
fn same_steps(count: u64, first: i64, step: i64, other_first: i64, other_step: i64) -> bool
    ensures { result ≡ spec.same_steps count first step other_first other_step }
{
    if count == 0 {
        return true;
    }
    if count == 1 {
        return same_number(first, other_first);
    }
    same_number(first, other_first) && same_number(step, other_step)
}

/// Whether two integers are one.
pub(crate) fn same_number(number: i64, other: i64) -> bool
    ensures { result ≡ int_eq number other }
{
    number == other
}
