//! Ranges as numbers.
ghost use Rattle.std.specs.Prelude.{◌≡◌, ◌<◌, [], ◌∷◌, IfNone, IfOk, IfSome, map, suc};
ghost use Rattle.star_core.specs.declared.values.Val.TheVariants.{Int};
ghost use Rattle.star_library.specs.Ranges as spec;
ghost use Rattle.star_library.specs.Ranges.{range_items};

use bz_text::{Mem, Seq};
use star_core::Val;
use std::alloc::Global;

fn leads_on(first: i64, stop: i64, step: i64) -> bool
    ensures { result ≡ spec.leads_on first stop step }
{
    (0 < step && first < stop) || (step < 0 && stop < first)
}

/// How many numbers a range has.
pub fn range_length(first: i64, stop: i64, step: i64) -> u64
    ensures { result ≡ spec.range_length first stop step }
{
    if leads_on(first, stop, step) {
        stop.abs_diff(first).div_ceil(step.unsigned_abs())
    } else {
        0
    }
}

/// The number behind one of a range, where it has 64 bits; None where that one is the last.
fn step_ahead(number: i64, stop: i64, step: i64) -> Option<i64>
    requires { 0 < spec.range_length number stop step }
    ensures items { IfSome result (λ next. range_items number stop step
        ≡ number ∷ range_items next stop step) }
    ensures fewer { IfSome result (λ next. spec.range_length number stop step
        ≡ suc (spec.range_length next stop step)) }
    ensures last { IfNone result (range_items number stop step ≡ number ∷ []) }
{
    number.checked_add(step)
}

/// The numbers of a range as values.
pub fn range_values(alloc: Global, first: i64, stop: i64, step: i64) -> Mem<Seq<Val>>
    ensures { IfOk result (λ values. values ≡ map Int (range_items first stop step)) }
{
    let mut values = Vec::new(alloc);
    let mut number = first;
    'stepping: for _turn in 0..range_length(first, stop, step) {
        values.push(Val::Int(number))?;
        let Some(next) = step_ahead(number, stop, step) else {
            return Ok(Seq::of_vec(values));
        };
        number = next;
    }
    Ok(Seq::of_vec(values))
}
