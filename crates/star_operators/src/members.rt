//! Membership.
ghost use Rattle.std.specs.Prelude.{◌≡◌, ◌<◌, ◌/◌, ◌%◌, ◌==◌, ◌&&◌, ◌||◌, [], nat_lt};
ghost use Rattle.std.specs.Prelude.{option_copied};
ghost use Rattle.std.specs.Ordering.{int_eq};
ghost use Rattle.bz_text.specs.Answers.{Gives};
ghost use Rattle.star_core.specs.Contents.{key_content, text_in};
ghost use Rattle.star_core.specs.Heaps.{cell_at};
ghost use Rattle.star_library.specs.Ranges as ranges;
ghost use Rattle.star_operators.specs.Members as spec;
ghost use Rattle.star_operators.specs.Members.{is_found};
ghost use Rattle.star_order.specs.Equality as equality;
ghost use Rattle.star_order.specs.Keys.{pair_found};

use bz_text::{May, Miss};
use star_core::{Cell, Dict, Fault, Heap, Val};
use star_library::{range_length, text_of};
use star_order::{equal, find};
use std::alloc::Global;

/// Whether a value is in a container.
#[tactic(auto, unfolding(crate::specs::Members::among))]
pub(crate) fn among(
    alloc: Global,
    heap: &Heap,
    value: &Val,
    held: Option<&Cell>,
) -> May<bool, Fault>
    ensures { Gives (spec.among heap.now value.now (option_copied held.entry)) result }
{
    match held {
        Some(Cell::Text(text)) => is_part(text_of(heap, value), text.as_str()),
        Some(Cell::List(items)) => is_item(heap, value, items.items()),
        Some(Cell::Tuple(items)) => is_item(heap, value, items.items()),
        Some(Cell::Dict(dict)) => is_key(alloc, heap, value, dict),
        Some(Cell::Range { first, stop, step }) => { Ok(is_number_of(*first, *stop, *step, value)) }
        _ => Err(Miss::Because(Fault::Kind)),
    }
}

fn is_part(part: Option<&str>, text: &str) -> May<bool, Fault>
    ensures { Gives (spec.is_part (option_copied part.entry) text.now) result }
{
    match part {
        Some(part) => Ok(has_part(part.as_bytes(), text.as_bytes())),
        None => Err(Miss::Because(Fault::Kind)),
    }
}

fn has_part(part: &[u8], text: &[u8]) -> bool
    ensures { result ≡ spec.has_part part.now text.now }
{
    let mut rest = text;
    'looking: while let [_, more @ ..] = rest {
        if begins_with(part, rest) {
            return true;
        }
        rest = more;
    }
    is_empty(part)
}

/// Whether a text stands at the head of the empty one.
fn is_empty(part: &[u8]) -> bool
    ensures { result ≡ spec.begins_with part.now [] }
{
    match part {
        [] => true,
        [_, ..] => false,
    }
}

fn begins_with(part: &[u8], text: &[u8]) -> bool
    ensures { result ≡ spec.begins_with part.now text.now }
{
    let mut rest = text;
    'comparing: for byte in part {
        let [first, more @ ..] = rest else {
            return false;
        };
        if *byte != *first {
            return false;
        }
        rest = more;
    }
    true
}

fn is_item(heap: &Heap, value: &Val, items: &[Val]) -> May<bool, Fault>
    ensures { Gives (spec.is_item (equality.equal heap.now) value.now items.now) result }
{
    'looking: for item in items {
        match equal(heap, item, value) {
            Ok(true) => return Ok(true),
            Ok(false) => {}
            Err(reason) => return Err(Miss::Because(reason)),
        }
    }
    Ok(false)
}

fn is_key(alloc: Global, heap: &Heap, key: &Val, dict: &Dict) -> May<bool, Fault>
    ensures { Gives (is_found (pair_found (key_content heap.now key.now) dict.now)) result }
{
    match find(alloc, heap, dict, key) {
        Ok(Some(_)) => Ok(true),
        Ok(None) => Ok(false),
        Err(miss) => Err(miss),
    }
}

fn is_number_of(first: i64, stop: i64, step: i64, value: &Val) -> bool
    ensures { result ≡ spec.is_number_of first stop step value.now }
{
    match *value {
        Val::Int(number) => in_range(first, stop, step, number),
        _ => false,
    }
}

#[tactic(auto, unfolding(crate::specs::Members::in_range))]
fn in_range(first: i64, stop: i64, step: i64, number: i64) -> bool
    ensures { result ≡ spec.in_range first stop step number }
{
    if step == 0 {
        return false;
    }
    if !is_ahead(first, number, step) {
        return false;
    }
    let count = range_length(first, stop, step);
    is_whole(number.abs_diff(first), step.unsigned_abs(), count)
}

/// Whether a number is the first, or steps lead to it.
fn is_ahead(first: i64, number: i64, step: i64) -> bool
    ensures { result ≡ (int_eq first number || ranges.leads_on first number step) }
{
    if first == number {
        return true;
    }
    leads_on(first, number, step)
}

/// Whether a distance is a whole number of steps, and these are fewer than so many.
fn is_whole(distance: u64, size: u64, count: u64) -> bool
    requires { 0 < size }
    ensures { result ≡ ((distance % size == 0) && nat_lt (distance / size) count) }
{
    if distance % size != 0 {
        return false;
    }
    distance / size < count
}

/// Whether steps lead from the first number towards the other one.
fn leads_on(first: i64, other: i64, step: i64) -> bool
    ensures { result ≡ ranges.leads_on first other step }
{
    (0 < step && first < other) || (step < 0 && other < first)
}
