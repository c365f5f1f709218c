//! Where a value stands in a list.
ghost use Rattle.std.specs.Prelude.{◌≡◌, ◌≤◌, IfOk, drop, length, option_copied, take};
ghost use Rattle.bz_text.specs.Answers.{Gives};
ghost use Rattle.star_calls.specs.Values.{result_then};
ghost use Rattle.star_lists.specs.Rows as rows;
ghost use Rattle.star_lists.specs.Searching as spec;
ghost use Rattle.star_lists.specs.Searching.{first_equal, list_in};
ghost use Rattle.star_order.specs.Equality as equality;

use bz_text::{May, Miss};
use star_calls::{given_at, integer, needed_at};
use star_core::{Cell, Fault, Heap, Val};
use star_order::equal;

/// The index of the first item that is equal to a value.
#[tactic(auto, using(crate::proofs::Positions::shifted_on))]
fn position(heap: &Heap, value: &Val, items: &[Val]) -> Result<usize, Fault>
    ensures { result ≡ first_equal (equality.equal heap.now) value.now items.now }
{
    let mut index = 0;
    'looking: for item in items {
        match equal(heap, item, value) {
            Ok(true) => return Ok(index),
            Ok(false) => index += 1,
            Err(reason) => return Err(reason),
        }
    }
    Err(Fault::Value)
}

/// An index of a list that is so long.
pub(crate) fn index_within(index: i64, long: usize) -> usize
    ensures value { result ≡ spec.index_within index long }
    ensures within { result ≤ long }
{
    match usize::try_from(index) {
        Ok(index) => index.min(long),
        Err(_) => long.saturating_sub(index.unsigned_abs() as usize),
    }
}

fn bound_of(long: usize, default: usize, value: Option<Val>) -> Result<usize, Fault>
    ensures { result ≡ spec.bound_of long default value }
{
    match value {
        None => Ok(default),
        Some(value) => within(integer(value), long),
    }
}

fn within(index: Result<i64, Fault>, long: usize) -> Result<usize, Fault>
    ensures { result ≡ spec.bounded index long }
{
    match index {
        Ok(index) => Ok(index_within(index, long)),
        Err(reason) => Err(reason),
    }
}

fn front(end: usize, items: &[Val]) -> &[Val]
    ensures { result.now ≡ take end items.now }
{
    if end <= items.len() {
        items.split_at(end).0
    } else {
        items
    }
}

fn behind(start: usize, items: &[Val]) -> &[Val]
    ensures { result.now ≡ drop start items.now }
{
    if start <= items.len() {
        items.split_at(start).1
    } else {
        &[]
    }
}

/// The indexes from which and up to which a value is sought.
#[tactic(auto, unfolding(crate::specs::Searching::bounds_of))]
fn bounds_of(long: usize, values: &[Option<Val>]) -> Result<(usize, usize), Fault>
    ensures { result ≡ spec.bounds_of long values.now }
{
    let start = bound_of(long, 0, given_at(1, values))?;
    let end = bound_of(long, long, given_at(2, values))?;
    Ok((start, end))
}

fn found_between(
    heap: &Heap,
    value: &Val,
    items: &[Val],
    bounds: (usize, usize),
) -> May<usize, Fault>
    ensures { Gives (spec.found_between heap.now value.now items.now bounds) result }
{
    match position(heap, value, behind(bounds.0, front(bounds.1, items))) {
        Ok(index) => shifted(bounds.0, index),
        Err(reason) => Err(Miss::Because(reason)),
    }
}

/// An index behind others. No list is so long that the sum is too large.
fn shifted(start: usize, index: usize) -> May<usize, Fault>
    ensures { Gives (spec.shifted start (Ok index)) result }
{
    match start.checked_add(index) {
        Some(all) => Ok(all),
        None => Err(Miss::OutOfMemory),
    }
}

/// The index of the first argument between the other two.
#[tactic(auto, unfolding(crate::specs::Searching::index_among))]
fn index_among(heap: &Heap, values: &[Option<Val>], items: &[Val]) -> May<usize, Fault>
    ensures { Gives (spec.index_among heap.now values.now items.now) result }
{
    match bounds_of(items.len(), values) {
        Ok(bounds) => found_between(heap, &needed_at(0, values), items, bounds),
        Err(reason) => Err(Miss::Because(reason)),
    }
}

#[tactic(auto, unfolding(crate::specs::Searching::list_in))]
fn index_in(heap: &Heap, cell: Option<&Cell>, values: &[Option<Val>]) -> May<usize, Fault>
    ensures { Gives (result_then (list_in (option_copied cell.entry))
        (spec.index_among heap.now values.now)) result }
{
    match cell {
        Some(Cell::List(items)) => index_among(heap, values, items.items()),
        _ => Err(Miss::Because(Fault::Kind)),
    }
}

/// The answer of `index`.
pub(crate) fn index_answer(heap: &Heap, list: &Val, values: &[Option<Val>]) -> May<Val, Fault>
    ensures { Gives (rows.index_answer heap.now list.now values.now) result }
{
    index_value(index_in(heap, heap.cell(list), values)?)
}

fn index_value(index: usize) -> May<Val, Fault>
    ensures { Gives (rows.index_value index) result }
{
    match i64::try_from(index) {
        Ok(index) => Ok(Val::Int(index)),
        Err(_) => Err(Miss::OutOfMemory),
    }
}

#[tactic(auto, unfolding(crate::specs::Searching::list_in))]
fn place_in_cell(heap: &Heap, cell: Option<&Cell>, value: &Val) -> Result<usize, Fault>
    ensures { result ≡ result_then (list_in (option_copied cell.entry))
        (first_equal (equality.equal heap.now) value.now) }
{
    match cell {
        Some(Cell::List(items)) => position(heap, value, items.items()),
        _ => Err(Fault::Kind),
    }
}

/// The index of a list's first item that is equal to a value.
pub(crate) fn place_in(heap: &Heap, list: &Val, value: &Val) -> Result<usize, Fault>
    ensures { result ≡ spec.place_in heap.now list.now value.now }
{
    place_in_cell(heap, heap.cell(list), value)
}
