//! Slices.
ghost use Rattle.std.specs.Prelude.{◌≡◌, ◌++◌, ◌+ℤ◌, ◌*ℤ◌, IfOk, OnOk, map, option_copied};
ghost use Rattle.std.specs.Option.{option_to_list};
ghost use Rattle.std.specs.Str.{chars, encode_utf8_all};
ghost use Rattle.bz_text.specs.Answers.{Gives};
ghost use Rattle.star_core.specs.declared.values.Val.TheVariants.{Int};
ghost use Rattle.star_library.specs.Calls.{Builds};
ghost use Rattle.star_library.specs.Ranges.{range_items};
ghost use Rattle.star_numbers.specs.Integers.{fitted};
ghost use Rattle.star_containers.specs.Slicing as spec;
ghost use Rattle.star_containers.specs.Slicing.{bounds_of, slice_by, slice_of, sliced_items};

use bz_text::{May, Mem, Miss, OutOfMemory, Seq, Txt};
use star_core::{Cell, Fault, Heap, Val};
use star_library::{range_length, range_values};
use star_numbers::integers::{narrowed, product};
use star_operators::indexing::characters_of;
use star_operators::outcomes::{Outcome, finish};
use std::alloc::Global;

/// Begin, end and step of a slice.
#[derive(Clone, Copy)]
pub struct Bounds {
    pub begin: Option<i64>,
    pub end: Option<i64>,
    pub step: i64,
}

/// The slice of a value.
pub fn slice(
    heap: &mut Heap,
    container: &Val,
    begin: Option<Val>,
    end: Option<Val>,
    step: Option<Val>,
) -> May<Val, Fault>
    ensures { Builds (slice_of container.now begin end step heap.old) result heap.new }
{
    match slice_came(heap.alloc(), heap.cell(container), begin, end, step) {
        Ok(outcome) => finish(heap, outcome),
        Err(miss) => Err(miss),
    }
}

fn slice_came(
    alloc: Global,
    held: Option<&Cell>,
    begin: Option<Val>,
    end: Option<Val>,
    step: Option<Val>,
) -> May<Outcome, Fault>
    ensures { Gives (slice_by (option_copied held.entry) (bounds_of begin end step)) result }
{
    match bounds_of(begin, end, step) {
        Ok(bounds) => sliced(alloc, held, &bounds),
        Err(reason) => Err(Miss::Because(reason)),
    }
}

fn bounds_of(begin: Option<Val>, end: Option<Val>, step: Option<Val>) -> Result<Bounds, Fault>
    ensures { result ≡ spec.bounds_of begin end step }
{
    let begin = bound_of(begin)?;
    let end = bound_of(end)?;
    let step = bound_of(step)?.unwrap_or(1);
    if step == 0 {
        return Err(Fault::Zero);
    }
    Ok(Bounds { begin, end, step })
}

/// A bound that is given as an integer, or not at all.
fn bound_of(bound: Option<Val>) -> Result<Option<i64>, Fault>
    ensures { result ≡ spec.bound_of bound }
{
    match bound {
        None | Some(Val::None) => Ok(None),
        Some(Val::Int(number)) => Ok(Some(number)),
        _ => Err(Fault::Kind),
    }
}

#[tactic(auto, unfolding(crate::specs::Slicing::sliced))]
fn sliced(alloc: Global, held: Option<&Cell>, bounds: &Bounds) -> May<Outcome, Fault>
    ensures { Gives (spec.sliced (option_copied held.entry) bounds.now) result }
{
    match held {
        Some(Cell::Text(text)) => {
            Ok(Outcome::New(Cell::Text(sliced_text(alloc, text.as_str(), bounds)?)))
        }
        Some(Cell::List(items)) => {
            Ok(Outcome::New(Cell::List(sliced_values(alloc, items.items(), bounds)?)))
        }
        Some(Cell::Tuple(items)) => {
            Ok(Outcome::New(Cell::Tuple(sliced_values(alloc, items.items(), bounds)?)))
        }
        Some(Cell::Range { first, stop, step }) => {
            counted_range(range_length(*first, *stop, *step), *first, *step, bounds)
        }
        _ => Err(Miss::Because(Fault::Kind)),
    }
}

fn sliced_text(alloc: Global, text: &str, bounds: &Bounds) -> Mem<Txt>
    ensures { IfOk result (λ slice. slice
        ≡ encode_utf8_all (sliced_items (chars text.now) bounds.now)) }
{
    let characters = characters_of(alloc, text)?;
    let slice = sliced_vec(alloc, characters.as_slice(), bounds)?;
    encoded(alloc, slice.as_slice())
}

/// The text of characters.
fn encoded(alloc: Global, characters: &[char]) -> Mem<Txt>
    ensures { IfOk result (λ text. text ≡ encode_utf8_all characters.now) }
{
    let whole: String = characters.iter().copied().collect(alloc)?;
    Ok(Txt::of_string(whole))
}

fn sliced_values(alloc: Global, items: &[Val], bounds: &Bounds) -> Mem<Seq<Val>>
    ensures { IfOk result (λ slice. slice ≡ sliced_items items.now bounds.now) }
{
    Ok(Seq::of_vec(sliced_vec(alloc, items, bounds)?))
}

/// The items of a slice, in the order of its indexes.
fn sliced_vec<T: Copy + Drop>(alloc: Global, items: &[T], bounds: &Bounds) -> Mem<Vec<T>>
    ensures { IfOk result (λ slice. slice.items ≡ sliced_items items.now bounds.now) }
{
    let indexes = indexes_of(alloc, bounds, items.len() as u64)?;
    let slice = items_at(alloc, items, indexes.items())?;
    Ok(slice)
}

/// The indexes of a slice of so many items.
fn indexes_of(alloc: Global, bounds: &Bounds, count: u64) -> Mem<Seq<Val>>
    ensures { IfOk result (λ indexes. indexes ≡ map Int (range_items
        (spec.slice_first bounds.now count) (spec.slice_stop bounds.now count) bounds.now.step)) }
{
    let step = bounds.step;
    let first = small(slice_first(bounds, count))?;
    let stop = small(slice_stop(bounds, count))?;
    range_values(alloc, first, stop, step)
}

/// A number that has 64 bits where there is memory for so many items.
fn small(number: i128) -> Mem<i64>
    ensures { IfOk result (λ small. small ≡ number) }
{
    match i64::try_from(number) {
        Ok(small) => Ok(small),
        Err(_) => Err(OutOfMemory),
    }
}

/// The items with these numbers.
fn items_at<T: Copy + Drop>(alloc: Global, items: &[T], indexes: &[Val]) -> Mem<Vec<T>>
    ensures { IfOk result (λ found. found.items ≡ spec.items_numbered items.now indexes.now) }
{
    let mut found = Vec::new(alloc);
    'finding: for index in indexes {
        push_numbered(&mut found, items, *index)?;
    }
    Ok(found)
}

/// Puts the item with this number, where there is one, behind others.
fn push_numbered<T: Copy + Drop>(found: &mut Vec<T>, items: &[T], index: Val) -> Mem<()>
    ensures { OnOk result (found.new.items
        ≡ found.old.items ++ option_to_list (spec.numbered items.now index)) }
{
    if let Some(item) = numbered(items, index) {
        found.push(item)?;
    }
    Ok(())
}

fn numbered<T: Copy>(items: &[T], index: Val) -> Option<T>
    ensures { result ≡ spec.numbered items.now index }
{
    match index {
        Val::Int(number) => items.get(number.unsigned_abs() as usize).copied(),
        _ => None,
    }
}

/// The slice of a range of so many numbers.
#[tactic(auto, unfolding(crate::specs::Slicing::counted_range))]
fn counted_range(count: u64, first: i64, step: i64, bounds: &Bounds) -> May<Outcome, Fault>
    ensures { Gives (spec.counted_range count first step bounds.now) result }
{
    let by = bounds.step;
    let begin = number_at(first, step, slice_first(bounds, count))?;
    let stop = number_at(first, step, slice_stop(bounds, count))?;
    match product(step, by) {
        Ok(step) => Ok(Outcome::New(Cell::Range {
            first: begin,
            stop,
            step,
        })),
        Err(reason) => Err(Miss::Because(reason)),
    }
}

/// The number at a place of a range, where it has 64 bits.
fn number_at(first: i64, step: i64, place: i128) -> May<i64, Fault>
    ensures { Gives (fitted (first +ℤ place *ℤ step)) result }
{
    let Some(distance) = place.checked_mul(i128::from(step)) else {
        return Err(Miss::OutOfMemory);
    };
    let Some(number) = i128::from(first).checked_add(distance) else {
        return Err(Miss::OutOfMemory);
    };
    match narrowed(number) {
        Ok(number) => Ok(number),
        Err(reason) => Err(Miss::Because(reason)),
    }
}

/// The first index of a slice of so many items.
#[tactic(auto, unfolding(crate::specs::Slicing::slice_first))]
fn slice_first(bounds: &Bounds, count: u64) -> i128
    ensures { result ≡ spec.slice_first bounds.now count }
{
    let begin = bounds.begin;
    let whole = i128::from(count);
    if bounds.step < 0 {
        return bound_or(whole - 1, -1, whole - 1, count, begin);
    }
    bound_or(0, 0, whole, count, begin)
}

/// The index behind the last of a slice of so many items.
#[tactic(auto, unfolding(crate::specs::Slicing::slice_stop))]
fn slice_stop(bounds: &Bounds, count: u64) -> i128
    ensures { result ≡ spec.slice_stop bounds.now count }
{
    let end = bounds.end;
    let whole = i128::from(count);
    if bounds.step < 0 {
        return bound_or(-1, -1, whole - 1, count, end);
    }
    bound_or(whole, 0, whole, count, end)
}

/// A bound that may be absent.
fn bound_or(absent: i128, least: i128, greatest: i128, count: u64, bound: Option<i64>) -> i128
    ensures { result ≡ spec.bound_or absent least greatest count bound }
{
    match bound {
        Some(bound) => clamped(least, greatest, count, bound),
        None => absent,
    }
}

/// A bound from the front, no less than the least and no more than the greatest.
fn clamped(least: i128, greatest: i128, count: u64, bound: i64) -> i128
    ensures { result ≡ spec.clamped least greatest count bound }
{
    least.max(greatest.min(from_front(count, bound)))
}

fn from_front(count: u64, bound: i64) -> i128
    ensures { result ≡ spec.from_front count bound }
{
    if bound < 0 {
        i128::from(bound) + i128::from(count)
    } else {
        i128::from(bound)
    }
}
