//! What depends on indexes: where a text stands, how often, and whether at a side.
ghost use Rattle.std.specs.Prelude.{◌≡◌, ◌+◌, ◌≤◌, [], ◌∷◌, IfOk, Ok, false, length};
ghost use Rattle.std.specs.Prelude.{option_map, pos};
ghost use Rattle.bz_text.specs.Answers.{Gives};
ghost use Rattle.star_text.specs.Positions as spec;
ghost use Rattle.star_text.specs.Positions.{index_by};
ghost use Rattle.star_text.specs.declared.text_answers.TextAnswer.TheVariants.{Flag, Number};

use crate::argument_values::{scalars_of, value_at};
use crate::text_answers::{Side, TextAnswer};
use bz_text::{May, Mem, Miss, OutOfMemory, Seq};
use star_core::{Cell, Fault, Heap, Val};
use star_library::copy_of;
use star_scalars::{begins, ends, first_index, first_pieces, last_index};
use std::alloc::Global;

fn index_within(index: i64, long: usize) -> usize
    ensures value { result ≡ spec.index_within index long }
    ensures within { result ≤ long }
{
    match usize::try_from(index) {
        Ok(index) => index.min(long),
        Err(_) => long.saturating_sub(index.unsigned_abs() as usize),
    }
}

#[tactic(auto, unfolding(crate::specs::Positions::bound_of))]
fn bound_of(long: usize, default: usize, value: Option<Val>) -> Result<usize, Fault>
    requires { default ≤ long }
    ensures value { result ≡ spec.bound_of long default value }
    ensures within { IfOk result (λ bound. bound ≤ long) }
{
    match value {
        None | Some(Val::None) => Ok(default),
        Some(Val::Int(index)) => Ok(index_within(index, long)),
        Some(Val::Bool(_) | Val::Cell(_)) => Err(Fault::Kind),
    }
}

#[tactic(auto, unfolding(crate::specs::Positions::bounds_of))]
fn bounds_of(long: usize, values: &[Option<Val>]) -> Result<(usize, usize), Fault>
    ensures value { result ≡ spec.bounds_of long values.now }
    ensures within { IfOk result (λ bounds. bounds.1 ≤ long) }
{
    let start = bound_of(long, 0, value_at(1, values))?;
    let end = bound_of(long, long, value_at(2, values))?;
    Ok((start, end))
}

fn between(bounds: (usize, usize), text: &[char]) -> &[char]
    requires { bounds.1 ≤ length text.now }
    ensures { result.now ≡ spec.between bounds text.now }
{
    let (front, _) = text.split_at(bounds.1);
    if front.len() < bounds.0 {
        &[]
    } else {
        front.split_at(bounds.0).1
    }
}

fn index_in(by: Side, sub: &[char], text: &[char]) -> Option<usize>
    ensures { result ≡ index_by by sub.now text.now }
{
    match by {
        Side::Front | Side::Both => first_index(sub, text),
        Side::End => last_index(sub, text),
    }
}

/// Where a text stands between two indexes.
#[tactic(auto, unfolding(crate::specs::Positions::found))]
pub(crate) fn found(
    alloc: Global,
    by: Side,
    heap: &Heap,
    values: &[Option<Val>],
    text: &[char],
) -> May<Option<usize>, Fault>
    ensures { Gives (spec.found by heap.now values.now text.now) result }
{
    let sub = scalars_of(alloc, heap, value_at(0, values))?;
    match bounds_of(text.len(), values) {
        Ok(bounds) => Ok(shifted(bounds.0, index_in(by, sub.items(), between(bounds, text)))?),
        Err(reason) => Err(Miss::Because(reason)),
    }
}

/// An index behind others. No text is so long that the sum is too large.
fn shifted(start: usize, index: Option<usize>) -> Mem<Option<usize>>
    ensures { IfOk result (λ all. all ≡ option_map (λ index. start + index) index) }
{
    let Some(index) = index else {
        return Ok(None);
    };
    match start.checked_add(index) {
        Some(all) => Ok(Some(all)),
        None => Err(OutOfMemory),
    }
}

fn number_of(count: usize) -> Mem<TextAnswer>
    ensures { IfOk result (λ answer. answer ≡ Number (pos count)) }
{
    match i64::try_from(count) {
        Ok(number) => Ok(TextAnswer::Number(number)),
        Err(_) => Err(OutOfMemory),
    }
}

pub(crate) fn index_or_minus(index: Option<usize>) -> May<TextAnswer, Fault>
    ensures { Gives (spec.index_or_minus (Ok index)) result }
{
    match index {
        Some(index) => Ok(number_of(index)?),
        None => Ok(TextAnswer::Number(-1)),
    }
}

pub(crate) fn index_or_fault(index: Option<usize>) -> May<TextAnswer, Fault>
    ensures { Gives (spec.index_or_fault (Ok index)) result }
{
    match index {
        Some(index) => Ok(number_of(index)?),
        None => Err(Miss::Because(Fault::Value)),
    }
}

/// How often a text stands between two indexes.
#[tactic(auto, unfolding(crate::specs::Positions::counted))]
pub(crate) fn counted(
    alloc: Global,
    heap: &Heap,
    values: &[Option<Val>],
    text: &[char],
) -> May<TextAnswer, Fault>
    ensures { Gives (spec.counted heap.now values.now text.now) result }
{
    let sub = scalars_of(alloc, heap, value_at(0, values))?;
    match bounds_of(text.len(), values) {
        Ok(bounds) => Ok(count_of(alloc, sub.items(), between(bounds, text))?),
        Err(reason) => Err(Miss::Because(reason)),
    }
}

fn count_of(alloc: Global, sub: &[char], text: &[char]) -> Mem<TextAnswer>
    ensures { IfOk result (λ answer. answer ≡ Number (pos (spec.places_of sub.now text.now))) }
{
    number_of(places_of(alloc, sub, text)?)
}

fn places_of(alloc: Global, sub: &[char], text: &[char]) -> Mem<usize>
    ensures { IfOk result (λ count. count ≡ spec.places_of sub.now text.now) }
{
    if sub.is_empty() {
        return Ok(text.len() + 1);
    }
    let pieces = first_pieces(alloc, text.len(), sub, text)?;
    Ok(pieces.items().len().saturating_sub(1))
}

fn stands_at(at: Side, text: &[char], part: &[char]) -> bool
    ensures { result ≡ spec.stands_at at text.now part.now }
{
    match at {
        Side::Front | Side::Both => begins(text, part),
        Side::End => ends(text, part),
    }
}

/// Whether one of the items stands at a side.
fn one_stands(
    alloc: Global,
    at: Side,
    heap: &Heap,
    text: &[char],
    items: &[Val],
) -> May<bool, Fault>
    ensures { Gives (spec.one_stands at heap.now text.now false items.now) result }
{
    let mut flag = false;
    'looking: for item in items {
        match item_stands(alloc, at, heap, text, *item) {
            Ok(stands) => flag = flag || stands,
            Err(miss) => return Err(miss),
        }
    }
    Ok(flag)
}

fn item_stands(alloc: Global, at: Side, heap: &Heap, text: &[char], item: Val) -> May<bool, Fault>
    ensures { Gives (spec.item_stands at heap.now text.now item) result }
{
    let part = scalars_of(alloc, heap, Some(item))?;
    Ok(stands_at(at, text, part.items()))
}

fn parts_of(alloc: Global, heap: &Heap, value: Option<Val>) -> Mem<Seq<Val>>
    ensures { IfOk result (λ parts. parts ≡ spec.parts_of heap.now value) }
{
    let Some(value) = value else {
        return one_part(alloc, Val::None);
    };
    match heap.cell(&value) {
        Some(Cell::Tuple(items)) => copy_of(alloc, items.items()),
        _ => one_part(alloc, value),
    }
}

fn one_part(alloc: Global, value: Val) -> Mem<Seq<Val>>
    ensures { IfOk result (λ parts. parts ≡ value ∷ []) }
{
    let mut parts = Vec::new(alloc);
    parts.push(value)?;
    Ok(Seq::of_vec(parts))
}

/// Whether a string, or one of a tuple, stands at a side between two indexes.
#[tactic(auto, unfolding(crate::specs::Positions::sided))]
pub(crate) fn sided(
    alloc: Global,
    at: Side,
    heap: &Heap,
    values: &[Option<Val>],
    text: &[char],
) -> May<TextAnswer, Fault>
    ensures { Gives (spec.sided at heap.now values.now text.now) result }
{
    let parts = parts_of(alloc, heap, value_at(0, values))?;
    match bounds_of(text.len(), values) {
        Ok(bounds) => flag_of(one_stands(alloc, at, heap, between(bounds, text), parts.items())?),
        Err(reason) => Err(Miss::Because(reason)),
    }
}

fn flag_of(flag: bool) -> May<TextAnswer, Fault>
    ensures { Gives (Ok (Flag flag)) result }
{
    Ok(TextAnswer::Flag(flag))
}
