//! Values of a heap as plain values.
ghost use Rattle.std.specs.Prelude.{map};
ghost use Rattle.std.specs.Option.{option_copied};
ghost use Rattle.bz_text.specs.Answers.{Gives};
ghost use Rattle.bz_base.specs.PlainReading.{pairs_plain};
ghost use Rattle.module_values.specs.PlainValues as spec;
ghost use Rattle.module_values.specs.PlainValues.{items_within, pairs_within, plain_of};
ghost use Rattle.module_values.specs.PlainValues.{pair_of, plain_within, value_layer};

use bz_base::{NotPlain, Plain, PlainPair};
use bz_text::{May, Miss};
use sqlite_items::Items;
use star_core::{Cell, Dict, Heap, Pair, Val};
use star_library::pairs;
use std::alloc::Global;

/// How deep lists and dictionaries may nest.
const DEEPEST: u32 = 16;

/// The plain value that a value is.
pub fn plain_value(alloc: Global, heap: &Heap, value: &Val) -> May<Plain, NotPlain>
    ensures { Gives (plain_of heap.now value.now) result }
{
    value_within(alloc, heap, value, DEEPEST)
}

#[cycle(reading)]
fn value_within(alloc: Global, heap: &Heap, value: &Val, depth: u32) -> May<Plain, NotPlain>
    ensures { Gives (plain_within depth heap.now value.now) result }
{
    layer_within(alloc, heap, value, depth)
}

#[cycle(reading)]
#[tactic(auto, unfolding(crate::specs::PlainValues::value_layer))]
fn layer_within(alloc: Global, heap: &Heap, value: &Val, depth: u32) -> May<Plain, NotPlain>
    ensures { Gives (value_layer (items_within depth heap.now) (pairs_within depth heap.now)
        heap.now value.now) result }
{
    match *value {
        Val::None => Ok(Plain::None),
        Val::Bool(flag) => Ok(Plain::Flag(flag)),
        Val::Int(number) => integer_plain(number),
        Val::Cell(_) => cell_within(alloc, heap, heap.cell(value), depth),
    }
}

#[cycle(reading)]
#[tactic(auto, unfolding(crate::specs::PlainValues::cell_plain))]
fn cell_within(alloc: Global, heap: &Heap, cell: Option<&Cell>, depth: u32) -> May<Plain, NotPlain>
    ensures { Gives (spec.cell_plain (items_within depth heap.now) (pairs_within depth heap.now)
        (option_copied cell.entry)) result }
{
    match cell {
        Some(Cell::Text(text)) => Ok(Plain::Text(text.copy(alloc)?)),
        Some(Cell::List(items)) => Ok(Plain::Items(each_item(alloc, heap, items.items(), depth)?)),
        Some(Cell::Tuple(items)) => Ok(Plain::Items(each_item(alloc, heap, items.items(), depth)?)),
        Some(Cell::Dict(dict)) => dict_within(alloc, heap, dict, depth),
        _ => Err(Miss::Because(NotPlain)),
    }
}

#[cycle(reading)]
fn each_item(alloc: Global, heap: &Heap, items: &[Val], depth: u32) -> May<Items<Plain>, NotPlain>
    ensures { Gives (items_within depth heap.now items.now) result }
{
    if depth == 0 {
        return Err(Miss::Because(NotPlain));
    }
    let mut values = Vec::new(alloc);
    'reading: for item in items {
        values.push(value_within(alloc, heap, item, depth - 1)?)?;
    }
    Ok(Items::from_vec(values))
}

#[cycle(reading)]
fn dict_within(alloc: Global, heap: &Heap, dict: &Dict, depth: u32) -> May<Plain, NotPlain>
    ensures { Gives (pairs_plain (pairs_within depth heap.now
        (map (λ entry. entry.pair) dict.now))) result }
{
    let pairs = pairs(alloc, dict)?;
    Ok(Plain::Pairs(each_pair(alloc, heap, pairs.items(), depth)?))
}

#[cycle(reading)]
fn each_pair(
    alloc: Global,
    heap: &Heap,
    pairs: &[Pair],
    depth: u32,
) -> May<Items<PlainPair>, NotPlain>
    ensures { Gives (pairs_within depth heap.now pairs.now) result }
{
    if depth == 0 {
        return Err(Miss::Because(NotPlain));
    }
    let mut values = Vec::new(alloc);
    'reading: for pair in pairs {
        values.push(pair_within(alloc, heap, pair, depth - 1)?)?;
    }
    Ok(Items::from_vec(values))
}

#[cycle(reading)]
fn pair_within(alloc: Global, heap: &Heap, pair: &Pair, depth: u32) -> May<PlainPair, NotPlain>
    ensures { Gives (pair_of (plain_within depth heap.now) pair.now) result }
{
    Ok(PlainPair {
        key: value_within(alloc, heap, &pair.key, depth)?,
        value: value_within(alloc, heap, &pair.value, depth)?,
    })
}

#[tactic(auto, using(crate::proofs::Integers::integer_stands))]
fn integer_plain(number: i64) -> May<Plain, NotPlain>
    ensures { Gives (spec.integer_plain number) result }
{
    Ok(Plain::Int(number))
}
