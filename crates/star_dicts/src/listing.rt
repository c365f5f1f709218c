//! What dictionaries are looked at for: their pairs, keys and values, and the value of a key.
ghost use Rattle.std.specs.Prelude.{◌≡◌, [], ◌∷◌, IfOk, map, option_copied};
ghost use Rattle.bz_text.specs.Answers.{Gives};
ghost use Rattle.star_calls.specs.Values as arguments;
ghost use Rattle.star_calls.specs.Values.{result_then};
ghost use Rattle.star_dicts.specs.Rows as spec;
ghost use Rattle.star_dicts.specs.Sources.{entries_in};
ghost use Rattle.star_library.specs.Calls.{Builds, list_made};

use bz_text::{May, Mem, Miss, Seq};
use star_calls::{needed_at, value_at};
use star_core::{Cell, Dict, Fault, Heap, Pair, Val};
use star_library::{make_list, make_tuple, pairs};
use star_order::find;
use std::alloc::Global;

/// The pairs of a dictionary's cell.
#[tactic(auto, unfolding(crate::specs::Rows::pairs_in))]
pub(crate) fn pairs_in(alloc: Global, cell: Option<&Cell>) -> May<Seq<Pair>, Fault>
    ensures { Gives (spec.pairs_in (option_copied cell.entry)) result }
{
    match cell {
        Some(Cell::Dict(dict)) => Ok(pairs(alloc, dict)?),
        _ => Err(Miss::Because(Fault::Kind)),
    }
}

/// The value under a key, or a default one.
fn found_or(heap: &Heap, key: &Val, default: Option<Val>, dict: &Dict) -> May<Val, Fault>
    ensures { Gives (spec.found_or heap.now key.now default dict.now) result }
{
    Ok(value_or(default, find(heap.alloc(), heap, dict, key)?))
}

fn value_or(default: Option<Val>, found: Option<Pair>) -> Val
    ensures { result ≡ spec.value_or default found }
{
    match found {
        Some(pair) => pair.value,
        None => value_or_none(default),
    }
}

fn value_or_none(value: Option<Val>) -> Val
    ensures { result ≡ arguments.value_or_none value }
{
    match value {
        Some(value) => value,
        None => Val::None,
    }
}

#[tactic(auto, unfolding(crate::specs::Sources::entries_in))]
fn got_from(heap: &Heap, cell: Option<&Cell>, values: &[Option<Val>]) -> May<Val, Fault>
    ensures { Gives (result_then (entries_in (option_copied cell.entry))
        (spec.found_or heap.now (arguments.needed_at 0 values.now) (arguments.value_at 1 values.now)))
        result }
{
    match cell {
        Some(Cell::Dict(dict)) => found_or(heap, &needed_at(0, values), value_at(1, values), dict),
        _ => Err(Miss::Because(Fault::Kind)),
    }
}

/// The answer of `get`.
pub(crate) fn value_got(heap: &Heap, dict: &Val, values: &[Option<Val>]) -> May<Val, Fault>
    ensures { Gives (spec.value_got heap.now dict.now values.now) result }
{
    got_from(heap, heap.cell(dict), values)
}

/// A pair as a tuple.
pub(crate) fn make_pair(heap: &mut Heap, pair: Pair) -> May<Val, Fault>
    ensures { Builds (spec.pair_made pair heap.old) result heap.new }
{
    let items = both(heap.alloc(), pair)?;
    make_tuple(heap, items)
}

fn both(alloc: Global, pair: Pair) -> Mem<Seq<Val>>
    ensures { IfOk result (λ items. items ≡ pair.key ∷ pair.value ∷ []) }
{
    let mut items = Vec::new(alloc);
    items.push(pair.key)?;
    items.push(pair.value)?;
    Ok(Seq::of_vec(items))
}

fn make_pairs(heap: &mut Heap, pairs: &[Pair]) -> May<Seq<Val>, Fault>
    ensures { Builds (spec.pairs_made [] pairs.now heap.old) result heap.new }
{
    let mut made = Vec::new(heap.alloc());
    'making: for pair in pairs {
        match make_pair(heap, *pair) {
            Ok(tuple) => made.push(tuple)?,
            Err(miss) => return Err(miss),
        }
    }
    Ok(Seq::of_vec(made))
}

/// A list of the pairs as tuples.
pub(crate) fn make_items(heap: &mut Heap, pairs: &[Pair]) -> May<Val, Fault>
    ensures { Builds (spec.items_made pairs.now heap.old) result heap.new }
{
    match make_pairs(heap, pairs) {
        Ok(made) => make_list(heap, made),
        Err(miss) => Err(miss),
    }
}

/// A list of the keys.
pub(crate) fn make_keys(heap: &mut Heap, pairs: &[Pair]) -> May<Val, Fault>
    ensures { Builds (list_made (map (λ pair. pair.key) pairs.now) heap.old) result heap.new }
{
    let keys = keys_of(heap.alloc(), pairs)?;
    make_list(heap, keys)
}

fn keys_of(alloc: Global, pairs: &[Pair]) -> Mem<Seq<Val>>
    ensures { IfOk result (λ keys. keys ≡ map (λ pair. pair.key) pairs.now) }
{
    Ok(Seq::of_vec(keys_vec(alloc, pairs)?))
}

fn keys_vec(alloc: Global, pairs: &[Pair]) -> Mem<Vec<Val>>
    ensures { IfOk result (λ keys. keys.items ≡ map (λ pair. pair.key) pairs.now) }
{
    Ok(pairs.iter().map(|pair| pair.key).collect(alloc)?)
}

/// A list of the values.
pub(crate) fn make_values(heap: &mut Heap, pairs: &[Pair]) -> May<Val, Fault>
    ensures { Builds (list_made (map (λ pair. pair.value) pairs.now) heap.old) result heap.new }
{
    let values = values_of(heap.alloc(), pairs)?;
    make_list(heap, values)
}

fn values_of(alloc: Global, pairs: &[Pair]) -> Mem<Seq<Val>>
    ensures { IfOk result (λ values. values ≡ map (λ pair. pair.value) pairs.now) }
{
    Ok(Seq::of_vec(values_vec(alloc, pairs)?))
}

fn values_vec(alloc: Global, pairs: &[Pair]) -> Mem<Vec<Val>>
    ensures { IfOk result (λ values. values.items ≡ map (λ pair. pair.value) pairs.now) }
{
    Ok(pairs.iter().map(|pair| pair.value).collect(alloc)?)
}
