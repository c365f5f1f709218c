//! Changes of lists and dictionaries in place.
ghost use Rattle.std.specs.Prelude.{◌≡◌, ◌++◌, ◌*◌, ◌-◌, IfOk, length, option_copied, slice_set};
ghost use Rattle.bz_text.specs.Answers.{Gives};
ghost use Rattle.star_core.specs.Dicts as dicts;
ghost use Rattle.star_core.specs.declared.cells.Cell.TheVariants as cells;
ghost use Rattle.star_library.specs.Calls.{Builds};
ghost use Rattle.star_operators.specs.Binary as binary;
ghost use Rattle.star_containers.specs.Changing as spec;
ghost use Rattle.star_containers.specs.Changing.{changed_by, extended, index_set, merged};
ghost use Rattle.star_containers.specs.Changing.{put_changed};
ghost use Rattle.star_operators.specs.Indexing as indexing;

use bz_text::{May, Mem, Miss, OutOfMemory, Seq, Txt};
use star_core::{Cell, Dict, Fault, Heap, Pair, Val};
use star_library::items;
use star_operators::indexing::place_of;
use star_operators::uniting::{copied, put_all};
use star_order::key_content;
use std::alloc::Global;

/// The content that a container gets, and what that adds to the sum of sizes.
#[derive(Drop)]
pub struct Changed {
    pub content: Cell,
    pub added: u64,
}

/// Gives an index or a key of a container a value.
pub fn set_index(heap: &mut Heap, container: &Val, at: &Val, value: &Val) -> May<(), Fault>
    ensures { Builds (index_set container.now at.now value.now heap.old) result heap.new }
{
    match heap.take(container) {
        Ok(content) => put_set(heap, container, content, at, value),
        Err(reason) => Err(Miss::Because(reason)),
    }
}

fn put_set(heap: &mut Heap, container: &Val, content: Cell, at: &Val, value: &Val) -> May<(), Fault>
    ensures { Builds (put_changed container.now
        (spec.content_set at.now value.now heap.old content) heap.old) result heap.new }
{
    match content_set(heap.alloc(), heap, content, at, value) {
        Ok(changed) => put(heap, container, changed),
        Err(miss) => Err(miss),
    }
}

/// Puts a content back.
fn put(heap: &mut Heap, container: &Val, changed: Changed) -> May<(), Fault>
    ensures { Builds (spec.put container.now changed heap.old) result heap.new }
{
    let Changed { content, added } = changed;
    match heap.give(container, content, added) {
        Ok(()) => Ok(()),
        Err(reason) => Err(Miss::Because(reason)),
    }
}

#[tactic(auto, unfolding(crate::specs::Changing::content_set))]
fn content_set(
    alloc: Global,
    heap: &Heap,
    content: Cell,
    at: &Val,
    value: &Val,
) -> May<Changed, Fault>
    ensures { Gives (spec.content_set at.now value.now heap.now content) result }
{
    match content {
        Cell::List(items) => item_set(items, at, value),
        Cell::Dict(dict) => entry_set(alloc, heap, dict, at, value),
        _ => Err(Miss::Because(Fault::Kind)),
    }
}

fn item_set(items: Seq<Val>, at: &Val, value: &Val) -> May<Changed, Fault>
    ensures { Gives (spec.item_set items value.now (indexing.place_of at.now (length items)))
        result }
{
    match place_of(at, items.items().len() as u64) {
        Ok(place) => Ok(with_item(items, place as usize, *value)),
        Err(reason) => Err(Miss::Because(reason)),
    }
}

fn with_item(items: Seq<Val>, place: usize, value: Val) -> Changed
    ensures { result ≡ record { content = cells.List (slice_set items place value); added = 0 } }
{
    let mut items = items.into_vec();
    set_item(&mut items, place, value);
    Changed {
        content: Cell::List(Seq::of_vec(items)),
        added: 0,
    }
}

fn set_item(items: &mut Vec<Val>, place: usize, value: Val)
    ensures { items.new.items ≡ slice_set items.old.items place value }
{
    if let Some(item) = items.get_mut(place) {
        *item = value;
    }
}

fn entry_set(alloc: Global, heap: &Heap, dict: Dict, key: &Val, value: &Val) -> May<Changed, Fault>
    ensures { Gives (spec.entry_put heap.now dict key.now value.now) result }
{
    match key_content(alloc, heap, key) {
        Ok(content) => Ok(with_entry(dict, content, *key, *value)?),
        Err(miss) => Err(miss),
    }
}

/// A dictionary with a pair under its key's content.
fn with_entry(dict: Dict, content: Txt, key: Val, value: Val) -> Mem<Changed>
    ensures { IfOk result (λ changed. changed ≡ spec.dict_changed dict
        (dicts.with_entry content (record { key = key; value = value }) dict)) }
{
    let mut dict = dict;
    let before = dict.len();
    dict.put(content, Pair { key, value })?;
    dict_changed(before, dict)
}

/// A dictionary that had so many entries before.
fn dict_changed(before: usize, dict: Dict) -> Mem<Changed>
    ensures { IfOk result (λ changed. changed
        ≡ record { content = cells.Dict dict; added = 32 * (length dict - before) }) }
{
    let count = dict.len().saturating_sub(before);
    match (count as u64).checked_mul(32) {
        Some(added) => Ok(Changed {
            content: Cell::Dict(dict),
            added,
        }),
        None => Err(OutOfMemory),
    }
}

/// Puts the items of an iterable behind those of a list.
pub fn extend(heap: &mut Heap, list: &Val, by: &Val) -> May<(), Fault>
    ensures { Builds (extended list.now by.now heap.old) result heap.new }
{
    match items(heap.alloc(), heap, by) {
        Ok(items) => extend_by(heap, list, items),
        Err(miss) => Err(miss),
    }
}

fn extend_by(heap: &mut Heap, list: &Val, items: Seq<Val>) -> May<(), Fault>
    ensures { Builds (changed_by list.now (λ heap. spec.content_extended items) heap.old) result
        heap.new }
{
    match heap.take(list) {
        Ok(content) => put_extended(heap, list, content, items),
        Err(reason) => Err(Miss::Because(reason)),
    }
}

fn put_extended(heap: &mut Heap, list: &Val, content: Cell, items: Seq<Val>) -> May<(), Fault>
    ensures { Builds (put_changed list.now (spec.content_extended items content) heap.old) result
        heap.new }
{
    match content_extended(content, items) {
        Ok(changed) => put(heap, list, changed),
        Err(miss) => Err(miss),
    }
}

#[tactic(auto, unfolding(crate::specs::Changing::content_extended))]
fn content_extended(content: Cell, items: Seq<Val>) -> May<Changed, Fault>
    ensures { Gives (spec.content_extended items content) result }
{
    match content {
        Cell::List(old) => Ok(list_extended(old, items)?),
        _ => Err(Miss::Because(Fault::Kind)),
    }
}

fn list_extended(old: Seq<Val>, items: Seq<Val>) -> Mem<Changed>
    ensures { IfOk result (λ changed. changed
        ≡ record { content = cells.List (old ++ items); added = 16 * length items }) }
{
    let Some(added) = (items.items().len() as u64).checked_mul(16) else {
        return Err(OutOfMemory);
    };
    let mut whole = old.into_vec();
    whole.extend_from_slice(items.items())?;
    Ok(Changed {
        content: Cell::List(Seq::of_vec(whole)),
        added,
    })
}

/// Puts the entries of another dictionary into a dictionary.
pub fn merge(heap: &mut Heap, dict: &Val, by: &Val) -> May<(), Fault>
    ensures { Builds (merged dict.now by.now heap.old) result heap.new }
{
    match entries_in(heap.alloc(), heap.cell(by)) {
        Ok(others) => merge_by(heap, dict, others),
        Err(miss) => Err(miss),
    }
}

#[tactic(auto, unfolding(crate::specs::Changing::entries_in))]
fn entries_in(alloc: Global, held: Option<&Cell>) -> May<Dict, Fault>
    ensures { Gives (spec.entries_in (option_copied held.entry)) result }
{
    match held {
        Some(Cell::Dict(dict)) => Ok(copied(alloc, dict)?),
        _ => Err(Miss::Because(Fault::Kind)),
    }
}

fn merge_by(heap: &mut Heap, dict: &Val, others: Dict) -> May<(), Fault>
    ensures { Builds (changed_by dict.now (λ heap. spec.content_merged others) heap.old) result
        heap.new }
{
    match heap.take(dict) {
        Ok(content) => put_merged(heap, dict, content, others),
        Err(reason) => Err(Miss::Because(reason)),
    }
}

fn put_merged(heap: &mut Heap, dict: &Val, content: Cell, others: Dict) -> May<(), Fault>
    ensures { Builds (put_changed dict.now (spec.content_merged others content) heap.old) result
        heap.new }
{
    match content_merged(heap.alloc(), content, others) {
        Ok(changed) => put(heap, dict, changed),
        Err(miss) => Err(miss),
    }
}

#[tactic(auto, unfolding(crate::specs::Changing::content_merged))]
fn content_merged(alloc: Global, content: Cell, others: Dict) -> May<Changed, Fault>
    ensures { Gives (spec.content_merged others content) result }
{
    match content {
        Cell::Dict(dict) => Ok(dict_merged(alloc, dict, others)?),
        _ => Err(Miss::Because(Fault::Kind)),
    }
}

fn dict_merged(alloc: Global, dict: Dict, others: Dict) -> Mem<Changed>
    ensures { IfOk result (λ changed. changed
        ≡ spec.dict_changed dict (binary.united dict others)) }
{
    let mut dict = dict;
    let before = dict.len();
    put_all(alloc, &mut dict, &others)?;
    dict_changed(before, dict)
}
