//! The entries that `dict` and `update` are given.
ghost use Rattle.std.specs.Prelude.{◌≡◌, option_copied};
ghost use Rattle.bz_text.specs.Answers.{Gives};
ghost use Rattle.star_calls.specs.Values.{result_then};
ghost use Rattle.star_core.specs.Heaps.{literal_made};
ghost use Rattle.star_dicts.specs.Rows as rows;
ghost use Rattle.star_dicts.specs.Sources as spec;
ghost use Rattle.star_library.specs.Calls.{Builds};
ghost use Rattle.star_library.specs.Kinds.{items_of};

use bz_text::{May, Miss, Seq};
use star_core::{Args, Cell, Dict, Fault, Heap, NamedVal, Pair, Val};
use star_library::items;
use star_operators::uniting::copied;
use star_order::key_content;
use std::alloc::Global;

/// What entries are read from: a dictionary, or the items of another iterable.
#[derive(Drop)]
pub enum Source {
    Entries(Dict),
    Items(Seq<Val>),
}

fn is_named(name: &str, named: &[NamedVal]) -> bool
    ensures { result ≡ spec.is_named name.now named.now }
{
    'looking: for one in named {
        if one.name.as_str() == name {
            return true;
        }
    }
    false
}

fn names_differ(named: &[NamedVal]) -> bool
    ensures { result ≡ spec.names_differ named.now }
{
    let mut rest = named;
    'looking: while let [one, more @ ..] = rest {
        if is_named(one.name.as_str(), more) {
            return false;
        }
        rest = more;
    }
    true
}

fn one_positional(values: &[Val]) -> Result<Option<Val>, Fault>
    ensures { result ≡ spec.one_positional values.now }
{
    match values {
        [] => Ok(None),
        [one] => Ok(Some(*one)),
        _ => Err(Fault::Arity),
    }
}

#[tactic(auto, unfolding(crate::specs::Sources::positional_of))]
fn positional_of(args: &Args) -> Result<Option<Val>, Fault>
    ensures { result ≡ spec.positional_of args.now }
{
    if names_differ(args.named.items()) {
        one_positional(args.positional.items())
    } else {
        Err(Fault::Arity)
    }
}

#[tactic(auto, unfolding(crate::specs::Sources::entries_in))]
fn entries_in(alloc: Global, cell: Option<&Cell>) -> May<Dict, Fault>
    ensures { Gives (spec.entries_in (option_copied cell.entry)) result }
{
    match cell {
        Some(Cell::Dict(dict)) => Ok(copied(alloc, dict)?),
        _ => Err(Miss::Because(Fault::Kind)),
    }
}

fn value_source(heap: &Heap, value: &Val) -> May<Source, Fault>
    ensures { Gives (spec.value_source heap.now value.now) result }
{
    match entries_in(heap.alloc(), heap.cell(value)) {
        Ok(dict) => Ok(Source::Entries(dict)),
        Err(Miss::Because(_)) => items_source(heap, value),
        Err(Miss::OutOfMemory) => Err(Miss::OutOfMemory),
    }
}

fn items_source(heap: &Heap, value: &Val) -> May<Source, Fault>
    ensures { Gives (result_then (items_of heap.now value.now) spec.items_source) result }
{
    Ok(Source::Items(items(heap.alloc(), heap, value)?))
}

/// What a call of `dict` or `update` is given.
pub(crate) fn source_given(heap: &Heap, args: &Args) -> May<Source, Fault>
    ensures { Gives (rows.source_given args.now heap.now) result }
{
    match positional_of(args) {
        Ok(None) => Ok(Source::Items(Seq::new(heap.alloc()))),
        Ok(Some(value)) => value_source(heap, &value),
        Err(reason) => Err(Miss::Because(reason)),
    }
}

#[tactic(auto, unfolding(crate::specs::Sources::pair_from))]
fn pair_from(values: &[Val]) -> Result<Pair, Fault>
    ensures { result ≡ spec.pair_from values.now }
{
    match values {
        [key, value] => Ok(Pair {
            key: *key,
            value: *value,
        }),
        _ => Err(Fault::Value),
    }
}

fn pair_of(heap: &Heap, item: &Val) -> May<Pair, Fault>
    ensures { Gives (spec.pair_of heap.now item.now) result }
{
    let values = items(heap.alloc(), heap, item)?;
    match pair_from(values.items()) {
        Ok(pair) => Ok(pair),
        Err(reason) => Err(Miss::Because(reason)),
    }
}

/// Puts a pair under its key.
fn pair_put(heap: &Heap, entries: Dict, pair: Pair) -> May<Dict, Fault>
    ensures { Gives (spec.pair_put heap.now entries pair) result }
{
    let content = key_content(heap.alloc(), heap, &pair.key)?;
    let mut entries = entries;
    entries.put(content, pair)?;
    Ok(entries)
}

fn item_put(heap: &Heap, entries: Dict, item: &Val) -> May<Dict, Fault>
    ensures { Gives (spec.item_put heap.now entries item.now) result }
{
    match pair_of(heap, item) {
        Ok(pair) => pair_put(heap, entries, pair),
        Err(miss) => Err(miss),
    }
}

fn items_put(heap: &Heap, entries: Dict, items: &[Val]) -> May<Dict, Fault>
    ensures { Gives (spec.items_put heap.now entries items.now) result }
{
    let mut all = entries;
    'putting: for item in items {
        match item_put(heap, all, item) {
            Ok(more) => all = more,
            Err(miss) => return Err(miss),
        }
    }
    Ok(all)
}

/// The entries of a source.
#[tactic(auto, unfolding(crate::specs::Sources::entries_from))]
pub(crate) fn entries_from(heap: &Heap, source: Source) -> May<Dict, Fault>
    ensures { Gives (spec.entries_from heap.now source) result }
{
    match source {
        Source::Entries(entries) => Ok(entries),
        Source::Items(items) => items_put(heap, Dict::new(heap.alloc()), items.items()),
    }
}

fn value_under(heap: &mut Heap, entries: Dict, value: Val, key: Val) -> May<Dict, Fault>
    ensures { Builds (spec.value_under entries value key heap.old) result heap.new }
{
    pair_put(heap, entries, Pair { key, value })
}

fn name_put(heap: &mut Heap, entries: Dict, one: &NamedVal) -> May<Dict, Fault>
    ensures { Builds (spec.name_put entries one.now heap.old) result heap.new }
{
    match literal(heap, one) {
        Ok(key) => value_under(heap, entries, one.val, key),
        Err(miss) => Err(miss),
    }
}

/// A string of an argument's name.
fn literal(heap: &mut Heap, one: &NamedVal) -> May<Val, Fault>
    ensures { Builds (literal_made one.now.name heap.old) result heap.new }
{
    let name = one.name.copy(heap.alloc())?;
    heap.literal(name)
}

/// Puts named arguments behind entries.
pub(crate) fn names_put(heap: &mut Heap, entries: Dict, named: &[NamedVal]) -> May<Dict, Fault>
    ensures { Builds (spec.names_put entries named.now heap.old) result heap.new }
{
    let mut all = entries;
    'putting: for one in named {
        match name_put(heap, all, one) {
            Ok(more) => all = more,
            Err(miss) => return Err(miss),
        }
    }
    Ok(all)
}
