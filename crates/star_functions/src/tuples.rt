//! `enumerate` and `zip`: lists of tuples.
ghost use Rattle.std.specs.Prelude.{◌≡◌, [], ◌∷◌, ◌++◌, IfOk, Ok, OnOk, slice_get};
ghost use Rattle.std.specs.Option.{option_to_list};
ghost use Rattle.bz_text.specs.Answers.{Gives};
ghost use Rattle.star_core.specs.declared.values.Val.TheVariants as vals;
ghost use Rattle.star_functions.specs.Rows as rows;
ghost use Rattle.star_functions.specs.Sequences as spec;
ghost use Rattle.star_library.specs.Calls.{Builds, go_on, list_made, tuple_made};
ghost use Rattle.star_library.specs.Kinds.{items_of};

use crate::functions::LibraryFunction;
use crate::ranges::has_names;
use bz_text::{May, Mem, Miss, Seq};
use star_calls::{given_at, integer_or, needed_at};
use star_core::{Args, Fault, Heap, Val};
use star_library::{bind, items, make_list, make_tuple};
use star_numbers::integers::sum;
use std::alloc::Global;

fn pair(alloc: Global, one: Val, other: Val) -> Mem<Seq<Val>>
    ensures { IfOk result (λ items. items ≡ one ∷ other ∷ []) }
{
    let mut items = Vec::new(alloc);
    items.push(one)?;
    items.push(other)?;
    Ok(Seq::of_vec(items))
}

fn make_pair(heap: &mut Heap, number: i64, item: Val) -> May<Val, Fault>
    ensures { Builds (tuple_made (vals.Int number ∷ item ∷ []) heap.old) result heap.new }
{
    let items = pair(heap.alloc(), Val::Int(number), item)?;
    make_tuple(heap, items)
}

/// An item beside its number.
fn numbered(heap: &mut Heap, number: Result<i64, Fault>, item: Val) -> May<Val, Fault>
    ensures { Builds (spec.numbered number item heap.old) result heap.new }
{
    match number {
        Ok(number) => make_pair(heap, number, item),
        Err(reason) => Err(Miss::Because(reason)),
    }
}

fn following(number: Result<i64, Fault>) -> Result<i64, Fault>
    ensures { result ≡ spec.following number }
{
    match number {
        Ok(number) => sum(number, 1),
        Err(reason) => Err(reason),
    }
}

fn make_numbered(heap: &mut Heap, start: Result<i64, Fault>, items: &[Val]) -> May<Seq<Val>, Fault>
    ensures { Builds (spec.numbered_made [] start items.now heap.old) result heap.new }
{
    let mut made = Vec::new(heap.alloc());
    let mut number = start;
    'making: for item in items {
        match numbered(heap, number, *item) {
            Ok(tuple) => made.push(tuple)?,
            Err(miss) => return Err(miss),
        }
        number = following(number);
    }
    Ok(Seq::of_vec(made))
}

fn enumerated(heap: &mut Heap, start: i64, items: &[Val]) -> May<Val, Fault>
    ensures { Builds (go_on (spec.numbered_made [] (Ok start) items.now heap.old) list_made)
        result heap.new }
{
    match make_numbered(heap, Ok(start), items) {
        Ok(made) => make_list(heap, made),
        Err(miss) => Err(miss),
    }
}

fn enumerate_from(heap: &mut Heap, start: Result<i64, Fault>, list: &Val) -> May<Val, Fault>
    ensures { Builds (spec.enumerated start (items_of heap.old list.now) heap.old) result
        heap.new }
{
    match items(heap.alloc(), heap, list) {
        Ok(items) => enumerate_items(heap, start, items.items()),
        Err(miss) => Err(miss),
    }
}

fn enumerate_items(heap: &mut Heap, start: Result<i64, Fault>, items: &[Val]) -> May<Val, Fault>
    ensures { Builds (spec.enumerated start (Ok items.now) heap.old) result heap.new }
{
    match start {
        Ok(start) => enumerated(heap, start, items),
        Err(reason) => Err(Miss::Because(reason)),
    }
}

/// A list of an iterable's items beside their numbers.
pub(crate) fn enumerate(heap: &mut Heap, args: &Args) -> May<Val, Fault>
    ensures { Builds (rows.enumerate_row args.now heap.old) result heap.new }
{
    match bind(heap.alloc(), LibraryFunction::Enumerate.parameters(), args) {
        Ok(values) => enumerate_called(heap, values.items()),
        Err(miss) => Err(miss),
    }
}

#[tactic(auto, unfolding(crate::specs::Rows::enumerate_called))]
fn enumerate_called(heap: &mut Heap, values: &[Option<Val>]) -> May<Val, Fault>
    ensures { Builds (rows.enumerate_called values.now heap.old) result heap.new }
{
    let start = integer_or(0, given_at(1, values));
    enumerate_from(heap, start, &needed_at(0, values))
}

/// The items of each iterable.
#[tactic(auto, using(crate::proofs::ListRows::in_front_one))]
fn all_items(heap: &Heap, values: &[Val]) -> May<Seq<Seq<Val>>, Fault>
    ensures { Gives (spec.all_items heap.now values.now) result }
{
    let mut lists = Vec::new(heap.alloc());
    'reading: for value in values {
        match items(heap.alloc(), heap, value) {
            Ok(items) => lists.push(items)?,
            Err(miss) => return Err(miss),
        }
    }
    Ok(Seq::of_vec(lists))
}

/// How many items the shortest list has.
fn shortest(lists: &[Seq<Val>]) -> usize
    ensures { result ≡ spec.shortest lists.now }
{
    match lists {
        [] => 0,
        [items, more @ ..] => shortest_of(items.items().len(), more),
    }
}

fn shortest_of(count: usize, lists: &[Seq<Val>]) -> usize
    ensures { result ≡ spec.shortest_of count lists.now }
{
    let mut least = count;
    'comparing: for items in lists {
        least = least.min(items.items().len());
    }
    least
}

/// The items with this index of each list.
fn row_at(alloc: Global, index: usize, lists: &[Seq<Val>]) -> Mem<Seq<Val>>
    ensures { IfOk result (λ row. row ≡ spec.row_at index lists.now) }
{
    let mut row = Vec::new(alloc);
    'reading: for items in lists {
        push_item(&mut row, items.items(), index)?;
    }
    Ok(Seq::of_vec(row))
}

fn push_item(row: &mut Vec<Val>, items: &[Val], index: usize) -> Mem<()>
    ensures { OnOk result (row.new.items
        ≡ row.old.items ++ option_to_list (slice_get items.now index)) }
{
    if let Some(item) = item_at(items, index) {
        row.push(item)?;
    }
    Ok(())
}

fn item_at(items: &[Val], index: usize) -> Option<Val>
    ensures { result ≡ slice_get items.now index }
{
    items.get(index).copied()
}

fn make_row(heap: &mut Heap, index: usize, lists: &[Seq<Val>]) -> May<Val, Fault>
    ensures { Builds (tuple_made (spec.row_at index lists.now) heap.old) result heap.new }
{
    let row = row_at(heap.alloc(), index, lists)?;
    make_tuple(heap, row)
}

#[tactic(auto, using(crate::proofs::ListRows::rows_next))]
fn make_rows(heap: &mut Heap, count: usize, lists: &[Seq<Val>]) -> May<Seq<Val>, Fault>
    ensures { Builds (spec.rows_made [] count 0 lists.now heap.old) result heap.new }
{
    let mut made = Vec::new(heap.alloc());
    'making: for index in 0..count {
        match make_row(heap, index, lists) {
            Ok(tuple) => made.push(tuple)?,
            Err(miss) => return Err(miss),
        }
    }
    Ok(Seq::of_vec(made))
}

fn zip_lists(heap: &mut Heap, lists: &[Seq<Val>]) -> May<Val, Fault>
    ensures { Builds (spec.zipped (Ok lists.now) heap.old) result heap.new }
{
    match make_rows(heap, shortest(lists), lists) {
        Ok(made) => make_list(heap, made),
        Err(miss) => Err(miss),
    }
}

/// A list of tuples of the items of iterables, as many as the shortest one has.
pub(crate) fn zip(heap: &mut Heap, args: &Args) -> May<Val, Fault>
    ensures { Builds (spec.zip_row args.now heap.old) result heap.new }
{
    if has_names(args.named.items()) {
        return Err(Miss::Because(Fault::Arity));
    }
    zip_items(heap, args.positional.items())
}

fn zip_items(heap: &mut Heap, values: &[Val]) -> May<Val, Fault>
    ensures { Builds (spec.zipped (spec.all_items heap.old values.now) heap.old) result heap.new }
{
    match all_items(heap, values) {
        Ok(lists) => zip_lists(heap, lists.items()),
        Err(miss) => Err(miss),
    }
}
