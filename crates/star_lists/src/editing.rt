//! Changes of a list's items.
ghost use Rattle.std.specs.Prelude.{◌≡◌, [], ◌++◌, ◌∷◌, Ok, length};
ghost use Rattle.std.specs.List.{insert, remove};
ghost use Rattle.bz_text.specs.Answers.{Gives};
ghost use Rattle.star_calls.specs.Values.{result_then};
ghost use Rattle.star_calls.specs.Edits.{edit_done};
ghost use Rattle.star_core.specs.declared.values.Val.TheVariants as vals;
ghost use Rattle.star_library.specs.Calls.{Builds};
ghost use Rattle.star_lists.specs.Edits as spec;
ghost use Rattle.star_lists.specs.Edits.{list_changed};
ghost use Rattle.star_lists.specs.Searching as searching;
ghost use Rattle.star_operators.specs.Indexing as indexing;

use crate::searching::index_within;
use bz_text::{May, Miss, Seq};
use star_calls::{Edited, put_edited};
use star_core::{Cell, Fault, Heap, Val};
use star_operators::indexing::place_of;
use std::alloc::Global;

/// What a list is changed by: an item is put behind the others, all are taken away, one is put at
/// an index, the one at an index is taken, or the one that was sought is.
#[derive(Clone, Copy)]
pub enum ListEdit {
    Append(Val),
    Clear,
    Insert { at: i64, value: Val },
    Pop(i64),
    Remove(Result<usize, Fault>),
}

/// Changes a list.
pub(crate) fn change_list(heap: &mut Heap, list: &Val, edit: ListEdit) -> May<Val, Fault>
    ensures { Builds (list_changed list.now edit heap.old) result heap.new }
{
    match heap.take(list) {
        Ok(content) => put_list(heap, list, content, edit),
        Err(reason) => Err(Miss::Because(reason)),
    }
}

fn put_list(heap: &mut Heap, list: &Val, content: Cell, edit: ListEdit) -> May<Val, Fault>
    ensures { Builds (edit_done list.now (spec.list_edited edit content) heap.old) result heap.new }
{
    match list_edited(heap.alloc(), edit, content) {
        Ok(edited) => put_edited(heap, list, edited),
        Err(miss) => Err(miss),
    }
}

#[tactic(auto, unfolding(crate::specs::Edits::list_edited))]
fn list_edited(alloc: Global, edit: ListEdit, content: Cell) -> May<Edited, Fault>
    ensures { Gives (spec.list_edited edit content) result }
{
    match content {
        Cell::List(items) => items_edited(alloc, edit, items),
        _ => Err(Miss::Because(Fault::Kind)),
    }
}

#[tactic(auto, unfolding(crate::specs::Edits::items_edited))]
fn items_edited(alloc: Global, edit: ListEdit, items: Seq<Val>) -> May<Edited, Fault>
    ensures { Gives (spec.items_edited edit items) result }
{
    match edit {
        ListEdit::Append(value) => appended(items, value),
        ListEdit::Clear => Ok(left_with(Seq::new(alloc), 0)),
        ListEdit::Insert { at, value } => inserted(items, at, value),
        ListEdit::Pop(at) => popped(items, at),
        ListEdit::Remove(found) => removed(items, found),
    }
}

/// Items that a list then has, with what they add to the sizes.
fn left_with(items: Seq<Val>, added: u64) -> Edited
    ensures { result ≡ spec.left_with items added vals.None }
{
    Edited {
        content: Cell::List(items),
        added,
        answer: Val::None,
    }
}

fn appended(items: Seq<Val>, value: Val) -> May<Edited, Fault>
    ensures { Gives (Ok (spec.left_with (items ++ value ∷ []) 16 vals.None)) result }
{
    let mut all = items.into_vec();
    all.push(value)?;
    Ok(left_with(Seq::of_vec(all), 16))
}

fn inserted(items: Seq<Val>, at: i64, value: Val) -> May<Edited, Fault>
    ensures { Gives (Ok (spec.left_with
        (insert items (searching.index_within at (length items)) value) 16 vals.None)) result }
{
    let mut all = items.into_vec();
    let place = index_within(at, all.len());
    all.insert(place, value)?;
    Ok(left_with(Seq::of_vec(all), 16))
}

fn popped(items: Seq<Val>, at: i64) -> May<Edited, Fault>
    ensures { Gives (result_then (indexing.place_of (vals.Int at) (length items))
        (spec.without_place items)) result }
{
    match place_of(&Val::Int(at), items.items().len() as u64) {
        Ok(place) => given(without_place(items, place as usize)),
        Err(reason) => Err(Miss::Because(reason)),
    }
}

fn removed(items: Seq<Val>, found: Result<usize, Fault>) -> May<Edited, Fault>
    ensures { Gives (result_then found
        (λ place. result_then (spec.without_place items place) spec.giving_none)) result }
{
    match found {
        Ok(place) => giving_none(without_place(items, place)),
        Err(reason) => Err(Miss::Because(reason)),
    }
}

/// A change that takes no memory.
fn given(edited: Result<Edited, Fault>) -> May<Edited, Fault>
    ensures { Gives edited result }
{
    match edited {
        Ok(edited) => Ok(edited),
        Err(reason) => Err(Miss::Because(reason)),
    }
}

/// The same with the value None.
fn giving_none(edited: Result<Edited, Fault>) -> May<Edited, Fault>
    ensures { Gives (result_then edited spec.giving_none) result }
{
    match edited {
        Ok(edited) => Ok(Edited {
            content: edited.content,
            added: edited.added,
            answer: Val::None,
        }),
        Err(reason) => Err(Miss::Because(reason)),
    }
}

/// A list without the item at an index, which is the value.
fn without_place(items: Seq<Val>, place: usize) -> Result<Edited, Fault>
    ensures { result ≡ spec.without_place items place }
{
    match items.items().get(place).copied() {
        Some(item) => Ok(without_item(items, place, item)),
        None => Err(Fault::Index),
    }
}

fn without_item(items: Seq<Val>, place: usize, item: Val) -> Edited
    ensures { result ≡ spec.left_with (remove items place) 0 item }
{
    let mut rest = items.into_vec();
    if place < rest.len() {
        rest.remove(place);
    }
    Edited {
        content: Cell::List(Seq::of_vec(rest)),
        added: 0,
        answer: item,
    }
}
