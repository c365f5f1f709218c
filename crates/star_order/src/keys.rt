//! Contents of keys: the texts under which dictionaries find them.
ghost use Rattle.std.specs.Prelude.{◌≡◌, ◌∷◌, IfNone, IfOk, IfSome, None, Ok, Some};
ghost use Rattle.std.specs.Prelude.{option_copied};
ghost use Rattle.bz_text.specs.Answers.{Gives};
ghost use Rattle.star_core.specs.Contents as contents;
ghost use Rattle.star_core.specs.Contents.{marked, text_in};
ghost use Rattle.star_core.specs.Heaps.{cell_at};
ghost use Rattle.star_order.specs.Keys as spec;
ghost use Rattle.star_order.specs.Keys.{pair_found};
ghost use Rattle.star_trees.specs.Nesting.{deepest};

use crate::contents::content_within;
use bz_text::{May, Mem, Txt};
use star_core::{Cell, Dict, Fault, Heap, Pair, Val};
use std::alloc::Global;

/// How deep tuples may nest in a key.
pub const DEEPEST: u32 = 128;

/// The text under which a dictionary finds a key.
pub fn key_content(alloc: Global, heap: &Heap, key: &Val) -> May<Txt, Fault>
    ensures { Gives (contents.key_content heap.now key.now) result }
{
    match text_of(heap.cell(key)) {
        Some(text) => Ok(text_content(alloc, text)?),
        None => marked_content(alloc, heap, key),
    }
}

/// The pair that a dictionary has under a key.
pub fn find(alloc: Global, heap: &Heap, dict: &Dict, key: &Val) -> May<Option<Pair>, Fault>
    ensures { Gives (pair_found (contents.key_content heap.now key.now) dict.now) result }
{
    match plain_text(heap, key) {
        Some(text) => Ok(dict.get(text).copied()),
        None => find_content(alloc, heap, dict, key),
    }
}

fn find_content(alloc: Global, heap: &Heap, dict: &Dict, key: &Val) -> May<Option<Pair>, Fault>
    ensures { Gives (pair_found (contents.key_content heap.now key.now) dict.now) result }
{
    let content = key_content(alloc, heap, key)?;
    Ok(dict.get(content.as_str()).copied())
}

/// The string of a value, where a dictionary finds it by itself.
pub fn plain_text<'h>(heap: &'h Heap, key: &Val) -> Option<&'h str>
    ensures absent { IfNone result (spec.plain_text (cell_at heap.now key.now) ≡ None) }
    ensures text { IfSome result (λ it. spec.plain_text (cell_at heap.now key.now) ≡ Some it.now) }
    ensures content { IfSome result (λ text. contents.key_content heap.now key.now ≡ Ok text.now) }
{
    let text = text_of(heap.cell(key))?;
    own_content(text)
}

/// A string that doesn't begin with the sign of other contents.
fn own_content(text: &str) -> Option<&str>
    ensures absent { IfNone result (spec.own_content text.now ≡ None) }
    ensures own { IfSome result (λ own. spec.own_content text.now ≡ Some own.now) }
    ensures content { IfSome result (λ own. contents.text_content text.now ≡ own.now) }
{
    if begins_with_sign(text) {
        None
    } else {
        Some(text)
    }
}

/// The string of a cell.
fn text_of(cell: Option<&Cell>) -> Option<&str>
    ensures absent { IfNone result (text_in (option_copied cell.entry) ≡ None) }
    ensures text { IfSome result (λ text. text_in (option_copied cell.entry) ≡ Some text.now) }
{
    match cell {
        Some(Cell::Text(text)) => Some(text.as_str()),
        _ => None,
    }
}

/// Whether a string begins with the sign that stands before other contents.
fn begins_with_sign(text: &str) -> bool
    ensures { result ≡ spec.begins_with_sign text.now }
{
    match text.as_bytes() {
        [first, ..] => *first == 1,
        [] => false,
    }
}

fn text_content(alloc: Global, text: &str) -> Mem<Txt>
    ensures { IfOk result (λ content. content ≡ contents.text_content text.now) }
{
    if begins_with_sign(text) {
        signed_content(alloc, text)
    } else {
        Txt::of(alloc, text)
    }
}

/// A string behind the sign and the letter of strings.
fn signed_content(alloc: Global, text: &str) -> Mem<Txt>
    ensures { IfOk result (λ content. content ≡ 1 ∷ 115 ∷ text.now) }
{
    let mut content = String::from_str(alloc, "\x01s")?;
    content.push_str(text)?;
    Ok(Txt::of_string(content))
}

/// A content behind the sign.
fn marked_content(alloc: Global, heap: &Heap, key: &Val) -> May<Txt, Fault>
    ensures { Gives (marked (contents.content_within deepest heap.now key.now)) result }
{
    let mut content = String::from_str(alloc, "\x01")?;
    content_within(&mut content, heap, key, DEEPEST)?;
    Ok(Txt::of_string(content))
}
