//! Texts of a heap, and new cells of it.
ghost use Rattle.std.specs.Prelude.{◌≡◌};
ghost use Rattle.std.specs.Option.{option_copied};
ghost use Rattle.star_core.specs.Contents.{text_in};
ghost use Rattle.star_core.specs.Heaps.{cell_at};
ghost use Rattle.star_library.specs.Calls.{Builds, list_made, text_made, tuple_made};

use bz_text::{May, Seq, Txt};
use star_core::{Cell, Fault, Heap, Val};

/// The text of a string; None of another value.
pub fn text_of<'h>(heap: &'h Heap, val: &Val) -> Option<&'h str>
    ensures { option_copied result ≡ text_in (cell_at heap.now val.now) }
{
    match heap.cell(val) {
        Some(Cell::Text(text)) => Some(text.as_str()),
        _ => None,
    }
}

/// A new string.
pub fn make_text(heap: &mut Heap, text: Txt) -> May<Val, Fault>
    ensures { Builds (text_made text heap.old) result heap.new }
{
    heap.make(Cell::Text(text))
}

/// A new list.
pub fn make_list(heap: &mut Heap, items: Seq<Val>) -> May<Val, Fault>
    ensures { Builds (list_made items heap.old) result heap.new }
{
    heap.make(Cell::List(items))
}

/// A new tuple.
pub fn make_tuple(heap: &mut Heap, items: Seq<Val>) -> May<Val, Fault>
    ensures { Builds (tuple_made items heap.old) result heap.new }
{
    heap.make(Cell::Tuple(items))
}
