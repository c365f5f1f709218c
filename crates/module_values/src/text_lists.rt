//! Lists of strings in a heap.
ghost use Rattle.std.specs.Prelude.{◌≡◌, IfOk};
ghost use Rattle.std.specs.Option.{option_copied};
ghost use Rattle.module_values.specs.TextLists as spec;

use bz_text::{Mem, Seq, Txt};
use star_core::{Cell, Heap, Val};
use star_library::text_of;
use std::alloc::Global;

/// The texts of a list or a tuple of strings; None of every other value.
pub fn texts_of(alloc: Global, heap: &Heap, value: &Val) -> Mem<Option<Seq<Txt>>>
    ensures { IfOk result (λ texts. texts ≡ spec.texts_of heap.now value.now) }
{
    texts_in(alloc, heap, heap.cell(value))
}

#[tactic(auto, unfolding(crate::specs::TextLists::texts_in))]
fn texts_in(alloc: Global, heap: &Heap, cell: Option<&Cell>) -> Mem<Option<Seq<Txt>>>
    ensures { IfOk result (λ texts. texts ≡ spec.texts_in heap.now (option_copied cell.entry)) }
{
    match cell {
        Some(Cell::List(items)) => each_text(alloc, heap, items.items()),
        Some(Cell::Tuple(items)) => each_text(alloc, heap, items.items()),
        _ => Ok(None),
    }
}

/// The texts of strings; None where some value is no string.
pub fn each_text(alloc: Global, heap: &Heap, values: &[Val]) -> Mem<Option<Seq<Txt>>>
    ensures { IfOk result (λ texts. texts ≡ spec.each_text heap.now values.now) }
{
    let mut texts = Vec::new(alloc);
    'reading: for value in values {
        match text_of(heap, value) {
            None => return Ok(None),
            Some(text) => texts.push(Txt::of(alloc, text)?)?,
        }
    }
    Ok(Some(Seq::of_vec(texts)))
}
