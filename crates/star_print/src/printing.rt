//! `str` and `repr`: one recursion over the values that a value holds.
ghost use Rattle.std.specs.Prelude.{◌≡◌, IfOk, Ok};
ghost use Rattle.std.specs.Option.{option_copied};
ghost use Rattle.bz_text.specs.Answers.{Gives};
ghost use Rattle.star_core.specs.Heaps.{cell_at};
ghost use Rattle.star_print.specs.Prints as spec;
ghost use Rattle.star_print.specs.Prints.{bare_text, repr_of, str_of};

use crate::forms::{Brackets, Form, Piece, form_of};
use crate::writing::extended;
use bz_base::label_string;
use bz_text::{May, Mem, Miss, Txt};
use star_core::{Cell, Fault, Heap, Val};
use std::alloc::Global;

/// How many containers may nest in a value that prints.
const DEEPEST: u32 = 128;

/// The text of a value, of which a string is its own.
#[tactic(auto, unfolding(crate::specs::Prints::str_of))]
pub fn to_str(heap: &Heap, val: &Val) -> May<Txt, Fault>
    ensures { Gives (str_of heap.now val.now) result }
{
    match bare(heap.alloc(), heap.cell(val))? {
        Some(text) => Ok(text),
        None => to_repr(heap, val),
    }
}

/// The text that spells a value.
#[tactic(auto, unfolding(crate::specs::Prints::repr_of))]
pub fn to_repr(heap: &Heap, val: &Val) -> May<Txt, Fault>
    ensures { Gives (repr_of heap.now val.now) result }
{
    let alloc = heap.alloc();
    let empty = Txt::of_string(String::new(alloc));
    repr_within(alloc, heap, DEEPEST, val, empty)
}

fn bare(alloc: Global, cell: Option<&Cell>) -> Mem<Option<Txt>>
    ensures { IfOk result (λ text. text ≡ bare_text (option_copied cell.entry)) }
{
    match cell {
        Some(Cell::Text(text)) => Ok(Some(text.copy(alloc)?)),
        Some(Cell::Label(label)) => Ok(Some(Txt::of_string(label_string(alloc, label)?))),
        _ => Ok(None),
    }
}

#[cycle(showing)]
#[tactic(auto, using(crate::proofs::Layers::layers))]
fn repr_within(alloc: Global, heap: &Heap, depth: u32, val: &Val, text: Txt) -> May<Txt, Fault>
    ensures { Gives (spec.repr_within depth heap.now val.now text) result }
{
    match form_of(alloc, heap, val)? {
        Form::Whole(whole) => extended(text, whole.as_str()),
        Form::Container { brackets, pieces } => {
            container_within(alloc, heap, depth, brackets, pieces.items(), text)
        }
    }
}

#[cycle(showing)]
fn container_within(
    alloc: Global,
    heap: &Heap,
    depth: u32,
    brackets: Brackets,
    pieces: &[Piece],
    text: Txt,
) -> May<Txt, Fault>
    ensures { Gives (spec.container_behind (spec.pieces_within depth heap.now) brackets pieces.now text)
        result }
{
    let opened = extended(text, brackets.opening())?;
    let inside = pieces_within(alloc, heap, depth, pieces, opened)?;
    extended(inside, brackets.closing())
}

#[cycle(showing)]
#[tactic(auto, unfolding(crate::specs::Prints::pieces_within), using(crate::proofs::Layers::layers))]
fn pieces_within(
    alloc: Global,
    heap: &Heap,
    depth: u32,
    pieces: &[Piece],
    text: Txt,
) -> May<Txt, Fault>
    ensures { Gives (spec.pieces_within depth heap.now pieces.now text) result }
{
    if depth == 0 {
        return Err(Miss::Because(Fault::Depth));
    }
    pieces_behind(alloc, heap, depth - 1, pieces, text)
}

#[cycle(showing)]
fn pieces_behind(
    alloc: Global,
    heap: &Heap,
    depth: u32,
    pieces: &[Piece],
    text: Txt,
) -> May<Txt, Fault>
    ensures { Gives (spec.pieces_behind (spec.repr_within depth heap.now) pieces.now text) result }
{
    let mut written = text;
    'writing: for piece in pieces {
        match piece_within(alloc, heap, depth, piece, written) {
            Ok(more) => written = more,
            Err(miss) => return Err(miss),
        }
    }
    Ok(written)
}

#[cycle(showing)]
fn piece_within(alloc: Global, heap: &Heap, depth: u32, piece: &Piece, text: Txt) -> May<Txt, Fault>
    ensures { Gives (spec.piece_behind (spec.repr_within depth heap.now) piece.now text) result }
{
    match piece {
        Piece::Comma => extended(text, ", "),
        Piece::Colon => extended(text, ": "),
        Piece::Equals => extended(text, " = "),
        Piece::Name(name) => extended(text, name.as_str()),
        Piece::Shown(val) => repr_within(alloc, heap, depth, val, text),
    }
}
