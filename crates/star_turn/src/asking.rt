//! Which instructions may call a host, and which object answers.
ghost use Rattle.std.specs.Prelude.{◌≡◌, slice_get};
ghost use Rattle.star_core.specs.Heaps.{cell_at};
ghost use Rattle.star_turn.specs.Asking as spec;

use star_code::Instr;
use star_core::{Cell, Heap, Stack, Val};

/// How an instruction may call a host: for a field, by the number of its name, or for a method,
/// with so many arguments, or with those that were gathered.
#[derive(Clone, Copy, Debug, PartialEq, Eq)]
pub enum Asking {
    Never,
    Field(usize),
    Method(usize),
    Gathered,
}

pub(crate) fn how_asked(instr: Instr) -> Asking
    ensures { result ≡ spec.asking_of instr }
{
    match instr {
        Instr::Attr(index) => Asking::Field(index),
        Instr::Call(count) => Asking::Method(count),
        Instr::CallGathered => Asking::Gathered,
        _ => Asking::Never,
    }
}

/// The value below so many topmost ones.
pub(crate) fn value_below(stack: &Stack<Val>, count: usize) -> Option<Val>
    ensures { result ≡ slice_get stack.now count }
{
    value_before(stack.top_last(), count)
}

/// The value before so many last ones.
#[tactic(auto, using(crate::proofs::Depths::before_in, crate::proofs::Depths::before_past))]
fn value_before(values: &[Val], count: usize) -> Option<Val>
    ensures { result ≡ spec.before_last count values.now }
{
    if count < values.len() {
        values.get(values.len() - 1 - count).copied()
    } else {
        None
    }
}

/// The number of an object that answers for itself.
pub(crate) fn object(heap: &Heap, val: &Val) -> Option<u32>
    ensures { result ≡ spec.object_of heap.now val.now }
{
    let Val::Cell(number) = *val else {
        return None;
    };
    match heap.cell(val) {
        Some(Cell::Host { kind: _, fields: _ }) => Some(number),
        Some(
            Cell::Path {
                repo: _,
                segments: _,
            },
        ) => Some(number),
        _ => None,
    }
}

/// The number of the object that a call of a value calls.
pub(crate) fn called_object(heap: &Heap, f: &Val) -> Option<u32>
    ensures { result ≡ spec.called_object heap.now f.now }
{
    let Val::Cell(number) = *f else {
        return None;
    };
    match heap.cell(f) {
        Some(Cell::Host { kind: _, fields: _ }) => Some(number),
        Some(
            Cell::Bound {
                receiver,
                method: _,
            },
        ) => object(heap, receiver),
        _ => None,
    }
}

/// The name of the method that a call of a value calls; none where the object itself is called.
pub(crate) fn called_method<'a>(heap: &'a Heap, f: &Val) -> &'a str
    ensures { result.now ≡ spec.called_method (cell_at heap.now f.now) }
{
    match heap.cell(f) {
        Some(
            Cell::Bound {
                receiver: _,
                method,
            },
        ) => method.as_str(),
        _ => "",
    }
}
