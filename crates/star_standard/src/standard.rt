//! The standard library.
ghost use Rattle.std.specs.Prelude.{◌≡◌, option_copied};
ghost use Rattle.star_library.specs.Calls.{Builds};
ghost use Rattle.star_standard.specs.Standards as spec;

use crate::calls::{calls_back, library_call};
use bz_text::May;
use star_containers::{extend, merge, set_index, slice};
use star_core::{Args, BinOp, Fault, Heap, UnOp, Val};
use star_format::percent;
use star_library::text_of;
use star_meaning::Library;
use star_operators::{binary, index, unary};

/// Starlark's operators, functions and methods.
#[derive(Clone, Copy, Debug)]
pub struct Standard;

impl Library for Standard {
    ghost use Rattle.star_standard.specs.Standards.{standard_rows};

    ghost rows = { standard_rows };

    fn unary(&self, heap: &mut Heap, op: UnOp, operand: &Val) -> May<Val, Fault> {
        unary(heap, op, operand)
    }

    fn binary(&self, heap: &mut Heap, op: BinOp, left: &Val, right: &Val) -> May<Val, Fault> {
        operate(heap, op, left, right)
    }

    fn index(&self, heap: &mut Heap, of: &Val, at: &Val) -> May<Val, Fault> {
        index(heap, of, at)
    }

    fn slice(&self, heap: &mut Heap, of: &Val, first: Val, last: Val, by: Val) -> May<Val, Fault> {
        slice(heap, of, Some(first), Some(last), Some(by))
    }

    fn set_index(&self, heap: &mut Heap, of: &Val, at: &Val, new: Val) -> May<(), Fault> {
        set_index(heap, of, at, &new)
    }

    fn extend(&self, heap: &mut Heap, list: &Val, by: &Val) -> May<(), Fault> {
        extend(heap, list, by)
    }

    fn merge(&self, heap: &mut Heap, dict: &Val, by: &Val) -> May<(), Fault> {
        merge(heap, dict, by)
    }

    fn call(&self, heap: &mut Heap, f: &Val, args: &Args) -> May<Val, Fault> {
        library_call(heap, f, args)
    }

    fn calls_back(&self, heap: &Heap, f: &Val, args: &Args) -> bool {
        calls_back(heap, f, args)
    }
}

/// Whether an operator fills a pattern: `%` behind a string.
fn fills(op: BinOp, text: Option<&str>) -> bool
    ensures { result ≡ spec.fills op (option_copied text.entry) }
{
    match (op, text) {
        (BinOp::Mod, Some(_)) => true,
        _ => false,
    }
}

#[tactic(auto, unfolding(crate::specs::Standards::operated))]
fn operate(heap: &mut Heap, op: BinOp, left: &Val, right: &Val) -> May<Val, Fault>
    ensures { Builds (spec.operated op left.now right.now heap.old) result heap.new }
{
    if fills(op, text_of(heap, left)) {
        percent(heap, left, right)
    } else {
        binary(heap, op, left, right)
    }
}
