//! The library that an evaluation computes with.
ghost use Rattle.std.specs.Prelude.{◌≡◌};
ghost use Rattle.star_library.specs.Calls.{Builds};
ghost use Rattle.star_meaning.specs.Libraries.{Rows};

use bz_text::May;
use star_core::{Args, BinOp, Fault, Heap, UnOp, Val};

/// The operators of the language and the calls of its library. `rows` is what they do.
pub trait Library {
    ghost rows: { Rows };

    fn unary(&self, heap: &mut Heap, op: UnOp, operand: &Val) -> May<Val, Fault>
        ensures { Builds (rows.unary op operand.now heap.old) result heap.new };

    fn binary(&self, heap: &mut Heap, op: BinOp, left: &Val, right: &Val) -> May<Val, Fault>
        ensures { Builds (rows.binary op left.now right.now heap.old) result heap.new };

    /// An element of a container, by its index or its key.
    fn index(&self, heap: &mut Heap, of: &Val, at: &Val) -> May<Val, Fault>
        ensures { Builds (rows.index of.now at.now heap.old) result heap.new };

    /// The elements between two bounds, each so many behind the other; None is no bound.
    fn slice(&self, heap: &mut Heap, of: &Val, first: Val, last: Val, by: Val) -> May<Val, Fault>
        ensures { Builds (rows.slice of.now first last by heap.old) result heap.new };

    /// Puts a value in the place of a container's element.
    fn set_index(&self, heap: &mut Heap, of: &Val, at: &Val, new: Val) -> May<(), Fault>
        ensures { Builds (rows.set_index of.now at.now new heap.old) result heap.new };

    /// Puts the items of an iterable behind those of a list.
    fn extend(&self, heap: &mut Heap, list: &Val, by: &Val) -> May<(), Fault>
        ensures { Builds (rows.extend list.now by.now heap.old) result heap.new };

    /// Puts the entries of a dictionary into another.
    fn merge(&self, heap: &mut Heap, dict: &Val, by: &Val) -> May<(), Fault>
        ensures { Builds (rows.merge dict.now by.now heap.old) result heap.new };

    /// A call of a function of the library, or of a method of a value.
    fn call(&self, heap: &mut Heap, f: &Val, args: &Args) -> May<Val, Fault>
        ensures { Builds (rows.call f.now args.now heap.old) result heap.new };

    /// Whether such a call calls back or asks the host.
    fn calls_back(&self, heap: &Heap, f: &Val, args: &Args) -> bool
        ensures { result ≡ rows.calls_back f.now args.now heap.now };
}
