//! Calls of functions and of methods.
ghost use Rattle.std.specs.Prelude.{◌≡◌, option_copied};
ghost use Rattle.star_coll.specs.Calls as spec;
ghost use Rattle.star_coll.specs.Calls.{coll_row, method_named};
ghost use Rattle.star_library.specs.Calls.{Builds};

use bz_text::{May, Miss};
use star_core::{Args, Cell, Fault, Heap, Val};
use star_dicts::{DictMethod, dict_call};
use star_functions::{LibraryFunction, function_call};
use star_lists::{ListMethod, list_call};

/// A function of the library, or a method of lists or of dictionaries.
#[derive(Clone, Copy, Debug, PartialEq, Eq)]
pub enum CollFn {
    Function(LibraryFunction),
    List(ListMethod),
    Dict(DictMethod),
}

impl CollFn {
    /// The function of a name.
    pub fn function(name: &str) -> Option<CollFn>
        ensures { result ≡ spec.function_named name.now }
    {
        Some(CollFn::Function(LibraryFunction::of(name)?))
    }

    /// The method of a name that a value has.
    pub fn method(heap: &Heap, receiver: &Val, name: &str) -> Option<CollFn>
        ensures { result ≡ method_named heap.now receiver.now name.now }
    {
        method_in(heap.cell(receiver), name)
    }
}

#[tactic(auto, unfolding(crate::specs::Calls::method_in))]
fn method_in(cell: Option<&Cell>, name: &str) -> Option<CollFn>
    ensures { result ≡ spec.method_in (option_copied cell.entry) name.now }
{
    match cell {
        Some(Cell::List(_)) => Some(CollFn::List(ListMethod::of(name)?)),
        Some(Cell::Dict(_)) => Some(CollFn::Dict(DictMethod::of(name)?)),
        _ => None,
    }
}

/// A call of a function or of a method.
#[tactic(auto, unfolding(crate::specs::Calls::coll_row))]
pub fn coll_call(
    heap: &mut Heap,
    function: CollFn,
    receiver: Option<&Val>,
    args: &Args,
) -> May<Val, Fault>
    ensures { Builds (coll_row function (option_copied receiver.entry) args.now heap.old) result
        heap.new }
{
    match (function, receiver) {
        (CollFn::Function(called), _) => function_call(heap, called, args),
        (CollFn::List(method), Some(list)) => list_call(heap, method, list, args),
        (CollFn::Dict(method), Some(dict)) => dict_call(heap, method, dict, args),
        (CollFn::List(_), None) | (CollFn::Dict(_), None) => Err(Miss::Because(Fault::Kind)),
    }
}
