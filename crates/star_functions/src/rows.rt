//! Calls of functions.
ghost use Rattle.star_functions.specs.Rows.{function_row};
ghost use Rattle.star_library.specs.Calls.{Builds};
ghost use Rattle.star_functions.specs.Answers as answers;
ghost use Rattle.star_operators.specs.Outcomes.{finished};

use crate::answers::function_came;
use crate::functions::LibraryFunction;
use crate::tuples::{enumerate, zip};
use bz_text::May;
use star_core::{Args, Fault, Heap, Val};
use star_dicts::new_dict;
use star_operators::outcomes::finish;

/// A call of a function of the library.
#[tactic(auto, unfolding(crate::specs::Rows::function_row))]
pub fn function_call(heap: &mut Heap, function: LibraryFunction, args: &Args) -> May<Val, Fault>
    ensures { Builds (function_row function args.now heap.old) result heap.new }
{
    match function {
        LibraryFunction::Dict => new_dict(heap, args),
        LibraryFunction::Enumerate => enumerate(heap, args),
        LibraryFunction::Zip => zip(heap, args),
        other => answer(heap, other, args),
    }
}

fn answer(heap: &mut Heap, function: LibraryFunction, args: &Args) -> May<Val, Fault>
    ensures { Builds (finished (answers.function_came function heap.old args.now) heap.old) result
        heap.new }
{
    match function_came(heap, function, args) {
        Ok(outcome) => finish(heap, outcome),
        Err(miss) => Err(miss),
    }
}
