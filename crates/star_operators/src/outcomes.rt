//! What operators come to.
ghost use Rattle.std.specs.Prelude.{◌≡◌, Ok};
ghost use Rattle.star_library.specs.Calls.{Builds};
ghost use Rattle.star_operators.specs.Outcomes.{finished, number_came};
ghost use Rattle.star_operators.specs.Outcomes as spec;

use bz_text::May;
use star_core::{Cell, Fault, Heap, Val};

/// A value that is there, or a cell that is to be made.
#[derive(Drop)]
pub enum Outcome {
    Known(Val),
    New(Cell),
}

/// Makes the cell of an outcome.
pub fn finish(heap: &mut Heap, outcome: Outcome) -> May<Val, Fault>
    ensures { Builds (finished (Ok outcome) heap.old) result heap.new }
{
    match outcome {
        Outcome::Known(value) => Ok(value),
        Outcome::New(cell) => heap.make(cell),
    }
}

/// A number, or why there is none.
pub fn number(computed: Result<i64, Fault>) -> Result<Outcome, Fault>
    ensures { result ≡ number_came computed }
{
    match computed {
        Ok(number) => Ok(Outcome::Known(Val::Int(number))),
        Err(reason) => Err(reason),
    }
}

/// The other truth.
pub fn turned(flag: Result<bool, Fault>) -> Result<bool, Fault>
    ensures { result ≡ spec.turned flag }
{
    match flag {
        Ok(flag) => Ok(!flag),
        Err(reason) => Err(reason),
    }
}
