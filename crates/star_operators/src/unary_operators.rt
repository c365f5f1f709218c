//! The unary operators.
ghost use Rattle.std.specs.Prelude.{◌≡◌};
ghost use Rattle.bz_text.specs.Answers.{Gives};
ghost use Rattle.star_library.specs.Calls.{Builds};
ghost use Rattle.star_operators.specs.Outcomes.{number_came};
ghost use Rattle.star_operators.specs.Unary.{unary_came, unary_of};

use crate::outcomes::{Outcome, finish, number};
use bz_text::{May, Miss};
use star_core::{Fault, Heap, UnOp, Val};
use star_library::truth;
use star_numbers::integers::{inverted, negated};

/// A unary operator on a value.
pub fn unary(heap: &mut Heap, op: UnOp, operand: &Val) -> May<Val, Fault>
    ensures { Builds (unary_of op operand.now heap.old) result heap.new }
{
    match unary_came(heap, op, operand) {
        Ok(outcome) => finish(heap, outcome),
        Err(reason) => Err(Miss::Because(reason)),
    }
}

fn unary_came(heap: &Heap, op: UnOp, operand: &Val) -> Result<Outcome, Fault>
    ensures { result ≡ unary_came op heap.now operand.now }
{
    match (op, *operand) {
        (UnOp::Not, _) => Ok(Outcome::Known(Val::Bool(!truth(heap, operand)))),
        (UnOp::Plus, Val::Int(value)) => number(Ok(value)),
        (UnOp::Minus, Val::Int(value)) => number(negated(value)),
        (UnOp::Invert, Val::Int(value)) => number(inverted(value)),
        _ => Err(Fault::Kind),
    }
}
