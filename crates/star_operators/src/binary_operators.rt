//! The binary operators.
ghost use Rattle.std.specs.Prelude.{◌≡◌, ◌++◌, IfOk, option_copied};
ghost use Rattle.std.specs.Ordering.{is_ge, is_gt, is_le, is_lt};
ghost use Rattle.bz_text.specs.Answers.{Gives};
ghost use Rattle.star_core.specs.Heaps.{cell_at};
ghost use Rattle.star_library.specs.Calls.{Builds};
ghost use Rattle.star_operators.specs.Binary as spec;
ghost use Rattle.star_operators.specs.Binary.{binary_of, ordered};
ghost use Rattle.star_operators.specs.Members as members;
ghost use Rattle.star_operators.specs.Outcomes as outcomes;
ghost use Rattle.star_operators.specs.Outcomes.{truth_came};

use crate::members::among;
use crate::outcomes::{Outcome, finish, number, turned};
use crate::repeating::repeats;
use crate::uniting::united;
use bz_text::{May, Mem, Miss, Seq, Txt};
use star_core::{BinOp, Cell, Fault, Heap, Val};
use star_numbers::integers as integers;
use star_order::{equal, order};
use std::alloc::Global;
use std::cmp::Ordering;

/// A binary operator on two values.
pub fn binary(heap: &mut Heap, op: BinOp, left: &Val, right: &Val) -> May<Val, Fault>
    ensures { Builds (binary_of op left.now right.now heap.old) result heap.new }
{
    match binary_came(heap.alloc(), heap, op, left, right) {
        Ok(outcome) => finish(heap, outcome),
        Err(miss) => Err(miss),
    }
}

#[tactic(auto, unfolding(crate::specs::Binary::binary_came))]
fn binary_came(
    alloc: Global,
    heap: &Heap,
    op: BinOp,
    left: &Val,
    right: &Val,
) -> May<Outcome, Fault>
    ensures { Gives (spec.binary_came op heap.now left.now right.now) result }
{
    match op {
        BinOp::Or | BinOp::And => Err(Miss::Because(Fault::Kind)),
        BinOp::Add => added(alloc, heap, left, right),
        BinOp::Mul => multiplied(alloc, heap, left, right),
        BinOp::BitOr => either(alloc, heap, left, right),
        BinOp::Eq
        | BinOp::Ne
        | BinOp::Lt
        | BinOp::Gt
        | BinOp::Le
        | BinOp::Ge
        | BinOp::Within
        | BinOp::NotWithin => test_came(alloc, heap, op, left, right),
        BinOp::BitXor
        | BinOp::BitAnd
        | BinOp::Shl
        | BinOp::Shr
        | BinOp::Sub
        | BinOp::Div
        | BinOp::Mod => computed_came(heap, op, left, right),
    }
}

/// An operator that compares, or membership.
fn test_came(alloc: Global, heap: &Heap, op: BinOp, left: &Val, right: &Val) -> May<Outcome, Fault>
    ensures { Gives (truth_came (spec.tested op heap.now left.now right.now)) result }
{
    Ok(Outcome::Known(Val::Bool(tested(alloc, heap, op, left, right)?)))
}

#[tactic(auto, unfolding(crate::specs::Binary::tested))]
fn tested(alloc: Global, heap: &Heap, op: BinOp, left: &Val, right: &Val) -> May<bool, Fault>
    ensures { Gives (spec.tested op heap.now left.now right.now) result }
{
    match op {
        BinOp::Eq => given(equal(heap, left, right)),
        BinOp::Ne => given(turned(equal(heap, left, right))),
        BinOp::Lt => given(less(order(heap, left, right))),
        BinOp::Gt => given(greater(order(heap, left, right))),
        BinOp::Le => given(at_most(order(heap, left, right))),
        BinOp::Ge => given(at_least(order(heap, left, right))),
        BinOp::Within => among(alloc, heap, left, heap.cell(right)),
        BinOp::NotWithin => not_among(alloc, heap, left, heap.cell(right)),
        _ => Err(Miss::Because(Fault::Kind)),
    }
}

/// An answer that takes no memory.
fn given<T>(answer: Result<T, Fault>) -> May<T, Fault>
    ensures { Gives answer result }
{
    match answer {
        Ok(value) => Ok(value),
        Err(reason) => Err(Miss::Because(reason)),
    }
}

fn not_among(alloc: Global, heap: &Heap, value: &Val, held: Option<&Cell>) -> May<bool, Fault>
    ensures { Gives (outcomes.turned (members.among heap.now value.now (option_copied held.entry)))
        result }
{
    Ok(!among(alloc, heap, value, held)?)
}

fn less(order: Result<Ordering, Fault>) -> Result<bool, Fault>
    ensures { result ≡ ordered is_lt order }
{
    match order {
        Ok(order) => Ok(order.is_lt()),
        Err(reason) => Err(reason),
    }
}

fn greater(order: Result<Ordering, Fault>) -> Result<bool, Fault>
    ensures { result ≡ ordered is_gt order }
{
    match order {
        Ok(order) => Ok(order.is_gt()),
        Err(reason) => Err(reason),
    }
}

fn at_most(order: Result<Ordering, Fault>) -> Result<bool, Fault>
    ensures { result ≡ ordered is_le order }
{
    match order {
        Ok(order) => Ok(order.is_le()),
        Err(reason) => Err(reason),
    }
}

fn at_least(order: Result<Ordering, Fault>) -> Result<bool, Fault>
    ensures { result ≡ ordered is_ge order }
{
    match order {
        Ok(order) => Ok(order.is_ge()),
        Err(reason) => Err(reason),
    }
}

/// An operator on integers alone.
#[tactic(auto, unfolding(crate::specs::Binary::computed_came, crate::specs::Binary::operands))]
fn computed_came(heap: &Heap, op: BinOp, left: &Val, right: &Val) -> May<Outcome, Fault>
    ensures { Gives (spec.computed_came op heap.now left.now right.now) result }
{
    match (*left, *right) {
        (Val::Int(left), Val::Int(right)) => given(number(computed(op, left, right))),
        _ => Err(Miss::Because(Fault::Kind)),
    }
}

#[tactic(auto, unfolding(crate::specs::Binary::computed))]
fn computed(op: BinOp, left: i64, right: i64) -> Result<i64, Fault>
    ensures { result ≡ spec.computed op left right }
{
    match op {
        BinOp::BitXor => Ok(integers::bits_of_one(left, right)),
        BinOp::BitAnd => Ok(integers::bits_of_both(left, right)),
        BinOp::Shl => integers::shifted_left(left, right),
        BinOp::Shr => integers::shifted_right(left, right),
        BinOp::Sub => integers::difference(left, right),
        BinOp::Div => integers::quotient(left, right),
        BinOp::Mod => integers::remainder(left, right),
        _ => Err(Fault::Kind),
    }
}

/// Integers are added, other values joined.
#[tactic(auto, unfolding(crate::specs::Binary::operands))]
fn added(alloc: Global, heap: &Heap, left: &Val, right: &Val) -> May<Outcome, Fault>
    ensures { Gives (spec.added heap.now left.now right.now) result }
{
    match (*left, *right) {
        (Val::Int(left), Val::Int(right)) => given(number(integers::sum(left, right))),
        (Val::Cell(_), Val::Cell(_)) => joined(alloc, heap.cell(left), heap.cell(right)),
        _ => Err(Miss::Because(Fault::Kind)),
    }
}

#[tactic(auto, unfolding(crate::specs::Binary::joined))]
fn joined(alloc: Global, left: Option<&Cell>, right: Option<&Cell>) -> May<Outcome, Fault>
    ensures { Gives (spec.joined (option_copied left.entry) (option_copied right.entry)) result }
{
    match (left, right) {
        (Some(Cell::Text(left)), Some(Cell::Text(right))) => {
            Ok(Outcome::New(Cell::Text(joined_text(alloc, left.as_str(), right.as_str())?)))
        }
        (Some(Cell::List(left)), Some(Cell::List(right))) => {
            Ok(Outcome::New(Cell::List(joined_items(alloc, left.items(), right.items())?)))
        }
        (Some(Cell::Tuple(left)), Some(Cell::Tuple(right))) => {
            Ok(Outcome::New(Cell::Tuple(joined_items(alloc, left.items(), right.items())?)))
        }
        _ => Err(Miss::Because(Fault::Kind)),
    }
}

fn joined_text(alloc: Global, left: &str, right: &str) -> Mem<Txt>
    ensures { IfOk result (λ text. text ≡ left.now ++ right.now) }
{
    let mut text = String::from_str(alloc, left)?;
    text.push_str(right)?;
    Ok(Txt::of_string(text))
}

fn joined_items(alloc: Global, left: &[Val], right: &[Val]) -> Mem<Seq<Val>>
    ensures { IfOk result (λ items. items ≡ left.now ++ right.now) }
{
    let mut items = Vec::from_slice(alloc, left)?;
    items.extend_from_slice(right)?;
    Ok(Seq::of_vec(items))
}

/// Two integers are multiplied; a string, a list or a tuple repeats.
#[tactic(auto, unfolding(crate::specs::Binary::multiplied))]
fn multiplied(alloc: Global, heap: &Heap, left: &Val, right: &Val) -> May<Outcome, Fault>
    ensures { Gives (spec.multiplied heap.now left.now right.now) result }
{
    match (*left, *right) {
        (Val::Int(left), Val::Int(right)) => given(number(integers::product(left, right))),
        (Val::Int(count), Val::Cell(_)) => repeats(alloc, heap.cell(right), count),
        (Val::Cell(_), Val::Int(count)) => repeats(alloc, heap.cell(left), count),
        _ => Err(Miss::Because(Fault::Kind)),
    }
}

/// The bits of either integer, or the entries of two dictionaries.
#[tactic(auto, unfolding(crate::specs::Binary::operands))]
fn either(alloc: Global, heap: &Heap, left: &Val, right: &Val) -> May<Outcome, Fault>
    ensures { Gives (spec.either heap.now left.now right.now) result }
{
    match (*left, *right) {
        (Val::Int(left), Val::Int(right)) => {
            Ok(Outcome::Known(Val::Int(integers::bits_of_either(left, right))))
        }
        (Val::Cell(_), Val::Cell(_)) => dicts_united(alloc, heap.cell(left), heap.cell(right)),
        _ => Err(Miss::Because(Fault::Kind)),
    }
}

#[tactic(auto, unfolding(crate::specs::Binary::dicts_united))]
fn dicts_united(alloc: Global, left: Option<&Cell>, right: Option<&Cell>) -> May<Outcome, Fault>
    ensures { Gives (spec.dicts_united (option_copied left.entry) (option_copied right.entry))
        result }
{
    match (left, right) {
        (Some(Cell::Dict(left)), Some(Cell::Dict(right))) => {
            Ok(Outcome::New(Cell::Dict(united(alloc, left, right)?)))
        }
        _ => Err(Miss::Because(Fault::Kind)),
    }
}
