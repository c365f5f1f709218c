//! What functions come to.
ghost use Rattle.std.specs.Prelude.{◌≡◌, Ok, reverse};
ghost use Rattle.std.specs.List.{list_all, list_any};
ghost use Rattle.bz_text.specs.Answers.{Gives};
ghost use Rattle.star_core.specs.Contents.{text_in};
ghost use Rattle.star_core.specs.Heaps.{cell_at};
ghost use Rattle.star_functions.specs.Answers as spec;
ghost use Rattle.star_library.specs.Kinds as kinds;
ghost use Rattle.star_print.specs.Prints as prints;

use crate::extremes::{extreme_came, print_came, sorted_came};
use crate::functions::LibraryFunction;
use crate::integers::{absolute_came, integer_came};
use crate::lengths::cell_length;
use crate::ranges::range_came;
use bz_text::{May, Miss, Seq, Txt};
use star_calls::{given_at, integer, needed_at, value_at};
use star_core::{Args, Cell, Fault, Heap, Val};
use star_library::{bind, items, text_of, truth, type_name};
use star_operators::Outcome;
use star_print::{to_repr, to_str};
use star_sorting::Direction;

/// What a function comes to.
#[tactic(auto, unfolding(crate::specs::Answers::function_came))]
pub(crate) fn function_came(
    heap: &Heap,
    function: LibraryFunction,
    args: &Args,
) -> May<Outcome, Fault>
    ensures { Gives (spec.function_came function heap.now args.now) result }
{
    match function {
        LibraryFunction::Max => extreme_came(heap, Direction::Descending, args),
        LibraryFunction::Min => extreme_came(heap, Direction::Ascending, args),
        LibraryFunction::Print => given(print_came(heap, args)),
        LibraryFunction::Range => given(range_came(args)),
        other => bound_came(heap, other, args),
    }
}

fn bound_came(heap: &Heap, function: LibraryFunction, args: &Args) -> May<Outcome, Fault>
    ensures { Gives (spec.bound_came function heap.now args.now) result }
{
    let values = bind(heap.alloc(), function.parameters(), args)?;
    answer_of(heap, function, values.items())
}

#[tactic(auto, unfolding(crate::specs::Answers::answer_of))]
fn answer_of(heap: &Heap, function: LibraryFunction, values: &[Option<Val>]) -> May<Outcome, Fault>
    ensures { Gives (spec.answer_of function heap.now values.now) result }
{
    match function {
        LibraryFunction::Abs => given(absolute_came(integer(needed_at(0, values)))),
        LibraryFunction::All => all_came(heap, &needed_at(0, values)),
        LibraryFunction::Any => any_came(heap, &needed_at(0, values)),
        LibraryFunction::Bool => Ok(truth_came(heap, value_at(0, values))),
        LibraryFunction::Int => {
            given(integer_came(heap, &needed_at(0, values), given_at(1, values)))
        }
        LibraryFunction::Len => given(cell_length(heap.cell(&needed_at(0, values)))),
        LibraryFunction::List => list_came(heap, value_at(0, values)),
        LibraryFunction::Repr => repr_came(heap, &needed_at(0, values)),
        LibraryFunction::Reversed => reversed_came(heap, &needed_at(0, values)),
        LibraryFunction::Sorted => sorted_came(heap, values),
        LibraryFunction::Str => string_came(heap, &needed_at(0, values)),
        LibraryFunction::Tuple => tuple_came(heap, value_at(0, values)),
        LibraryFunction::Type => type_came(heap, &needed_at(0, values)),
        _ => Err(Miss::Because(Fault::Kind)),
    }
}

/// An answer that takes no memory.
fn given(answer: Result<Outcome, Fault>) -> May<Outcome, Fault>
    ensures { Gives answer result }
{
    match answer {
        Ok(outcome) => Ok(outcome),
        Err(reason) => Err(Miss::Because(reason)),
    }
}

fn are_true(heap: &Heap, items: &[Val]) -> bool
    ensures { result ≡ list_all (kinds.is_true heap.now) items.now }
{
    items.iter().all(|item| truth(heap, item))
}

fn is_one_true(heap: &Heap, items: &[Val]) -> bool
    ensures { result ≡ list_any (kinds.is_true heap.now) items.now }
{
    items.iter().any(|item| truth(heap, item))
}

fn all_came(heap: &Heap, value: &Val) -> May<Outcome, Fault>
    ensures { Gives (spec.all_came heap.now (kinds.items_of heap.now value.now)) result }
{
    let items = items(heap.alloc(), heap, value)?;
    Ok(Outcome::Known(Val::Bool(are_true(heap, items.items()))))
}

fn any_came(heap: &Heap, value: &Val) -> May<Outcome, Fault>
    ensures { Gives (spec.any_came heap.now (kinds.items_of heap.now value.now)) result }
{
    let items = items(heap.alloc(), heap, value)?;
    Ok(Outcome::Known(Val::Bool(is_one_true(heap, items.items()))))
}

fn truth_came(heap: &Heap, value: Option<Val>) -> Outcome
    ensures { Ok result ≡ spec.truth_came heap.now value }
{
    match value {
        Some(value) => Outcome::Known(Val::Bool(truth(heap, &value))),
        None => Outcome::Known(Val::Bool(false)),
    }
}

fn items_or_none(heap: &Heap, value: Option<Val>) -> May<Seq<Val>, Fault>
    ensures { Gives (spec.items_or_none heap.now value) result }
{
    match value {
        Some(value) => items(heap.alloc(), heap, &value),
        None => Ok(Seq::new(heap.alloc())),
    }
}

fn list_came(heap: &Heap, value: Option<Val>) -> May<Outcome, Fault>
    ensures { Gives (spec.list_came (spec.items_or_none heap.now value)) result }
{
    Ok(Outcome::New(Cell::List(items_or_none(heap, value)?)))
}

fn tuple_came(heap: &Heap, value: Option<Val>) -> May<Outcome, Fault>
    ensures { Gives (spec.tuple_came (spec.items_or_none heap.now value)) result }
{
    Ok(Outcome::New(Cell::Tuple(items_or_none(heap, value)?)))
}

fn repr_came(heap: &Heap, value: &Val) -> May<Outcome, Fault>
    ensures { Gives (spec.text_came (prints.repr_of heap.now value.now)) result }
{
    Ok(Outcome::New(Cell::Text(to_repr(heap, value)?)))
}

fn reversed_came(heap: &Heap, value: &Val) -> May<Outcome, Fault>
    ensures { Gives (spec.reversed_came (kinds.items_of heap.now value.now)) result }
{
    let items = items(heap.alloc(), heap, value)?;
    Ok(Outcome::New(Cell::List(reversed(items))))
}

fn reversed(items: Seq<Val>) -> Seq<Val>
    ensures { result ≡ reverse items }
{
    let mut items = items.into_vec();
    items.reverse();
    Seq::of_vec(items)
}

fn string_came(heap: &Heap, value: &Val) -> May<Outcome, Fault>
    ensures { Gives (spec.string_came heap.now value.now (text_in (cell_at heap.now value.now)))
        result }
{
    match text_of(heap, value) {
        Some(_) => Ok(Outcome::Known(*value)),
        None => str_came(heap, value),
    }
}

fn str_came(heap: &Heap, value: &Val) -> May<Outcome, Fault>
    ensures { Gives (spec.text_came (prints.str_of heap.now value.now)) result }
{
    Ok(Outcome::New(Cell::Text(to_str(heap, value)?)))
}

fn type_came(heap: &Heap, value: &Val) -> May<Outcome, Fault>
    ensures { Gives (spec.text_came (Ok (kinds.type_name heap.now value.now))) result }
{
    Ok(Outcome::New(Cell::Text(Txt::of(heap.alloc(), type_name(heap, value))?)))
}
