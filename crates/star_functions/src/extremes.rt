//! `max`, `min` and `sorted`, where no key is given, and `print`.
ghost use Rattle.std.specs.Prelude.{◌≡◌, Ok, option_copied};
ghost use Rattle.bz_text.specs.Answers.{Gives};
ghost use Rattle.star_calls.specs.Values as arguments;
ghost use Rattle.star_functions.specs.Answers as spec;
ghost use Rattle.star_library.specs.declared.parameter_names.ParameterName.TheVariants as names;
ghost use Rattle.star_sorting.specs.Sorting as sorting;

use bz_text::{May, Miss, Seq};
use star_calls::argument_values::given;
use star_calls::{flag_or, given_at, needed_at, only_named};
use star_core::{Args, Cell, Fault, Heap, Val};
use star_library::{ParameterName, copy_of, items, text_of};
use star_operators::Outcome;
use star_sorting::{Direction, first_value, sorted_values};

/// The values that are compared: those of the one argument, or the arguments.
fn compared(heap: &Heap, values: &[Val]) -> May<Seq<Val>, Fault>
    ensures { Gives (spec.compared heap.now values.now) result }
{
    match values {
        [] => Err(Miss::Because(Fault::Value)),
        [one] => items(heap.alloc(), heap, one),
        _ => Ok(copy_of(heap.alloc(), values)?),
    }
}

#[tactic(auto, unfolding(crate::specs::Answers::first_came))]
fn first_came(heap: &Heap, way: Direction, values: &[Val]) -> May<Outcome, Fault>
    ensures { Gives (spec.first_came way heap.now values.now) result }
{
    let values = compared(heap, values)?;
    Ok(Outcome::Known(first_value(heap, way, values.items())?))
}

/// That there is no key.
fn without_key(key: Option<Val>) -> Result<(), Fault>
    ensures { result ≡ spec.without_key key }
{
    match key {
        None => Ok(()),
        Some(_) => Err(Fault::Kind),
    }
}

/// The greatest or the least of values.
pub(crate) fn extreme_came(heap: &Heap, way: Direction, args: &Args) -> May<Outcome, Fault>
    ensures { Gives (spec.extreme_came way heap.now args.now) result }
{
    match only_named(ParameterName::Key, args.named.items()) {
        Ok(key) => unless_key(heap, way, args.positional.items(), key),
        Err(reason) => Err(Miss::Because(reason)),
    }
}

fn unless_key(heap: &Heap, way: Direction, values: &[Val], key: Option<Val>) -> May<Outcome, Fault>
    ensures { Gives (spec.unless_key (Ok key) (spec.first_came way heap.now values.now)) result }
{
    match without_key(given(key)) {
        Ok(()) => first_came(heap, way, values),
        Err(reason) => Err(Miss::Because(reason)),
    }
}

fn direction_of(reverse: bool) -> Direction
    ensures { result ≡ spec.direction_of reverse }
{
    if reverse {
        Direction::Descending
    } else {
        Direction::Ascending
    }
}

fn sorted_by(heap: &Heap, items: &[Val], reverse: Result<bool, Fault>) -> May<Outcome, Fault>
    ensures { Gives (spec.sorted_by heap.now items.now reverse) result }
{
    match reverse {
        Ok(reverse) => sorted_list(heap, items, direction_of(reverse)),
        Err(reason) => Err(Miss::Because(reason)),
    }
}

fn sorted_list(heap: &Heap, items: &[Val], way: Direction) -> May<Outcome, Fault>
    ensures { Gives (spec.list_came (sorting.sorted_values heap.now way items.now)) result }
{
    Ok(Outcome::New(Cell::List(sorted_values(heap, way, items)?)))
}

/// The items of an iterable in order.
#[tactic(auto, unfolding(crate::specs::Answers::sorted_came))]
pub(crate) fn sorted_came(heap: &Heap, values: &[Option<Val>]) -> May<Outcome, Fault>
    ensures { Gives (spec.sorted_came heap.now values.now) result }
{
    let items = items(heap.alloc(), heap, &needed_at(0, values))?;
    match without_key(given_at(1, values)) {
        Ok(()) => sorted_by(heap, items.items(), flag_or(false, given_at(2, values))),
        Err(reason) => Err(Miss::Because(reason)),
    }
}

fn is_text(text: Option<&str>) -> Result<Outcome, Fault>
    ensures { result ≡ spec.is_text (option_copied text.entry) }
{
    match text {
        Some(_) => Ok(Outcome::Known(Val::None)),
        None => Err(Fault::Kind),
    }
}

fn separated(heap: &Heap, separator: Option<Val>) -> Result<Outcome, Fault>
    ensures { result ≡ spec.separated heap.now separator }
{
    match separator {
        Some(value) => is_text(text_of(heap, &value)),
        None => Ok(Outcome::Known(Val::None)),
    }
}

/// What printing comes to.
pub(crate) fn print_came(heap: &Heap, args: &Args) -> Result<Outcome, Fault>
    ensures { result
        ≡ spec.print_came heap.now (arguments.only_named names.Sep args.now.named) }
{
    match only_named(ParameterName::Sep, args.named.items()) {
        Ok(separator) => separated(heap, given(separator)),
        Err(reason) => Err(reason),
    }
}
