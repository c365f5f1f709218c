//! Arguments of string methods, checked one by one.
ghost use Rattle.std.specs.Prelude.{◌≡◌, IfOk, option_copied};
ghost use Rattle.bz_text.specs.Answers.{Gives};
ghost use Rattle.star_text.specs.ArgumentValues as spec;
ghost use Rattle.star_text.specs.ArgumentValues.{cuts_of};

use bz_text::{May, Mem, Miss, Seq};
use star_core::{Fault, Heap, Val};
use star_library::text_of;
use star_print::escapes::scalars;
use std::alloc::Global;

fn given(value: Option<Val>) -> Option<Val>
    ensures { result ≡ spec.given value }
{
    match value {
        Some(Val::None) => None,
        other => other,
    }
}

/// The value of the parameter with this index; None counts as no value.
pub(crate) fn value_at(index: usize, values: &[Option<Val>]) -> Option<Val>
    ensures { result ≡ spec.value_at index values.now }
{
    match values.get(index) {
        Some(value) => given(*value),
        None => None,
    }
}

/// The characters of a string.
#[tactic(auto, unfolding(crate::specs::ArgumentValues::scalars_of))]
pub(crate) fn scalars_of(alloc: Global, heap: &Heap, value: Option<Val>) -> May<Seq<char>, Fault>
    ensures { Gives (spec.scalars_of heap.now value) result }
{
    match value {
        None => Err(Miss::Because(Fault::Kind)),
        Some(value) => scalars_or_fault(alloc, text_of(heap, &value)),
    }
}

fn scalars_or_fault(alloc: Global, text: Option<&str>) -> May<Seq<char>, Fault>
    ensures { Gives (spec.scalars_or_fault (option_copied text.entry)) result }
{
    match text {
        None => Err(Miss::Because(Fault::Kind)),
        Some(text) => Ok(Seq::of_vec(scalars(alloc, text)?)),
    }
}

/// A separator: a string that isn't empty.
#[tactic(auto, unfolding(crate::specs::ArgumentValues::separator_of))]
pub(crate) fn separator_of(alloc: Global, heap: &Heap, value: Option<Val>) -> May<Seq<char>, Fault>
    ensures { Gives (spec.separator_of heap.now value) result }
{
    unless_empty(scalars_of(alloc, heap, value)?)
}

fn unless_empty(text: Seq<char>) -> May<Seq<char>, Fault>
    ensures { Gives (spec.unless_empty text) result }
{
    if text.items().is_empty() {
        Err(Miss::Because(Fault::Value))
    } else {
        Ok(text)
    }
}

/// How often to cut, at most.
#[tactic(auto, unfolding(crate::specs::ArgumentValues::cuts_of))]
pub(crate) fn cuts_of(most: usize, value: Option<Val>) -> Result<usize, Fault>
    ensures { result ≡ spec.cuts_of most value }
{
    match value {
        None | Some(Val::None) => Ok(most),
        Some(Val::Int(number)) => Ok(at_most(number, most)),
        Some(Val::Bool(_) | Val::Cell(_)) => Err(Fault::Kind),
    }
}

fn at_most(number: i64, most: usize) -> usize
    ensures { result ≡ spec.at_most number most }
{
    match usize::try_from(number) {
        Ok(number) => number.min(most),
        Err(_) => most,
    }
}
