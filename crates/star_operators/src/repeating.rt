//! Strings, lists and tuples that repeat.
ghost use Rattle.std.specs.Prelude.{◌≡◌, ◌*◌, IfOk, nat_lt, option_copied};
ghost use Rattle.bz_text.specs.Answers.{Gives};
ghost use Rattle.star_core.specs.Sizes.{most_bytes, most_entries};
ghost use Rattle.star_operators.specs.Binary as spec;
ghost use Rattle.star_operators.specs.Binary.{list_came, text_came, times, tuple_came};

use crate::outcomes::Outcome;
use bz_text::{May, Mem, Miss, Seq, Txt};
use star_core::heap::{MOST_BYTES, MOST_ENTRIES};
use star_core::{Cell, Fault, Val};
use std::alloc::Global;

/// A string, a list or a tuple so many times.
#[tactic(auto, unfolding(crate::specs::Binary::repeats))]
pub(crate) fn repeats(alloc: Global, held: Option<&Cell>, count: i64) -> May<Outcome, Fault>
    ensures { Gives (spec.repeats (option_copied held.entry) count) result }
{
    match held {
        Some(Cell::Text(text)) => repeated_text(alloc, text.as_str(), count),
        Some(Cell::List(items)) => repeated_list(alloc, items.items(), count),
        Some(Cell::Tuple(items)) => repeated_tuple(alloc, items.items(), count),
        _ => Err(Miss::Because(Fault::Kind)),
    }
}

fn repeated_text(alloc: Global, text: &str, count: i64) -> May<Outcome, Fault>
    ensures { Gives (text_came (spec.repeated most_bytes text.now count)) result }
{
    let turns = turns(count);
    if is_too_long(MOST_BYTES, turns, text.len()) {
        return Err(Miss::Because(Fault::Size));
    }
    Ok(Outcome::New(Cell::Text(times_text(alloc, turns, text)?)))
}

fn repeated_list(alloc: Global, items: &[Val], count: i64) -> May<Outcome, Fault>
    ensures { Gives (list_came (spec.repeated most_entries items.now count)) result }
{
    let turns = turns(count);
    if is_too_long(MOST_ENTRIES, turns, items.len()) {
        return Err(Miss::Because(Fault::Size));
    }
    Ok(Outcome::New(Cell::List(times_items(alloc, turns, items)?)))
}

fn repeated_tuple(alloc: Global, items: &[Val], count: i64) -> May<Outcome, Fault>
    ensures { Gives (tuple_came (spec.repeated most_entries items.now count)) result }
{
    let turns = turns(count);
    if is_too_long(MOST_ENTRIES, turns, items.len()) {
        return Err(Miss::Because(Fault::Size));
    }
    Ok(Outcome::New(Cell::Tuple(times_items(alloc, turns, items)?)))
}

/// How often a number repeats: a negative one never.
fn turns(count: i64) -> u64
    ensures { result ≡ spec.turns count }
{
    if count < 0 { 0 } else { count as u64 }
}

/// Whether so many parts of this length are more than may be.
fn is_too_long(most: usize, turns: u64, length: usize) -> bool
    ensures { result ≡ nat_lt most (turns * length) }
{
    match turns.checked_mul(length as u64) {
        Some(whole) => (most as u64) < whole,
        None => true,
    }
}

fn times_text(alloc: Global, turns: u64, text: &str) -> Mem<Txt>
    ensures { IfOk result (λ made. made ≡ times turns text.now) }
{
    let mut made = String::new(alloc);
    if text.is_empty() {
        return Ok(Txt::of_string(made));
    }
    'repeating: for turn in 0..turns {
        made.push_str(text)?;
    }
    Ok(Txt::of_string(made))
}

fn times_items(alloc: Global, turns: u64, items: &[Val]) -> Mem<Seq<Val>>
    ensures { IfOk result (λ made. made ≡ times turns items.now) }
{
    let mut made = Vec::new(alloc);
    if items.is_empty() {
        return Ok(Seq::of_vec(made));
    }
    'repeating: for turn in 0..turns {
        made.extend_from_slice(items)?;
    }
    Ok(Seq::of_vec(made))
}
