//! Indexes.
ghost use Rattle.std.specs.Prelude.{◌≡◌, ◌+ℤ◌, ◌*ℤ◌, IfOk, encode_utf8, option_copied, pos};
ghost use Rattle.std.specs.Str.{chars};
ghost use Rattle.bz_text.specs.Answers.{Gives};
ghost use Rattle.star_core.specs.Contents.{key_content};
ghost use Rattle.star_library.specs.Calls.{Builds};
ghost use Rattle.star_operators.specs.Indexing as spec;
ghost use Rattle.star_operators.specs.Indexing.{index_of};
ghost use Rattle.star_order.specs.Keys.{pair_found};

use crate::outcomes::{Outcome, finish, number};
use bz_text::{May, Mem, Miss, Txt};
use star_core::{Cell, Dict, Fault, Heap, Val};
use star_library::range_length;
use star_numbers::integers::steps_behind;
use star_order::find;
use std::alloc::Global;

/// What a value has at an index or under a key.
pub fn index(heap: &mut Heap, container: &Val, at: &Val) -> May<Val, Fault>
    ensures { Builds (index_of container.now at.now heap.old) result heap.new }
{
    match indexed(heap.alloc(), heap, heap.cell(container), at) {
        Ok(outcome) => finish(heap, outcome),
        Err(miss) => Err(miss),
    }
}

#[tactic(auto, unfolding(crate::specs::Indexing::indexed))]
fn indexed(alloc: Global, heap: &Heap, held: Option<&Cell>, at: &Val) -> May<Outcome, Fault>
    ensures { Gives (spec.indexed heap.now (option_copied held.entry) at.now) result }
{
    match held {
        Some(Cell::Text(text)) => character_at(alloc, text.as_str(), at),
        Some(Cell::List(items)) => item_at(items.items(), at),
        Some(Cell::Tuple(items)) => item_at(items.items(), at),
        Some(Cell::Dict(dict)) => value_at(alloc, heap, dict, at),
        Some(Cell::Range { first, stop, step }) => number_at(*first, *stop, *step, at),
        _ => Err(Miss::Because(Fault::Kind)),
    }
}

fn item_at(items: &[Val], at: &Val) -> May<Outcome, Fault>
    ensures { Gives (spec.item_at items.now at.now) result }
{
    match place_of(at, items.len() as u64) {
        Ok(place) => item_there(items, place as usize),
        Err(reason) => Err(Miss::Because(reason)),
    }
}

fn item_there(items: &[Val], place: usize) -> May<Outcome, Fault>
    ensures { Gives (spec.item_there items.now place) result }
{
    match items.get(place) {
        Some(item) => Ok(Outcome::Known(*item)),
        None => Err(Miss::Because(Fault::Index)),
    }
}

fn value_at(alloc: Global, heap: &Heap, dict: &Dict, key: &Val) -> May<Outcome, Fault>
    ensures { Gives (spec.value_at (pair_found (key_content heap.now key.now) dict.now)) result }
{
    match find(alloc, heap, dict, key) {
        Ok(Some(pair)) => Ok(Outcome::Known(pair.value)),
        Ok(None) => Err(Miss::Because(Fault::Key)),
        Err(miss) => Err(miss),
    }
}

/// The index that a value is of so many items.
pub fn place_of(at: &Val, count: u64) -> Result<u64, Fault>
    ensures { result ≡ spec.place_of at.now count }
{
    let Val::Int(index) = *at else {
        return Err(Fault::Kind);
    };
    match placed(index, count) {
        Some(place) => Ok(place),
        None => Err(Fault::Index),
    }
}

/// An index of so many items, where it is one.
#[tactic(auto, unfolding(crate::specs::Indexing::placed))]
fn placed(index: i64, count: u64) -> Option<u64>
    ensures { result ≡ spec.placed index count }
{
    let distance = index.unsigned_abs();
    if index < 0 {
        return from_end(distance, count);
    }
    if distance < count {
        Some(distance)
    } else {
        None
    }
}

fn from_end(distance: u64, count: u64) -> Option<u64>
    ensures { result ≡ spec.from_end distance count }
{
    if count < distance {
        return None;
    }
    Some(count - distance)
}

fn character_at(alloc: Global, text: &str, at: &Val) -> May<Outcome, Fault>
    ensures { Gives (spec.character_at text.now at.now) result }
{
    let characters = characters_of(alloc, text)?;
    character_among(alloc, characters.as_slice(), at)
}

/// The characters of a text.
pub fn characters_of(alloc: Global, text: &str) -> Mem<Vec<char>>
    ensures { IfOk result (λ characters. characters.items ≡ chars text.now) }
{
    Ok(text.chars().collect(alloc)?)
}

fn character_among(alloc: Global, characters: &[char], at: &Val) -> May<Outcome, Fault>
    ensures { Gives (spec.character_among characters.now at.now) result }
{
    match place_of(at, characters.len() as u64) {
        Ok(place) => character_there(alloc, characters, place as usize),
        Err(reason) => Err(Miss::Because(reason)),
    }
}

fn character_there(alloc: Global, characters: &[char], place: usize) -> May<Outcome, Fault>
    ensures { Gives (spec.character_there characters.now place) result }
{
    match characters.get(place) {
        Some(character) => Ok(Outcome::New(Cell::Text(one_character(alloc, *character)?))),
        None => Err(Miss::Because(Fault::Index)),
    }
}

/// A text of one character.
fn one_character(alloc: Global, character: char) -> Mem<Txt>
    ensures { IfOk result (λ text. text ≡ encode_utf8 character) }
{
    let mut text = String::new(alloc);
    text.push(character)?;
    Ok(Txt::of_string(text))
}

fn number_at(first: i64, stop: i64, step: i64, at: &Val) -> May<Outcome, Fault>
    ensures { Gives (spec.number_at first stop step at.now) result }
{
    match place_of(at, range_length(first, stop, step)) {
        Ok(place) => number_there(first, step, place),
        Err(reason) => Err(Miss::Because(reason)),
    }
}

fn number_there(first: i64, step: i64, place: u64) -> May<Outcome, Fault>
    ensures { Gives (spec.number_there first step place) result }
{
    match number(steps_behind(first, step, place)) {
        Ok(outcome) => Ok(outcome),
        Err(reason) => Err(Miss::Because(reason)),
    }
}
