//! JSON as plain values.
ghost use Rattle.std.specs.Prelude.{◌≡◌, List, Ok, Some, None, IfNone, IfSome, option_map};
ghost use Rattle.serde_json.specs.View.{view, items_view, members_view, number_view};
ghost use Rattle.serde_json.specs.Find.{as_str, as_array};
ghost use Rattle.bz_text.specs.Answers.{Gives};
ghost use Rattle.bz_base.specs.PlainReading;
ghost use Rattle.bz_base.specs.PlainReading.{each_after, integer_of, label_under, pair_of};
ghost use Rattle.bz_base.specs.PlainReading.{pairs_under, plain_layer, plain_of, plain_within};
ghost use Rattle.bz_base.specs.PlainReading.{tagged_plain, two_of};

use crate::plain_labels::{NotPlain, read_label};
use crate::plain_values::{Plain, PlainPair};
use bz_text::{May, Miss, Txt};
use serde_json::{Map, Number, Value};
use sqlite_items::Items;
use std::alloc::Global;

const GREATEST_DEPTH: usize = 16;

/// The plain value with this JSON, at most 16 deep.
pub fn plain_of_json(alloc: Global, value: &Value) -> May<Plain, NotPlain>
    ensures { Gives (plain_of (view value.now)) result }
{
    value_within(alloc, value, GREATEST_DEPTH)
}

#[cycle(reading)]
fn value_within(alloc: Global, value: &Value, depth: usize) -> May<Plain, NotPlain>
    ensures { Gives (plain_within depth (view value.now)) result }
{
    level_within(alloc, value, depth)
}

#[cycle(reading)]
fn level_within(alloc: Global, value: &Value, depth: usize) -> May<Plain, NotPlain>
    ensures { Gives (plain_layer (PlainReading.items_within depth) (PlainReading.pairs_within depth) (view
        value.now)) result }
{
    match value {
        Value::Null => Ok(Plain::None),
        Value::Bool(flag) => Ok(Plain::Flag(*flag)),
        Value::Number(number) => integer(number),
        Value::String(text) => Ok(Plain::Text(Txt::of(alloc, text.as_str())?)),
        Value::Array(items) => Ok(Plain::Items(items_within(alloc, items.as_slice(), depth)?)),
        Value::Object(members) => object_within(alloc, members, depth),
    }
}

#[cycle(reading)]
fn items_within(alloc: Global, items: &[Value], depth: usize) -> May<Items<Plain>, NotPlain>
    ensures { Gives (PlainReading.items_within depth (items_view items.now)) result }
{
    if depth == 0 {
        return Err(Miss::Because(NotPlain));
    }
    let mut values = Vec::new(alloc);
    for item in items {
        values.push(value_within(alloc, item, depth - 1)?)?;
    }
    Ok(Items::from_vec(values))
}

#[cycle(reading)]
fn object_within(alloc: Global, members: &Map<String, Value>, depth: usize) -> May<Plain, NotPlain>
    ensures { Gives (tagged_plain (PlainReading.pairs_within depth) (PlainReading.only_member
        (members_view members.now.entries))) result }
{
    match only_member(members) {
        Some((tag, value)) => tagged_within(alloc, tag, value, depth),
        None => Err(Miss::Because(NotPlain)),
    }
}

fn only_member(members: &Map<String, Value>) -> Option<(&str, &Value)>
    ensures none { IfNone result (PlainReading.only_member (members_view members.now.entries) ≡ None) }
    ensures some { IfSome result (λ entry. PlainReading.only_member (members_view members.now.entries) ≡ Some
        (entry.0.now, view entry.1.now)) }
{
    let mut entries = members.iter();
    let (tag, value) = entries.next()?;
    match entries.next() {
        None => Some((tag.as_str(), value)),
        Some(_) => None,
    }
}

#[cycle(reading)]
fn tagged_within(alloc: Global, tag: &str, value: &Value, depth: usize) -> May<Plain, NotPlain>
    ensures { Gives (tagged_plain (PlainReading.pairs_within depth) (Some (tag.now, view value.now)))
        result }
{
    if tag == "label" {
        return label_value(alloc, value);
    }
    if tag == "pairs" {
        return pairs_value(alloc, value, depth);
    }
    Err(Miss::Because(NotPlain))
}

fn label_value(alloc: Global, value: &Value) -> May<Plain, NotPlain>
    ensures { Gives (label_under (as_str (view value.now))) result }
{
    match value.as_str() {
        Some(text) => Ok(Plain::Label(read_label(alloc, text)?)),
        None => Err(Miss::Because(NotPlain)),
    }
}

#[cycle(reading)]
fn pairs_value(alloc: Global, value: &Value, depth: usize) -> May<Plain, NotPlain>
    ensures { Gives (pairs_under (PlainReading.pairs_within depth) (as_array (view value.now))) result }
{
    match value.as_array() {
        Some(pairs) => Ok(Plain::Pairs(pairs_within(alloc, pairs.as_slice(), depth)?)),
        None => Err(Miss::Because(NotPlain)),
    }
}

#[cycle(reading)]
fn pairs_within(alloc: Global, pairs: &[Value], depth: usize) -> May<Items<PlainPair>, NotPlain>
    ensures { Gives (PlainReading.pairs_within depth (items_view pairs.now)) result }
{
    if depth == 0 {
        return Err(Miss::Because(NotPlain));
    }
    let mut values = Vec::new(alloc);
    for pair in pairs {
        values.push(pair_within(alloc, pair, depth - 1)?)?;
    }
    Ok(Items::from_vec(values))
}

#[cycle(reading)]
fn pair_within(alloc: Global, pair: &Value, depth: usize) -> May<PlainPair, NotPlain>
    ensures { Gives (pair_of (plain_within depth) (view pair.now)) result }
{
    match pair.as_array() {
        Some(items) => two_within(alloc, items.as_slice(), depth),
        None => Err(Miss::Because(NotPlain)),
    }
}

#[cycle(reading)]
#[tactic(auto, using(crate::proofs::PlainLayers::two_of_others))]
fn two_within(alloc: Global, items: &[Value], depth: usize) -> May<PlainPair, NotPlain>
    ensures { Gives (two_of (plain_within depth) (Some (items_view items.now))) result }
{
    if items.len() != 2 {
        return Err(Miss::Because(NotPlain));
    }
    Ok(PlainPair {
        key: value_within(alloc, &items[0], depth)?,
        value: value_within(alloc, &items[1], depth)?,
    })
}

fn integer(number: &Number) -> May<Plain, NotPlain>
    ensures { Gives (integer_of (number_view number.now)) result }
{
    match number.as_i64() {
        Some(value) => Ok(Plain::Int(value)),
        None => Err(Miss::Because(NotPlain)),
    }
}
