//! Calls on plain values, which are read from JSON or made of one pair.
use crate::calls::{both, truth};
use bz_base::{May, Mem, Miss, OutOfMemory, Plain, PlainPair, Txt, plain_json, plain_of_json};
use serde_json::Value;
use sqlite_items::Items;
use std::alloc::Global;

/// Why a text gives no plain value.
#[derive(Clone, Copy)]
enum Unread {
    NoJson,
    NotPlain,
}

fn missed(alloc: Global, miss: Miss<Unread>) -> Mem<Txt> {
    match miss {
        Miss::Because(Unread::NoJson) => Txt::of(alloc, "no JSON"),
        Miss::Because(Unread::NotPlain) => Txt::of(alloc, "NotPlain"),
        Miss::OutOfMemory => Err(OutOfMemory),
    }
}

fn json(alloc: Global, text: &str) -> May<Value, Unread> {
    match Value::from_str(alloc, text) {
        Ok(value) => Ok(value),
        Err(error) if error.is_memory() => Err(Miss::OutOfMemory),
        Err(_) => Err(Miss::Because(Unread::NoJson)),
    }
}

fn plain(alloc: Global, json: &Value) -> May<Plain, Unread> {
    match plain_of_json(alloc, json) {
        Ok(value) => Ok(value),
        Err(Miss::Because(_)) => Err(Miss::Because(Unread::NotPlain)),
        Err(Miss::OutOfMemory) => Err(Miss::OutOfMemory),
    }
}

/// The plain value of a JSON text.
fn read(alloc: Global, text: &str) -> May<Plain, Unread> {
    let json = json(alloc, text)?;
    plain(alloc, &json)
}

fn kind_of(value: &Plain) -> &'static str {
    match value {
        Plain::Label(_) => "Label",
        Plain::Pairs(_) => "Pairs",
        _ => "another",
    }
}

/// Of which kind the value of a JSON text is.
pub(crate) fn kind(alloc: Global, text: &str) -> Mem<Txt> {
    match read(alloc, text) {
        Ok(value) => Txt::of(alloc, kind_of(&value)),
        Err(miss) => missed(alloc, miss),
    }
}

fn is_copy_equal(alloc: Global, value: &Plain, other: &Plain) -> Mem<bool> {
    let copy = value.copy(alloc)?;
    Ok(copy.equal(other))
}

/// Whether a copy of a value is equal to the value of a JSON text.
fn is_equal(alloc: Global, value: &Plain, text: &str) -> May<bool, Unread> {
    let other = read(alloc, text)?;
    Ok(is_copy_equal(alloc, value, &other)?)
}

fn are_equal(alloc: Global, first: &str, second: &str) -> May<bool, Unread> {
    let first = read(alloc, first)?;
    is_equal(alloc, &first, second)
}

fn told(alloc: Global, holds: May<bool, Unread>) -> Mem<Txt> {
    match holds {
        Ok(holds) => truth(alloc, holds),
        Err(miss) => missed(alloc, miss),
    }
}

/// Whether a copy of the value of a JSON text is equal to the value of another.
pub(crate) fn equal(alloc: Global, given: &str) -> Mem<Txt> {
    let (first, second) = both(given);
    let holds = are_equal(alloc, first, second);
    told(alloc, holds)
}

fn pairs(alloc: Global, pair: PlainPair) -> Mem<Plain> {
    let mut pairs = Items::new(alloc);
    pairs.push(pair)?;
    Ok(Plain::Pairs(pairs))
}

/// The pairs of one key, whose value is 1.
fn one_pair(alloc: Global, key: &str) -> Mem<Plain> {
    let key = Plain::Text(Txt::of(alloc, key)?);
    let value = Plain::Int(1);
    pairs(alloc, PlainPair { key, value })
}

fn printed(alloc: Global, value: &Plain) -> Mem<Txt> {
    let json = plain_json(alloc, value)?;
    Ok(Txt::of_string(json.to_string(alloc)?))
}

/// The JSON text of the pairs of one key.
pub(crate) fn pair(alloc: Global, key: &str) -> Mem<Txt> {
    let value = one_pair(alloc, key)?;
    printed(alloc, &value)
}

fn is_read(alloc: Global, key: &str, text: &str) -> May<bool, Unread> {
    let value = one_pair(alloc, key)?;
    is_equal(alloc, &value, text)
}

/// Whether a JSON text gives the pairs of one key.
pub(crate) fn is_pair(alloc: Global, given: &str) -> Mem<Txt> {
    let (key, text) = both(given);
    let holds = is_read(alloc, key, text);
    told(alloc, holds)
}

fn is_read_back(alloc: Global, value: &Plain) -> May<bool, Unread> {
    let json = plain_json(alloc, value)?;
    let back = plain(alloc, &json)?;
    Ok(back.equal(value))
}

/// Whether the pairs of one key are read back from their JSON.
pub(crate) fn reread(alloc: Global, key: &str) -> Mem<Txt> {
    let value = one_pair(alloc, key)?;
    let holds = is_read_back(alloc, &value);
    told(alloc, holds)
}
