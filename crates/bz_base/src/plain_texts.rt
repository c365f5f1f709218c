//! Plain values as JSON.
ghost use Rattle.std.specs.Prelude.{◌≡◌, ◌++◌, IfOk, OnOk, string_bytes, map};
ghost use Rattle.serde_json.specs.View.{view, items_view};
ghost use Rattle.serde_json.specs.Data.{array, item, no_items};
ghost use Rattle.bz_base.specs.PlainTexts.{json_of, json_of_pair, label_text, tagged};

use crate::labels::Label;
use crate::plain_values::{Plain, PlainPair};
use bz_text::Mem;
use serde_json::{Map, Value};
use std::alloc::Global;

/// The JSON of a plain value.
pub fn plain_json(alloc: Global, value: &Plain) -> Mem<Value>
    ensures { IfOk result (λ json. view json ≡ json_of value.now) }
{
    json_value(alloc, value)
}

#[cycle(writing)]
fn json_value(alloc: Global, value: &Plain) -> Mem<Value>
    ensures { IfOk result (λ json. view json ≡ json_of value.now) }
{
    match value {
        Plain::None => Ok(Value::Null),
        Plain::Flag(flag) => Ok(Value::Bool(*flag)),
        Plain::Int(number) => Ok(Value::from(*number)),
        Plain::Text(text) => Ok(Value::String(text.copy(alloc)?.into_string())),
        Plain::Label(label) => {
            let text = label_string(alloc, label)?;
            tagged_value(alloc, "label", Value::String(text))
        }
        Plain::Items(items) => Ok(Value::Array(item_values(alloc, items.as_slice())?)),
        Plain::Pairs(pairs) => {
            let values = pair_values(alloc, pairs.as_slice())?;
            tagged_value(alloc, "pairs", Value::Array(values))
        }
    }
}

#[cycle(writing)]
fn item_values(alloc: Global, items: &[Plain]) -> Mem<Vec<Value>>
    ensures { IfOk result (λ values. map view values.items ≡ map json_of items.now) }
{
    let mut values = Vec::new(alloc);
    for item in items {
        values.push(json_value(alloc, item)?)?;
    }
    Ok(values)
}

#[cycle(writing)]
fn pair_values(alloc: Global, pairs: &[PlainPair]) -> Mem<Vec<Value>>
    ensures { IfOk result (λ values. map view values.items ≡ map json_of_pair pairs.now) }
{
    let mut values = Vec::new(alloc);
    for pair in pairs {
        let key = json_value(alloc, &pair.key)?;
        let value = json_value(alloc, &pair.value)?;
        values.push(two_values(alloc, key, value)?)?;
    }
    Ok(values)
}

fn two_values(alloc: Global, key: Value, value: Value) -> Mem<Value>
    ensures { IfOk result (λ json. view json ≡ array (item (view key) (item (view value) no_items))) }
{
    let mut values = Vec::new(alloc);
    values.push(key)?;
    values.push(value)?;
    Ok(Value::Array(values))
}

/// The object with one member.
fn tagged_value(alloc: Global, tag: &str, value: Value) -> Mem<Value>
    ensures { IfOk result (λ json. view json ≡ tagged tag.now (view value)) }
{
    let mut members = Map::new(alloc);
    let _ = members.insert(String::from_str(alloc, tag)?, value)?;
    Ok(Value::Object(members))
}

/// How a label is printed: `@@REPO//PACKAGE:NAME`.
pub fn label_string(alloc: Global, label: &Label) -> Mem<String>
    ensures { IfOk result (λ text. string_bytes text ≡ label_text label.now) }
{
    let mut text = String::from_str(alloc, "@@")?;
    text.push_str(label.repo.as_str())?;
    text.push_str("//")?;
    text.push_str(label.package.as_str())?;
    text.push_str(":")?;
    text.push_str(label.name.as_str())?;
    Ok(text)
}
