//! Equality of values.
ghost use Rattle.std.specs.Prelude.{◌≡◌, nat_eq, option_copied};
ghost use Rattle.star_order.specs.Equality as spec;
ghost use Rattle.star_order.specs.Equality.{equal_inside, field_named, value_under};

use crate::ranges::{same_number, same_range};
use bz_base::Label;
use star_core::{Cell, Dict, Fault, Heap, NamedVal, Val};

/// How deep containers may nest in what is compared.
const DEEPEST: u32 = 128;

/// Whether two values are equal.
pub fn equal(heap: &Heap, left: &Val, right: &Val) -> Result<bool, Fault>
    ensures { result ≡ spec.equal heap.now left.now right.now }
{
    equal_within(heap, left, right, DEEPEST)
}

#[cycle(equality)]
fn equal_within(heap: &Heap, left: &Val, right: &Val, depth: u32) -> Result<bool, Fault>
    ensures { result ≡ spec.equal_within depth heap.now left.now right.now }
{
    values_equal(heap, left, right, depth)
}

#[cycle(equality)]
#[tactic(auto, unfolding(crate::specs::Equality::values_equal))]
fn values_equal(heap: &Heap, left: &Val, right: &Val, depth: u32) -> Result<bool, Fault>
    ensures { result ≡ spec.values_equal (equal_inside depth heap.now) heap.now left.now right.now }
{
    match (*left, *right) {
        (Val::None, Val::None) => Ok(true),
        (Val::Bool(flag), Val::Bool(other)) => Ok(same_flag(flag, other)),
        (Val::Int(number), Val::Int(other)) => Ok(same_number(number, other)),
        (Val::Cell(number), Val::Cell(other)) => {
            held_equal(
                heap,
                heap.cell(left),
                heap.cell(right),
                number == other,
                depth,
            )
        }
        _ => Ok(false),
    }
}

fn same_flag(flag: bool, other: bool) -> bool
    ensures { result ≡ spec.same_flag flag other }
{
    if flag { other } else { !other }
}

#[cycle(equality)]
fn held_equal(
    heap: &Heap,
    left: Option<&Cell>,
    right: Option<&Cell>,
    one: bool,
    depth: u32,
) -> Result<bool, Fault>
    ensures { result ≡ spec.held_equal (equal_inside depth heap.now) one
        (option_copied left.entry) (option_copied right.entry) }
{
    match (left, right) {
        (Some(left), Some(right)) => cells_equal(heap, left, right, one, depth),
        _ => Ok(one),
    }
}

#[cycle(equality)]
#[tactic(auto, unfolding(crate::specs::Equality::cells_equal))]
fn cells_equal(heap: &Heap, left: &Cell, right: &Cell, one: bool, depth: u32) -> Result<bool, Fault>
    ensures { result ≡ spec.cells_equal (equal_inside depth heap.now) one left.now right.now }
{
    match left {
        Cell::Text(text) => Ok(text_equal(text.as_str(), right)),
        Cell::List(items) => list_equal(heap, items.items(), right, depth),
        Cell::Tuple(items) => tuple_equal(heap, items.items(), right, depth),
        Cell::Dict(dict) => dict_equal(heap, dict, right, depth),
        Cell::Range { first, stop, step } => Ok(range_equal(*first, *stop, *step, right)),
        Cell::Builtin(name) => Ok(builtin_equal(name.as_str(), right)),
        Cell::Struct(fields) => struct_equal(heap, fields.items(), right, depth),
        Cell::Label(label) => Ok(label_equal(label, right)),
        _ => Ok(one),
    }
}

#[tactic(auto, unfolding(crate::specs::Equality::text_equal))]
fn text_equal(text: &str, right: &Cell) -> bool
    ensures { result ≡ spec.text_equal text.now right.now }
{
    match right {
        Cell::Text(other) => text == other.as_str(),
        _ => false,
    }
}

#[tactic(auto, unfolding(crate::specs::Equality::builtin_equal))]
fn builtin_equal(name: &str, right: &Cell) -> bool
    ensures { result ≡ spec.builtin_equal name.now right.now }
{
    match right {
        Cell::Builtin(other) => name == other.as_str(),
        _ => false,
    }
}

#[tactic(auto, unfolding(crate::specs::Equality::label_equal))]
fn label_equal(label: &Label, right: &Cell) -> bool
    ensures { result ≡ spec.label_equal label.now right.now }
{
    match right {
        Cell::Label(other) => labels_equal(label, other),
        _ => false,
    }
}

fn labels_equal(label: &Label, other: &Label) -> bool
    ensures { result ≡ spec.labels_equal label.now other.now }
{
    label.repo.as_str() == other.repo.as_str()
        && label.package.as_str() == other.package.as_str()
        && label.name.as_str() == other.name.as_str()
}

#[tactic(auto, unfolding(crate::specs::Equality::range_equal))]
fn range_equal(first: i64, stop: i64, step: i64, right: &Cell) -> bool
    ensures { result ≡ spec.range_equal first stop step right.now }
{
    match right {
        Cell::Range {
            first: other_first,
            stop: other_stop,
            step: other_step,
        } => same_range(first, stop, step, *other_first, *other_stop, *other_step),
        _ => false,
    }
}

#[cycle(equality)]
#[tactic(auto, unfolding(crate::specs::Equality::list_equal))]
fn list_equal(heap: &Heap, items: &[Val], right: &Cell, depth: u32) -> Result<bool, Fault>
    ensures { result ≡ spec.list_equal (equal_inside depth heap.now) items.now right.now }
{
    match right {
        Cell::List(others) => lists_equal(heap, items, others.items(), depth),
        _ => Ok(false),
    }
}

#[cycle(equality)]
#[tactic(auto, unfolding(crate::specs::Equality::tuple_equal))]
fn tuple_equal(heap: &Heap, items: &[Val], right: &Cell, depth: u32) -> Result<bool, Fault>
    ensures { result ≡ spec.tuple_equal (equal_inside depth heap.now) items.now right.now }
{
    match right {
        Cell::Tuple(others) => lists_equal(heap, items, others.items(), depth),
        _ => Ok(false),
    }
}

#[cycle(equality)]
#[tactic(auto, unfolding(crate::specs::Equality::dict_equal))]
fn dict_equal(heap: &Heap, dict: &Dict, right: &Cell, depth: u32) -> Result<bool, Fault>
    ensures { result ≡ spec.dict_equal (equal_inside depth heap.now) dict.now right.now }
{
    match right {
        Cell::Dict(other) => dicts_equal(heap, dict, other, depth),
        _ => Ok(false),
    }
}

#[cycle(equality)]
#[tactic(auto, unfolding(crate::specs::Equality::struct_equal))]
fn struct_equal(heap: &Heap, fields: &[NamedVal], right: &Cell, depth: u32) -> Result<bool, Fault>
    ensures { result ≡ spec.struct_equal (equal_inside depth heap.now) fields.now right.now }
{
    match right {
        Cell::Struct(others) => structs_equal(heap, fields, others.items(), depth),
        _ => Ok(false),
    }
}

#[cycle(equality)]
fn lists_equal(heap: &Heap, items: &[Val], others: &[Val], depth: u32) -> Result<bool, Fault>
    ensures { result ≡ spec.lists_equal (equal_inside depth heap.now) items.now others.now }
{
    if depth == 0 {
        return Err(Fault::Depth);
    }
    if items.len() != others.len() {
        return Ok(false);
    }
    items_equal(heap, items, others, depth - 1)
}

#[cycle(equality)]
fn dicts_equal(heap: &Heap, dict: &Dict, other: &Dict, depth: u32) -> Result<bool, Fault>
    ensures { result ≡ spec.dicts_equal (equal_inside depth heap.now) dict.now other.now }
{
    if depth == 0 {
        return Err(Fault::Depth);
    }
    if dict.len() != other.len() {
        return Ok(false);
    }
    entries_equal(heap, dict, other, depth - 1)
}

#[cycle(equality)]
fn structs_equal(
    heap: &Heap,
    fields: &[NamedVal],
    others: &[NamedVal],
    depth: u32,
) -> Result<bool, Fault>
    ensures { result ≡ spec.structs_equal (equal_inside depth heap.now) fields.now others.now }
{
    if depth == 0 {
        return Err(Fault::Depth);
    }
    if fields.len() != others.len() {
        return Ok(false);
    }
    fields_equal(heap, fields, others, depth - 1)
}

#[cycle(equality)]
fn items_equal(heap: &Heap, items: &[Val], others: &[Val], depth: u32) -> Result<bool, Fault>
    ensures { result ≡ spec.items_equal (spec.equal_within depth heap.now) items.now others.now }
{
    let mut rest = others;
    'comparing: for item in items {
        let [other, further @ ..] = rest else {
            return Ok(false);
        };
        if !equal_within(heap, item, other, depth)? {
            return Ok(false);
        }
        rest = further;
    }
    Ok(rest.is_empty())
}

#[cycle(equality)]
fn entries_equal(heap: &Heap, dict: &Dict, other: &Dict, depth: u32) -> Result<bool, Fault>
    ensures { result ≡ spec.entries_equal (spec.equal_within depth heap.now) dict.now other.now }
{
    'comparing: for index in 0..dict.len() {
        let Some((content, pair)) = dict.entry_at(index) else {
            return Ok(true);
        };
        match found_equal(heap, &pair.value, value_under(content, other), depth) {
            Ok(true) => {}
            Ok(false) => return Ok(false),
            Err(reason) => return Err(reason),
        }
    }
    Ok(true)
}

/// The value that a dictionary has under the content of a key.
fn value_under(content: &str, dict: &Dict) -> Option<Val>
    ensures { result ≡ spec.value_under content.now dict.now }
{
    Some(dict.get(content)?.value)
}

#[cycle(equality)]
fn fields_equal(
    heap: &Heap,
    fields: &[NamedVal],
    others: &[NamedVal],
    depth: u32,
) -> Result<bool, Fault>
    ensures { result ≡ spec.fields_equal (spec.equal_within depth heap.now) fields.now others.now }
{
    'comparing: for field in fields {
        if !found_equal(
            heap,
            &field.val,
            field_named(field.name.as_str(), others),
            depth,
        )? {
            return Ok(false);
        }
    }
    Ok(true)
}

/// The value of the field with this name.
fn field_named(name: &str, fields: &[NamedVal]) -> Option<Val>
    ensures { result ≡ spec.field_named name.now fields.now }
{
    'looking: for field in fields {
        if name == field.name.as_str() {
            return Some(field.val);
        }
    }
    None
}

#[cycle(equality)]
fn found_equal(heap: &Heap, value: &Val, other: Option<Val>, depth: u32) -> Result<bool, Fault>
    ensures { result ≡ spec.found_equal (spec.equal_within depth heap.now) value.now other }
{
    match other {
        Some(other) => equal_within(heap, value, &other, depth),
        None => Ok(false),
    }
}
