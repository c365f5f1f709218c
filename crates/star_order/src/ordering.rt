//! The order of values.
ghost use Rattle.std.specs.Prelude.{◌≡◌, option_copied};
ghost use Rattle.star_order.specs.Order as spec;
ghost use Rattle.star_order.specs.Order.{order_inside};

use star_core::{Cell, Fault, Heap, Val};
use std::cmp::Ordering;

/// How deep containers may nest in what is compared.
pub const DEEPEST: u32 = 128;

/// The order of two values.
pub fn order(heap: &Heap, left: &Val, right: &Val) -> Result<Ordering, Fault>
    ensures { result ≡ spec.order heap.now left.now right.now }
{
    order_within(heap, left, right, DEEPEST)
}

#[cycle(ordering)]
fn order_within(heap: &Heap, left: &Val, right: &Val, depth: u32) -> Result<Ordering, Fault>
    ensures { result ≡ spec.order_within depth heap.now left.now right.now }
{
    values_order(heap, left, right, depth)
}

#[cycle(ordering)]
#[tactic(auto, unfolding(crate::specs::Order::values_order))]
fn values_order(heap: &Heap, left: &Val, right: &Val, depth: u32) -> Result<Ordering, Fault>
    ensures { result ≡ spec.values_order (order_inside depth heap.now) heap.now left.now right.now }
{
    match (*left, *right) {
        (Val::Bool(flag), Val::Bool(other)) => Ok(flag.cmp(&other)),
        (Val::Int(number), Val::Int(other)) => Ok(number.cmp(&other)),
        (Val::Cell(_), Val::Cell(_)) => held_order(heap, heap.cell(left), heap.cell(right), depth),
        _ => Err(Fault::Kind),
    }
}

#[cycle(ordering)]
fn held_order(
    heap: &Heap,
    left: Option<&Cell>,
    right: Option<&Cell>,
    depth: u32,
) -> Result<Ordering, Fault>
    ensures { result ≡ spec.held_order (order_inside depth heap.now) (option_copied left.entry)
        (option_copied right.entry) }
{
    match (left, right) {
        (Some(left), Some(right)) => cells_order(heap, left, right, depth),
        _ => Err(Fault::Kind),
    }
}

#[cycle(ordering)]
#[tactic(auto, unfolding(crate::specs::Order::cells_order, crate::specs::Order::list_order, crate::specs::Order::tuple_order))]
fn cells_order(heap: &Heap, left: &Cell, right: &Cell, depth: u32) -> Result<Ordering, Fault>
    ensures { result ≡ spec.cells_order (order_inside depth heap.now) left.now right.now }
{
    match (left, right) {
        (Cell::Text(text), other) => text_order(text.as_str(), other),
        (Cell::List(items), Cell::List(others)) => {
            lists_order(heap, items.items(), others.items(), depth)
        }
        (Cell::Tuple(items), Cell::Tuple(others)) => {
            lists_order(heap, items.items(), others.items(), depth)
        }
        _ => Err(Fault::Kind),
    }
}

#[tactic(auto, unfolding(crate::specs::Order::text_order))]
fn text_order(text: &str, right: &Cell) -> Result<Ordering, Fault>
    ensures { result ≡ spec.text_order text.now right.now }
{
    match right {
        Cell::Text(other) => Ok(text.cmp(other.as_str())),
        _ => Err(Fault::Kind),
    }
}

#[cycle(ordering)]
fn lists_order(heap: &Heap, left: &[Val], right: &[Val], depth: u32) -> Result<Ordering, Fault>
    ensures { result ≡ spec.lists_order (order_inside depth heap.now) left.now right.now }
{
    if depth == 0 {
        return Err(Fault::Depth);
    }
    items_order(heap, left, right, depth - 1)
}

#[cycle(ordering)]
fn items_order(heap: &Heap, left: &[Val], right: &[Val], depth: u32) -> Result<Ordering, Fault>
    ensures { result ≡ spec.items_order (spec.order_within depth heap.now) left.now right.now }
{
    let mut rest = right;
    'comparing: for item in left {
        let [other, further @ ..] = rest else {
            return Ok(Ordering::Greater);
        };
        match order_within(heap, item, other, depth)? {
            Ordering::Equal => rest = further,
            different => return Ok(different),
        }
    }
    if rest.is_empty() {
        Ok(Ordering::Equal)
    } else {
        Ok(Ordering::Less)
    }
}
