//! Values by their kind.
ghost use Rattle.std.specs.Prelude.{◌≡◌, IfOk, map};
ghost use Rattle.std.specs.Option.{option_copied};
ghost use Rattle.bz_text.specs.Answers.{Gives};
ghost use Rattle.star_library.specs.Kinds as spec;
ghost use Rattle.star_library.specs.Kinds.{cell_is_true, cell_items, cell_type, is_true, items_of};

use crate::ranges::{range_length, range_values};
use bz_text::{May, Mem, Miss, Seq};
use star_core::{Cell, Dict, Fault, Heap, Pair, Val};
use std::alloc::Global;

/// The name of a value's type.
#[tactic(auto, unfolding(crate::specs::Kinds::type_name))]
pub fn type_name<'h>(heap: &'h Heap, val: &Val) -> &'h str
    ensures { result.now ≡ spec.type_name heap.now val.now }
{
    match val {
        Val::None => "NoneType",
        Val::Bool(_) => "bool",
        Val::Int(_) => "int",
        Val::Cell(_) => type_of_cell(heap.cell(val)),
    }
}

#[tactic(auto, unfolding(crate::specs::Kinds::cell_type))]
fn type_of_cell(cell: Option<&Cell>) -> &str
    ensures { result.now ≡ cell_type (option_copied cell.entry) }
{
    match cell {
        None => "",
        Some(Cell::Text(_)) => "string",
        Some(Cell::List(_)) => "list",
        Some(Cell::Tuple(_)) => "tuple",
        Some(Cell::Dict(_)) => "dict",
        Some(Cell::Range { .. }) => "range",
        Some(Cell::Function(_)) => "function",
        Some(Cell::Builtin(_) | Cell::Bound { .. }) => "builtin_function_or_method",
        Some(Cell::Struct(_)) => "struct",
        Some(Cell::Label(_)) => "Label",
        Some(Cell::Path { .. }) => "path",
        Some(Cell::Host { kind, .. }) => kind.as_str(),
    }
}

/// Whether a value is true where a condition stands.
#[tactic(auto, unfolding(crate::specs::Kinds::is_true))]
pub fn truth(heap: &Heap, val: &Val) -> bool
    ensures { result ≡ is_true heap.now val.now }
{
    match val {
        Val::None => false,
        Val::Bool(flag) => *flag,
        Val::Int(number) => *number != 0,
        Val::Cell(_) => truth_of_cell(heap.cell(val)),
    }
}

#[tactic(auto, unfolding(crate::specs::Kinds::cell_is_true))]
fn truth_of_cell(cell: Option<&Cell>) -> bool
    ensures { result ≡ cell_is_true (option_copied cell.entry) }
{
    match cell {
        Some(Cell::Text(text)) => !text.as_str().is_empty(),
        Some(Cell::List(items)) => !items.items().is_empty(),
        Some(Cell::Tuple(items)) => !items.items().is_empty(),
        Some(Cell::Dict(dict)) => dict.len() != 0,
        Some(Cell::Range { first, stop, step }) => range_length(*first, *stop, *step) != 0,
        _ => true,
    }
}

/// The values over which a value iterates.
pub fn items(alloc: Global, heap: &Heap, val: &Val) -> May<Seq<Val>, Fault>
    ensures { Gives (items_of heap.now val.now) result }
{
    items_of_cell(alloc, heap.cell(val))
}

#[tactic(auto, unfolding(crate::specs::Kinds::cell_items))]
fn items_of_cell(alloc: Global, cell: Option<&Cell>) -> May<Seq<Val>, Fault>
    ensures { Gives (cell_items (option_copied cell.entry)) result }
{
    match cell {
        Some(Cell::List(items)) => Ok(copy_of(alloc, items.items())?),
        Some(Cell::Tuple(items)) => Ok(copy_of(alloc, items.items())?),
        Some(Cell::Dict(dict)) => Ok(keys(alloc, dict)?),
        Some(Cell::Range { first, stop, step }) => {
            Ok(range_values(alloc, *first, *stop, *step)?)
        }
        _ => Err(Miss::Because(Fault::Kind)),
    }
}

/// A second list of the same values.
pub fn copy_of(alloc: Global, items: &[Val]) -> Mem<Seq<Val>>
    ensures { IfOk result (λ copy. copy ≡ items.now) }
{
    Ok(Seq::of_vec(Vec::from_slice(alloc, items)?))
}

/// The pairs of a dictionary in order.
#[tactic(auto, using(crate::proofs::PairLists::one_more, crate::proofs::PairLists::pair_there))]
pub fn pairs(alloc: Global, dict: &Dict) -> Mem<Seq<Pair>>
    ensures { IfOk result (λ pairs. pairs ≡ map (λ entry. entry.pair) dict.now) }
{
    let mut pairs = Vec::new(alloc);
    'copying: for index in 0..dict.len() {
        if let Some(pair) = dict.at(index) {
            pairs.push(*pair)?;
        }
    }
    Ok(Seq::of_vec(pairs))
}

/// The keys of a dictionary in order.
#[tactic(auto, using(crate::proofs::PairLists::one_more_key, crate::proofs::PairLists::pair_there))]
pub fn keys(alloc: Global, dict: &Dict) -> Mem<Seq<Val>>
    ensures { IfOk result (λ keys. keys ≡ map (λ entry. entry.pair.key) dict.now) }
{
    let mut keys = Vec::new(alloc);
    'copying: for index in 0..dict.len() {
        if let Some(pair) = dict.at(index) {
            keys.push(pair.key)?;
        }
    }
    Ok(Seq::of_vec(keys))
}
