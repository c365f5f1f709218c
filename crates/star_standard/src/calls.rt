//! Calls of the library: which row a call is, and which calls call back.
ghost use Rattle.std.specs.Prelude.{◌≡◌, option_copied};
ghost use Rattle.std.specs.List.{list_any};
ghost use Rattle.star_coll.specs.Calls.{function_named};
ghost use Rattle.star_core.specs.Heaps.{cell_at};
ghost use Rattle.star_library.specs.Calls.{Builds};
ghost use Rattle.star_standard.specs.LibraryCalls as spec;

use bz_text::{May, Miss};
use star_coll::{CollFn, coll_call};
use star_core::{Args, Cell, Fault, Heap, NamedVal, Val};
use star_format::format;
use star_text::{TextMethod, text_call};

/// What a call of the library calls.
#[derive(Clone, Copy, Debug, PartialEq, Eq)]
pub enum Called {
    Function(CollFn),
    Method(CollFn, Val),
    Text(TextMethod, Val),
    Format(Val),
    Nothing,
}

/// A call of a function or a method of the library.
#[tactic(auto, unfolding(crate::specs::LibraryCalls::row_of))]
pub(crate) fn library_call(heap: &mut Heap, f: &Val, args: &Args) -> May<Val, Fault>
    ensures { Builds (spec.call_row f.now args.now heap.old) result heap.new }
{
    match what_is_called(heap, heap.cell(f)) {
        Called::Function(function) => coll_call(heap, function, None, args),
        Called::Method(method, receiver) => coll_call(heap, method, Some(&receiver), args),
        Called::Text(method, receiver) => text_call(heap, method, &receiver, args),
        Called::Format(receiver) => format(heap, &receiver, args),
        Called::Nothing => Err(Miss::Because(Fault::Kind)),
    }
}

#[tactic(auto, unfolding(crate::specs::LibraryCalls::called_in))]
fn what_is_called(heap: &Heap, cell: Option<&Cell>) -> Called
    ensures { result ≡ spec.called_in heap.now (option_copied cell.entry) }
{
    match cell {
        Some(Cell::Builtin(name)) => function_called(name.as_str()),
        Some(Cell::Bound { receiver, method }) => method_called(heap, method.as_str(), *receiver),
        _ => Called::Nothing,
    }
}

fn function_called(name: &str) -> Called
    ensures { result ≡ spec.function_called (function_named name.now) }
{
    match CollFn::function(name) {
        None => Called::Nothing,
        Some(function) => Called::Function(function),
    }
}

#[tactic(auto, unfolding(crate::specs::LibraryCalls::method_called))]
fn method_called(heap: &Heap, name: &str, receiver: Val) -> Called
    ensures { result ≡ spec.method_called (cell_at heap.now receiver) name.now receiver }
{
    match heap.cell(&receiver) {
        Some(Cell::Text(_)) => text_called(name, receiver),
        _ => container_called(CollFn::method(heap, &receiver, name), receiver),
    }
}

fn text_called(name: &str, receiver: Val) -> Called
    ensures { result ≡ spec.text_called name.now receiver }
{
    if name == "format" {
        return Called::Format(receiver);
    }
    match TextMethod::of(name) {
        None => Called::Nothing,
        Some(method) => Called::Text(method, receiver),
    }
}

fn container_called(method: Option<CollFn>, receiver: Val) -> Called
    ensures { result ≡ spec.container_called method receiver }
{
    match method {
        None => Called::Nothing,
        Some(method) => Called::Method(method, receiver),
    }
}

/// Whether a call calls back or asks the host.
#[tactic(auto, unfolding(crate::specs::LibraryCalls::calls_back_in))]
pub(crate) fn calls_back(heap: &Heap, f: &Val, args: &Args) -> bool
    ensures { result ≡ spec.calls_back_of f.now args.now heap.now }
{
    match heap.cell(f) {
        Some(Cell::Builtin(name)) => name_calls_back(name.as_str(), args),
        _ => false,
    }
}

fn name_calls_back(name: &str, args: &Args) -> bool
    ensures { result ≡ spec.name_calls_back name.now args.now }
{
    needs_evaluation(name) || has_called_key(name, args)
}

fn needs_evaluation(name: &str) -> bool
    ensures { result ≡ spec.needs_evaluation name.now }
{
    name == "fail" || (name == "getattr" || name == "hasattr")
}

fn has_called_key(name: &str, args: &Args) -> bool
    ensures { result ≡ spec.has_called_key name.now args.now }
{
    if name == "sorted" {
        return has_key(args.positional.items().get(1).copied(), args);
    }
    if name == "max" || name == "min" {
        return has_key(None, args);
    }
    false
}

fn has_key(placed: Option<Val>, args: &Args) -> bool
    ensures { result ≡ spec.has_key placed args.now }
{
    some_given(placed) || any_named_key(args.named.items())
}

fn some_given(value: Option<Val>) -> bool
    ensures { result ≡ spec.some_given value }
{
    match value {
        None | Some(Val::None) => false,
        Some(_) => true,
    }
}

fn any_named_key(named: &[NamedVal]) -> bool
    ensures { result ≡ list_any spec.is_named_key named.now }
{
    for argument in named {
        if is_named_key(argument) {
            return true;
        }
    }
    false
}

fn is_named_key(argument: &NamedVal) -> bool
    ensures { result ≡ spec.is_named_key argument.now }
{
    argument.name.as_str() == "key" && some_given(Some(argument.val))
}
