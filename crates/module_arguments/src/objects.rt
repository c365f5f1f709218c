//! The objects of a module file, as cells of a heap.
ghost use Rattle.std.specs.Prelude.{◌≡◌};
ghost use Rattle.std.specs.Option.{option_copied};
ghost use Rattle.module_arguments.specs.Objects as spec;

use crate::directives::Directive;
use star_core::{Cell, NamedVal, Val};

/// The kind of the cells that `use_extension` gives.
pub const PROXY_KIND: &str = "extension_proxy";

/// The kind of the cells that `use_repo_rule` gives.
pub const RULE_KIND: &str = "repository_rule";

/// An object of a module file. A proxy has the number of its usage, where that counts, and a rule
/// its own.
#[derive(Clone, Copy)]
pub enum Object {
    Named(Directive),
    Proxy(Option<usize>),
    Rule(Option<usize>),
}

/// The object that a cell is.
#[tactic(auto, unfolding(crate::specs::Objects::object_in))]
pub fn object_in(cell: Option<&Cell>) -> Option<Object>
    ensures { result ≡ spec.object_in (option_copied cell.entry) }
{
    match cell {
        Some(Cell::Host { kind, fields }) => object_of(kind.as_str(), number_in(fields.items())),
        _ => None,
    }
}

fn object_of(kind: &str, number: Option<usize>) -> Option<Object>
    ensures { result ≡ spec.object_of kind.now number }
{
    if kind == "extension_proxy" {
        return Some(Object::Proxy(number));
    }
    if kind == "repository_rule" {
        return Some(Object::Rule(number));
    }
    Some(Object::Named(Directive::of(kind)?))
}

/// The number in the first field.
fn number_in(fields: &[NamedVal]) -> Option<usize>
    ensures { result ≡ spec.number_in fields.now }
{
    match fields {
        [] => None,
        [field, ..] => number_of(field.val),
    }
}

fn number_of(value: Val) -> Option<usize>
    ensures { result ≡ spec.number_of value }
{
    match value {
        Val::Int(number) => natural(number),
        _ => None,
    }
}

/// A number that is not negative.
fn natural(number: i64) -> Option<usize>
    ensures { result ≡ spec.natural number }
{
    match usize::try_from(number) {
        Ok(number) => Some(number),
        Err(_) => None,
    }
}
