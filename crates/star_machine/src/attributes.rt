//! Attributes that no host answers for.
ghost use Rattle.std.specs.Prelude.{◌≡◌, Some, map, option_copied};
ghost use Rattle.star_core.specs.LibraryNames as library;
ghost use Rattle.star_machine.specs.Configs.{config_of};
ghost use Rattle.star_machine.specs.Outcomes.{Acted};
ghost use Rattle.star_machine.specs.Steps as steps;
ghost use Rattle.star_meaning.specs.Attributes as spec;

use crate::machine::{Machine, Next, fault, of_fault};
use bz_text::{May, Txt};
use star_code::Code;
use star_core::{Cell, Fault, Heap, NamedVal, Val};
use star_meaning::{Attribute, Reason};

/// The methods of strings.
pub const TEXT_METHODS: [&str; 32] = [
    "capitalize",
    "count",
    "elems",
    "endswith",
    "find",
    "format",
    "index",
    "isalnum",
    "isalpha",
    "isdigit",
    "islower",
    "isspace",
    "istitle",
    "isupper",
    "join",
    "lower",
    "lstrip",
    "partition",
    "removeprefix",
    "removesuffix",
    "replace",
    "rfind",
    "rindex",
    "rpartition",
    "rsplit",
    "rstrip",
    "split",
    "splitlines",
    "startswith",
    "strip",
    "title",
    "upper",
];

/// The methods of lists.
pub const LIST_METHODS: [&str; 7] = [
    "append", "clear", "extend", "index", "insert", "pop", "remove",
];

/// The methods of dictionaries.
pub const DICT_METHODS: [&str; 9] = [
    "clear",
    "get",
    "items",
    "keys",
    "pop",
    "popitem",
    "setdefault",
    "update",
    "values",
];

/// Whether a name is among others.
fn is_among(name: &str, names: &[&str]) -> bool
    ensures { result ≡ library.is_among name.now (map (λ other. other.now) names.now) }
{
    for other in names {
        if *other == name {
            return true;
        }
    }
    false
}

#[tactic(auto, unfolding(star_core::specs::LibraryNames::text_methods))]
fn is_text_method(name: &str) -> bool
    ensures { result ≡ library.is_among name.now library.text_methods }
{
    is_among(name, &TEXT_METHODS)
}

#[tactic(auto, unfolding(star_core::specs::LibraryNames::list_methods))]
fn is_list_method(name: &str) -> bool
    ensures { result ≡ library.is_among name.now library.list_methods }
{
    is_among(name, &LIST_METHODS)
}

#[tactic(auto, unfolding(star_core::specs::LibraryNames::dict_methods))]
fn is_dict_method(name: &str) -> bool
    ensures { result ≡ library.is_among name.now library.dict_methods }
{
    is_among(name, &DICT_METHODS)
}

fn method_if(there: bool) -> Attribute
    ensures { result ≡ spec.method_if there }
{
    if there {
        Attribute::IsMethod
    } else {
        Attribute::Missing
    }
}

/// The value under a name.
fn field(name: &str, fields: &[NamedVal]) -> Attribute
    ensures { result ≡ spec.field_of name.now fields.now }
{
    for field in fields {
        if field.name.as_str() == name {
            return Attribute::Lies(field.val);
        }
    }
    Attribute::Missing
}

/// The attribute of a cell with a number.
fn attribute_in(number: u32, cell: &Cell, name: &str) -> Attribute
    ensures { result ≡ spec.attribute_in number (Some cell.now) name.now }
{
    match cell {
        Cell::Host { kind: _, fields: _ } => Attribute::Hosted(number),
        Cell::Path {
            repo: _,
            segments: _,
        } => Attribute::Hosted(number),
        Cell::Struct(fields) => field(name, fields.items()),
        Cell::Text(_) => method_if(is_text_method(name)),
        Cell::List(_) => method_if(is_list_method(name)),
        Cell::Dict(_) => method_if(is_dict_method(name)),
        _ => Attribute::Missing,
    }
}

/// Where an attribute of a value comes from.
#[tactic(auto, unfolding(star_meaning::specs::Attributes::attribute_of))]
pub fn attribute(heap: &Heap, val: &Val, name: &str) -> Attribute
    ensures { result ≡ spec.attribute_of heap.now val.now name.now }
{
    let Val::Cell(number) = *val else {
        return Attribute::Missing;
    };
    match heap.cell(val) {
        None => Attribute::Missing,
        Some(cell) => attribute_in(number, cell, name),
    }
}

/// A name of a file's code.
#[tactic(auto, unfolding(crate::specs::Steps::name_of))]
pub fn name_of(codes: &[Code], file: usize, index: usize) -> Option<&Txt>
    ensures { option_copied result ≡ steps.name_of codes.now file index }
{
    codes.get(file)?.names.as_slice().get(index)
}

impl Machine {
    /// An attribute of the top, by the number of its name.
    pub fn attribute(&mut self, codes: &[Code], index: usize) -> May<Next, Reason>
        ensures { Acted (steps.attribute_named
            (steps.name_of codes.now self.old.task.file index) (config_of codes.now self.old))
            result (config_of codes.now self.new) }
    {
        match name_of(codes, self.task.file, index) {
            None => fault(Fault::Kind),
            Some(name) => self.read_attribute(codes, name),
        }
    }

    fn read_attribute(&mut self, codes: &[Code], name: &Txt) -> May<Next, Reason>
        ensures { Acted (steps.attribute_step name.now (config_of codes.now self.old)) result
            (config_of codes.now self.new) }
    {
        let Some(value) = self.task.stack.pop() else {
            return fault(Fault::Kind);
        };
        match attribute(&self.heap, &value, name.as_str()) {
            Attribute::Hosted(_) => fault(Fault::Kind),
            Attribute::Lies(held) => {
                self.task.stack.push(held)?;
                Ok(Next::On)
            }
            Attribute::IsMethod => self.push_method(codes, value, name),
            Attribute::Missing => fault(Fault::Attr),
        }
    }

    /// A method of a value, to be called later.
    fn push_method(&mut self, codes: &[Code], receiver: Val, name: &Txt) -> May<Next, Reason>
        ensures { Acted (steps.method_pushed receiver name.now self.old.task.stack
            (config_of codes.now self.old)) result (config_of codes.now self.new) }
    {
        let method = name.copy(self.alloc)?;
        let bound = of_fault(self.heap.make(Cell::Bound { receiver, method }))?;
        self.task.stack.push(bound)?;
        Ok(Next::On)
    }
}
