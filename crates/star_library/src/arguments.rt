//! Arguments: which of a call's arguments is the value of which parameter.
ghost use Rattle.std.specs.Prelude.{◌≡◌, ◌+◌, ◌++◌, bytes_eq, length, slice_get};
ghost use Rattle.std.specs.Option.{option_to_list};
ghost use Rattle.bz_text.specs.Answers.{Gives};
ghost use Rattle.star_library.specs.Arguments as spec;
ghost use Rattle.star_library.specs.Arguments.{and_argument, arguments_bound, at_most_one};
ghost use Rattle.star_library.specs.Arguments.{by_name, placed, unless_needed, values_named};

use crate::parameter_names::ParameterName;
use bz_text::{May, Miss, Seq};
use star_core::{Args, Fault, NamedVal, Val};
use std::alloc::Global;

/// How a parameter may be given.
#[derive(Clone, Copy, Debug, PartialEq, Eq)]
pub enum Ways {
    Either,
    Position,
    Name,
}

/// A parameter of a library call. Those that may be given by position come first.
#[derive(Clone, Copy, Debug, PartialEq, Eq)]
pub struct Parameter {
    pub name: ParameterName,
    pub needed: bool,
    pub ways: Ways,
}

impl Parameter {
    /// A parameter that has to be given.
    pub const fn needed(name: ParameterName) -> Parameter
        ensures { result ≡ spec.needed name }
    {
        Parameter {
            name,
            needed: true,
            ways: Ways::Either,
        }
    }

    /// A parameter that may be left out.
    pub const fn optional(name: ParameterName) -> Parameter
        ensures { result ≡ spec.optional name }
    {
        Parameter {
            name,
            needed: false,
            ways: Ways::Either,
        }
    }
}

/// The value of each parameter in order, where it has one.
#[tactic(auto, unfolding(crate::specs::Arguments::arguments_bound))]
pub fn bind(alloc: Global, parameters: &[Parameter], args: &Args) -> May<Seq<Option<Val>>, Fault>
    ensures { Gives (arguments_bound parameters.now args.now) result }
{
    let values = each_value(alloc, parameters, args)?;
    if given_count(values.items()) == args.positional.items().len() + args.named.items().len() {
        Ok(values)
    } else {
        Err(Miss::Because(Fault::Arity))
    }
}

fn each_value(alloc: Global, parameters: &[Parameter], args: &Args) -> May<Seq<Option<Val>>, Fault>
    ensures { Gives (spec.each_value 0 parameters.now args.now) result }
{
    let mut values = Vec::new(alloc);
    'binding: for parameter in parameters {
        match value_of(values.len(), parameter, args) {
            Ok(value) => values.push(value)?,
            Err(reason) => return Err(Miss::Because(reason)),
        }
    }
    Ok(Seq::of_vec(values))
}

#[tactic(auto, unfolding(crate::specs::Arguments::value_of))]
fn value_of(index: usize, parameter: &Parameter, args: &Args) -> Result<Option<Val>, Fault>
    ensures { result ≡ spec.value_of index parameter.now args.now }
{
    let first = placed_value(parameter.ways, args.positional.items(), index);
    let named = named_values(parameter.ways, args.named.items());
    needed_value(
        parameter.needed,
        one_value(first, parameter.name.text(), named),
    )
}

fn placed_value(ways: Ways, positional: &[Val], index: usize) -> Option<Val>
    ensures { result ≡ placed ways (slice_get positional.now index) }
{
    match ways {
        Ways::Either | Ways::Position => positional.get(index).copied(),
        Ways::Name => None,
    }
}

fn named_values(ways: Ways, named: &[NamedVal]) -> &[NamedVal]
    ensures { result.now ≡ by_name ways named.now }
{
    match ways {
        Ways::Either | Ways::Name => named,
        Ways::Position => &[],
    }
}

fn needed_value(needed: bool, bound: Result<Option<Val>, Fault>) -> Result<Option<Val>, Fault>
    ensures { result ≡ unless_needed needed bound }
{
    match bound {
        Ok(None) if needed => Err(Fault::Arity),
        other => other,
    }
}

/// The first value, or else the one under a name, where there is one alone.
fn one_value(first: Option<Val>, name: &str, named: &[NamedVal]) -> Result<Option<Val>, Fault>
    ensures { result ≡ at_most_one (option_to_list first ++ values_named name.now named.now) }
{
    let mut found = first;
    'looking: for argument in named {
        match with_argument(found, name, argument) {
            Ok(now) => found = now,
            Err(reason) => return Err(reason),
        }
    }
    Ok(found)
}

/// The value so far, or that of an argument under the name.
fn with_argument(found: Option<Val>, name: &str, argument: &NamedVal) -> Result<Option<Val>, Fault>
    ensures { result
        ≡ and_argument found (bytes_eq name.now argument.now.name) argument.now.val }
{
    if name != argument.name.as_str() {
        return Ok(found);
    }
    match found {
        None => Ok(Some(argument.val)),
        Some(_) => Err(Fault::Arity),
    }
}

fn given_count(values: &[Option<Val>]) -> usize
    ensures { result ≡ spec.given_count values.now }
{
    let mut count = 0;
    'counting: for value in values {
        if value.is_some() {
            count += 1;
        }
    }
    count
}
