//! The values of parameters.
ghost use Rattle.std.specs.Prelude.{◌≡◌};
ghost use Rattle.star_calls.specs.Values as spec;

use star_core::{Fault, NamedVal, Val};
use star_library::ParameterName;

/// The value of the parameter with this index, where it is given.
pub fn value_at(index: usize, values: &[Option<Val>]) -> Option<Val>
    ensures { result ≡ spec.value_at index values.now }
{
    match values.get(index) {
        Some(value) => *value,
        None => None,
    }
}

/// The value of a parameter that has to be given.
pub fn needed_at(index: usize, values: &[Option<Val>]) -> Val
    ensures { result ≡ spec.needed_at index values.now }
{
    match value_at(index, values) {
        Some(value) => value,
        None => Val::None,
    }
}

/// The value of a parameter that may be left out.
pub fn given_at(index: usize, values: &[Option<Val>]) -> Option<Val>
    ensures { result ≡ spec.given_at index values.now }
{
    given(value_at(index, values))
}

/// A value other than None.
pub fn given(value: Option<Val>) -> Option<Val>
    ensures { result ≡ spec.given value }
{
    match value {
        Some(Val::None) => None,
        other => other,
    }
}

/// An integer.
pub fn integer(value: Val) -> Result<i64, Fault>
    ensures { result ≡ spec.integer value }
{
    match value {
        Val::Int(number) => Ok(number),
        _ => Err(Fault::Kind),
    }
}

/// An integer that may be left out.
pub fn integer_or(default: i64, value: Option<Val>) -> Result<i64, Fault>
    ensures { result ≡ spec.integer_or default value }
{
    match value {
        Some(value) => integer(value),
        None => Ok(default),
    }
}

/// A bool that may be left out.
pub fn flag_or(default: bool, value: Option<Val>) -> Result<bool, Fault>
    ensures { result ≡ spec.flag_or default value }
{
    match value {
        Some(Val::Bool(flag)) => Ok(flag),
        Some(_) => Err(Fault::Kind),
        None => Ok(default),
    }
}

/// The value of the one parameter of a call that is given by name.
#[tactic(auto, unfolding(crate::specs::Values::only_named))]
pub fn only_named(name: ParameterName, named: &[NamedVal]) -> Result<Option<Val>, Fault>
    ensures { result ≡ spec.only_named name named.now }
{
    match named {
        [] => Ok(None),
        [one] => value_named(name, one),
        _ => Err(Fault::Arity),
    }
}

fn value_named(name: ParameterName, one: &NamedVal) -> Result<Option<Val>, Fault>
    ensures { result ≡ spec.value_named name one.now }
{
    if one.name.as_str() == name.text() {
        Ok(Some(one.val))
    } else {
        Err(Fault::Arity)
    }
}
