//! Arguments of a directive: whether they bind, and which is whose.
ghost use Rattle.std.specs.Prelude.{◌≡◌, ◌&&◌, bytes_eq};
ghost use Rattle.std.specs.List.{list_all, list_any};
ghost use Rattle.module_arguments.specs.Arguments as spec;
ghost use Rattle.module_arguments.specs.Directives.{name_text};

use crate::directives::Shape;
use crate::parameters::Parameter;
use star_core::{Args, NamedVal, Val};
use star_library::Ways;

/// Whether the arguments bind to the parameters.
#[tactic(auto, unfolding(crate::specs::Arguments::binds))]
pub fn binds(shape: Shape, parameters: &[Parameter], args: &Args) -> bool
    ensures { result ≡ spec.binds shape parameters.now args.now }
{
    names_differ(args.named.items())
        && none_left(shape, parameters, args)
        && each_fits(parameters, args)
}

fn names_differ(named: &[NamedVal]) -> bool
    ensures { result ≡ spec.names_differ named.now }
{
    let mut rest = named;
    'comparing: while let [argument, more @ ..] = rest {
        if has_name(more, argument.name.as_str()) {
            return false;
        }
        rest = more;
    }
    true
}

fn has_name(named: &[NamedVal], name: &str) -> bool
    ensures { result ≡ list_any (λ other. bytes_eq other.name name.now) named.now }
{
    named.iter().any(|other| other.name.as_str() == name)
}

fn none_left(shape: Shape, parameters: &[Parameter], args: &Args) -> bool
    ensures { result ≡ spec.none_left shape parameters.now args.now }
{
    (shape.more_positional || args.positional.items().len() <= shape.positional)
        && (shape.more_named || all_known(parameters, args.named.items()))
}

fn all_known(parameters: &[Parameter], named: &[NamedVal]) -> bool
    ensures { result ≡ list_all (λ one. spec.is_parameter parameters.now one.name) named.now }
{
    named
        .iter()
        .all(|one| is_parameter(parameters, one.name.as_str()))
}

/// Whether a name is that of one of the parameters.
pub fn is_parameter(parameters: &[Parameter], name: &str) -> bool
    ensures { result ≡ spec.is_parameter parameters.now name.now }
{
    parameters.iter().any(|one| is_called(one, name))
}

fn is_called(parameter: &Parameter, name: &str) -> bool
    ensures { result ≡ (spec.takes_name parameter.now.ways
        && bytes_eq (name_text parameter.now.name) name.now) }
{
    takes_name(parameter.ways) && parameter.name.text() == name
}

fn each_fits(parameters: &[Parameter], args: &Args) -> bool
    ensures { result ≡ spec.each_fits 0 parameters.now args.now }
{
    let mut index = 0;
    'fitting: for parameter in parameters {
        let place = by_place(index, parameter, args.positional.items());
        if !fits(
            parameter.needed,
            place,
            by_name(parameter, args.named.items()),
        ) {
            return false;
        }
        index += 1;
    }
    true
}

fn fits(needed: bool, place: Option<Val>, name: Option<Val>) -> bool
    ensures { result ≡ spec.fits needed place name }
{
    match (place, name) {
        (Some(_), Some(_)) => false,
        (None, None) => !needed,
        _ => true,
    }
}

/// The argument of the parameter with this index.
pub fn argument_of(index: usize, parameter: &Parameter, args: &Args) -> Option<Val>
    ensures { result ≡ spec.argument_of index parameter.now args.now }
{
    match by_place(index, parameter, args.positional.items()) {
        Some(value) => Some(value),
        None => by_name(parameter, args.named.items()),
    }
}

fn by_place(index: usize, parameter: &Parameter, positional: &[Val]) -> Option<Val>
    ensures { result ≡ spec.by_place index parameter.now positional.now }
{
    match parameter.ways {
        Ways::Either | Ways::Position => positional.get(index).copied(),
        Ways::Name => None,
    }
}

fn by_name(parameter: &Parameter, named: &[NamedVal]) -> Option<Val>
    ensures { result ≡ spec.by_name parameter.now named.now }
{
    if takes_name(parameter.ways) {
        first_named(parameter.name.text(), named)
    } else {
        None
    }
}

fn takes_name(ways: Ways) -> bool
    ensures { result ≡ spec.takes_name ways }
{
    match ways {
        Ways::Either | Ways::Name => true,
        Ways::Position => false,
    }
}

fn first_named(name: &str, named: &[NamedVal]) -> Option<Val>
    ensures { result ≡ spec.first_named name.now named.now }
{
    'looking: for argument in named {
        if argument.name.as_str() == name {
            return Some(argument.val);
        }
    }
    None
}

/// The further arguments by position.
pub fn further(shape: Shape, args: &Args) -> &[Val]
    ensures { result.now ≡ spec.further shape args.now }
{
    let positional = args.positional.items();
    if positional.len() < shape.positional {
        &[]
    } else {
        &positional[shape.positional..]
    }
}
