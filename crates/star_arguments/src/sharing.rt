//! What each parameter takes of a call's arguments.
ghost use Rattle.std.specs.Prelude.{◌≡◌, [], IfOk, Ok, true};
ghost use Rattle.std.specs.List.{list_any};
ghost use Rattle.bz_text.specs.Answers.{Gives};
ghost use Rattle.star_meaning.specs.Arguments.{and_next};
ghost use Rattle.star_meaning.specs.Parameters as spec;

use bz_text::{May, Mem, Miss, Seq};
use star_core::{Args, Fault, NamedVal, Val};
use star_meaning::{Formal, Share};
use std::alloc::Global;

/// Whether an argument may be given to a parameter under a name.
fn is_called(name: &str, formal: &Formal) -> bool
    ensures { result ≡ spec.is_called name.now formal.now }
{
    match formal {
        Formal::Required(other) => other.as_str() == name,
        Formal::Optional(other) => other.as_str() == name,
        Formal::Bare => false,
        Formal::Rest(_) => false,
        Formal::Keywords(_) => false,
    }
}

fn is_any_called(name: &str, formals: &[Formal]) -> bool
    ensures { result ≡ list_any (spec.is_called name.now) formals.now }
{
    for formal in formals {
        if is_called(name, formal) {
            return true;
        }
    }
    false
}

fn takes_names(formal: &Formal) -> bool
    ensures { result ≡ spec.takes_names formal.now }
{
    match formal {
        Formal::Keywords(_) => true,
        _ => false,
    }
}

fn any_takes_names(formals: &[Formal]) -> bool
    ensures { result ≡ list_any spec.takes_names formals.now }
{
    for formal in formals {
        if takes_names(formal) {
            return true;
        }
    }
    false
}

fn one_value(placed: Option<Val>, named: Option<Val>, default: Option<Val>) -> Result<Val, Fault>
    ensures { result ≡ spec.one_value placed named default }
{
    match (placed, named) {
        (Some(_), Some(_)) => Err(Fault::Arity),
        (Some(value), None) => Ok(value),
        (None, Some(value)) => Ok(value),
        (None, None) => match default {
            Some(value) => Ok(value),
            None => Err(Fault::Arity),
        },
    }
}

/// The argument under a name.
fn named_value(name: &str, named: &[NamedVal]) -> Option<Val>
    ensures { result ≡ spec.named_value name.now named.now }
{
    for one in named {
        if one.name.as_str() == name {
            return Some(one.val);
        }
    }
    None
}

fn first_of(values: &[Val]) -> Option<Val>
    ensures { result ≡ spec.first_of values.now }
{
    match values {
        [] => None,
        [first, ..] => Some(*first),
    }
}

fn behind_first(values: &[Val]) -> &[Val]
    ensures { result.now ≡ spec.behind_first values.now }
{
    match values {
        [] => values,
        [_, more @ ..] => more,
    }
}

fn placed_first(placing: bool, positional: &[Val]) -> Option<Val>
    ensures { result ≡ spec.placed_first placing positional.now }
{
    if placing { first_of(positional) } else { None }
}

fn placed_behind(placing: bool, positional: &[Val]) -> &[Val]
    ensures { result.now ≡ spec.placed_behind placing positional.now }
{
    if placing {
        behind_first(positional)
    } else {
        positional
    }
}

/// Whether a parameter takes an argument with this name.
fn is_taken(formals: &[Formal], argument: &NamedVal) -> bool
    ensures { result ≡ spec.is_taken formals.now argument.now }
{
    is_any_called(argument.name.as_str(), formals)
}

fn all_taken(formals: &[Formal], named: &[NamedVal]) -> bool
    ensures { result ≡ spec.all_taken formals.now named.now }
{
    for argument in named {
        if !is_taken(formals, argument) {
            return false;
        }
    }
    true
}

/// Whether no argument by name is left over.
fn names_fit(formals: &[Formal], named: &[NamedVal]) -> bool
    ensures { result ≡ spec.names_fit formals.now named.now }
{
    any_takes_names(formals) || all_taken(formals, named)
}

/// The arguments by name that are no parameter's.
fn others_named(alloc: Global, formals: &[Formal], named: &[NamedVal]) -> Mem<Seq<NamedVal>>
    ensures { IfOk result (λ others. others ≡ spec.others_named formals.now named.now) }
{
    let mut others = Vec::new(alloc);
    'sorting: for argument in named {
        others = with_other(alloc, formals, others, argument)?;
    }
    Ok(Seq::of_vec(others))
}

fn with_other(
    alloc: Global,
    formals: &[Formal],
    others: Vec<NamedVal>,
    argument: &NamedVal,
) -> Mem<Vec<NamedVal>>
    ensures { IfOk result (λ all. all.items
        ≡ spec.other_behind formals.now others.items argument.now) }
{
    let mut all = others;
    if is_taken(formals, argument) {
        return Ok(all);
    }
    let other = NamedVal {
        name: argument.name.copy(alloc)?,
        val: argument.val,
    };
    all.push(other)?;
    Ok(all)
}

fn with_share(shares: Seq<Share>, share: Share) -> Mem<Seq<Share>>
    ensures { IfOk result (λ all. all ≡ spec.behind shares share) }
{
    let mut all = shares.into_vec();
    all.push(share)?;
    Ok(Seq::of_vec(all))
}

/// The shares with a value behind them, or why a parameter has none.
fn with_value(shares: Seq<Share>, value: Result<Val, Fault>) -> May<Seq<Share>, Fault>
    ensures { Gives (and_next value
        (λ held. Ok (spec.behind shares (Share.Holds held)))) result }
{
    match value {
        Ok(value) => Ok(with_share(shares, Share::Holds(value))?),
        Err(why) => Err(Miss::Because(why)),
    }
}

/// What each parameter takes.
#[tactic(auto, unfolding(star_meaning::specs::Parameters::shares_of))]
pub(crate) fn shares_of(
    alloc: Global,
    formals: &[Formal],
    defaults: &[Val],
    args: &Args,
) -> May<Seq<Share>, Fault>
    ensures { Gives (spec.shares_of formals.now defaults.now args.now) result }
{
    if !names_fit(formals, args.named.items()) {
        return Err(Miss::Because(Fault::Arity));
    }
    shares(
        alloc,
        formals,
        defaults,
        args.positional.items(),
        args.named.items(),
    )
}

fn shares(
    alloc: Global,
    formals: &[Formal],
    defaults: &[Val],
    positional: &[Val],
    named: &[NamedVal],
) -> May<Seq<Share>, Fault>
    ensures { Gives (spec.shares_behind formals.now named.now [] true formals.now positional.now
        defaults.now) result }
{
    let mut all = Seq::new(alloc);
    let mut placing = true;
    let mut placed = positional;
    let mut left = defaults;
    'sharing: for formal in formals {
        match formal {
            Formal::Required(name) => {
                let value = one_value(
                    placed_first(placing, placed),
                    named_value(name.as_str(), named),
                    None,
                );
                match with_value(all, value) {
                    Ok(more) => all = more,
                    Err(miss) => return Err(miss),
                }
                placed = placed_behind(placing, placed);
            }
            Formal::Optional(name) => {
                let value = one_value(
                    placed_first(placing, placed),
                    named_value(name.as_str(), named),
                    first_of(left),
                );
                match with_value(all, value) {
                    Ok(more) => all = more,
                    Err(miss) => return Err(miss),
                }
                placed = placed_behind(placing, placed);
                left = behind_first(left);
            }
            Formal::Bare => placing = false,
            Formal::Rest(_) => {
                let others = Seq::of_vec(Vec::from_slice(alloc, placed)?);
                match with_share(all, Share::Others(others)) {
                    Ok(more) => all = more,
                    Err(miss) => return Err(miss.into()),
                }
                placing = false;
                placed = &[];
            }
            Formal::Keywords(_) => {
                let others = others_named(alloc, formals, named)?;
                match with_share(all, Share::Names(others)) {
                    Ok(more) => all = more,
                    Err(miss) => return Err(miss.into()),
                }
            }
        }
    }
    match placed {
        [] => Ok(all),
        _ => Err(Miss::Because(Fault::Arity)),
    }
}
