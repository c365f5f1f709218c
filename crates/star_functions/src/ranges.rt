//! `range`.
ghost use Rattle.std.specs.Prelude.{◌≡◌};
ghost use Rattle.star_functions.specs.Sequences as spec;

use star_calls::integer;
use star_core::{Args, Cell, Fault, NamedVal, Val};
use star_operators::Outcome;

fn range_with(
    first: Result<i64, Fault>,
    stop: Result<i64, Fault>,
    step: Result<i64, Fault>,
) -> Result<Outcome, Fault>
    ensures { result ≡ spec.range_with first stop step }
{
    let first = first?;
    let stop = stop?;
    let step = step?;
    if step == 0 {
        return Err(Fault::Zero);
    }
    Ok(Outcome::New(Cell::Range { first, stop, step }))
}

#[tactic(auto, unfolding(crate::specs::Sequences::range_of))]
fn range_of(values: &[Val]) -> Result<Outcome, Fault>
    ensures { result ≡ spec.range_of values.now }
{
    match values {
        [stop] => range_with(Ok(0), integer(*stop), Ok(1)),
        [first, stop] => range_with(integer(*first), integer(*stop), Ok(1)),
        [first, stop, step] => range_with(integer(*first), integer(*stop), integer(*step)),
        _ => Err(Fault::Arity),
    }
}

/// Whether arguments are named.
pub(crate) fn has_names(named: &[NamedVal]) -> bool
    ensures { result ≡ spec.has_names named.now }
{
    !named.is_empty()
}

/// A range of one, two or three numbers.
pub(crate) fn range_came(args: &Args) -> Result<Outcome, Fault>
    ensures { result ≡ spec.range_came args.now }
{
    if has_names(args.named.items()) {
        return Err(Fault::Arity);
    }
    range_of(args.positional.items())
}
