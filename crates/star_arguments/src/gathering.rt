//! The arguments of a call, gathered.
ghost use Rattle.std.specs.Prelude.{◌≡◌, ◌++◌, ◌∷◌, [], IfOk, option_copied};
ghost use Rattle.std.specs.List.{list_any};
ghost use Rattle.bz_text.specs.Answers.{Gives};
ghost use Rattle.star_library.specs.Kinds.{items_of};
ghost use Rattle.star_meaning.specs.Arguments as spec;

use bz_text::{May, Mem, Miss, Seq, Txt};
use star_core::{Args, Cell, Fault, Heap, NamedVal, Pair, Val};
use star_library::{items, pairs, text_of};
use star_meaning::Way;
use std::alloc::Global;

/// The arguments that values give, each in its way.
#[tactic(auto, unfolding(star_meaning::specs::Arguments::gathered))]
pub fn gather(alloc: Global, heap: &Heap, ways: &[Way], values: &[Val]) -> May<Args, Fault>
    ensures { Gives (spec.gathered heap.now ways.now values.now) result }
{
    let args = give_all(alloc, heap, ways, values)?;
    if names_differ(args.named.items()) {
        Ok(args)
    } else {
        Err(Miss::Because(Fault::Arity))
    }
}

fn give_all(alloc: Global, heap: &Heap, ways: &[Way], values: &[Val]) -> May<Args, Fault>
    ensures { Gives (spec.all_behind heap.now spec.no_args ways.now values.now) result }
{
    let mut args = Args {
        positional: Seq::new(alloc),
        named: Seq::new(alloc),
    };
    let mut left = values;
    'giving: for way in ways {
        match left {
            [] => return Err(Miss::Because(Fault::Kind)),
            [value, more @ ..] => {
                match give(alloc, heap, args, way, value) {
                    Ok(given) => args = given,
                    Err(miss) => return Err(miss),
                }
                left = more;
            }
        }
    }
    match left {
        [] => Ok(args),
        _ => Err(Miss::Because(Fault::Kind)),
    }
}

/// Arguments with what a value gives in its way behind them.
#[tactic(auto, unfolding(star_meaning::specs::Arguments::given_behind))]
fn give(alloc: Global, heap: &Heap, args: Args, way: &Way, value: &Val) -> May<Args, Fault>
    ensures { Gives (spec.given_behind heap.now args way.now value.now) result }
{
    let Args { positional, named } = args;
    match way {
        Way::Positional => {
            let positional = with_value(positional, *value)?;
            Ok(Args { positional, named })
        }
        Way::Named(name) => {
            let named = with_named(named, name.copy(alloc)?, *value)?;
            Ok(Args { positional, named })
        }
        Way::Star => {
            let more = items(alloc, heap, value)?;
            let positional = with_values(positional, more.items())?;
            Ok(Args { positional, named })
        }
        Way::DoubleStar => {
            let named = keywords(alloc, heap, named, value)?;
            Ok(Args { positional, named })
        }
    }
}

fn with_value(values: Seq<Val>, value: Val) -> Mem<Seq<Val>>
    ensures { IfOk result (λ all. all ≡ values ++ value ∷ []) }
{
    let mut all = values.into_vec();
    all.push(value)?;
    Ok(Seq::of_vec(all))
}

fn with_values(values: Seq<Val>, more: &[Val]) -> Mem<Seq<Val>>
    ensures { IfOk result (λ all. all ≡ values ++ more.now) }
{
    let mut all = values.into_vec();
    all.extend_from_slice(more)?;
    Ok(Seq::of_vec(all))
}

fn with_named(named: Seq<NamedVal>, name: Txt, val: Val) -> Mem<Seq<NamedVal>>
    ensures { IfOk result (λ all. all ≡ named ++ spec.argument name val ∷ []) }
{
    let mut all = named.into_vec();
    all.push(NamedVal { name, val })?;
    Ok(Seq::of_vec(all))
}

/// The arguments by name that a dictionary with strings as its keys gives, behind others.
fn keywords(
    alloc: Global,
    heap: &Heap,
    named: Seq<NamedVal>,
    value: &Val,
) -> May<Seq<NamedVal>, Fault>
    ensures { Gives (spec.keywords_behind heap.now named value.now) result }
{
    cell_keywords(alloc, heap, named, heap.cell(value))
}

#[tactic(auto, unfolding(star_meaning::specs::Arguments::cell_keywords))]
fn cell_keywords(
    alloc: Global,
    heap: &Heap,
    named: Seq<NamedVal>,
    cell: Option<&Cell>,
) -> May<Seq<NamedVal>, Fault>
    ensures { Gives (spec.cell_keywords heap.now named (option_copied cell.entry)) result }
{
    match cell {
        Some(Cell::Dict(dict)) => {
            let pairs = pairs(alloc, dict)?;
            pairs_named(alloc, heap, named, pairs.items())
        }
        _ => Err(Miss::Because(Fault::Kind)),
    }
}

fn pairs_named(
    alloc: Global,
    heap: &Heap,
    named: Seq<NamedVal>,
    pairs: &[Pair],
) -> May<Seq<NamedVal>, Fault>
    ensures { Gives (spec.pairs_named heap.now named pairs.now) result }
{
    let mut all = named;
    'naming: for pair in pairs {
        match pair_named(alloc, heap, all, pair) {
            Ok(more) => all = more,
            Err(miss) => return Err(miss),
        }
    }
    Ok(all)
}

#[tactic(auto, unfolding(star_meaning::specs::Arguments::pair_named))]
fn pair_named(
    alloc: Global,
    heap: &Heap,
    named: Seq<NamedVal>,
    pair: &Pair,
) -> May<Seq<NamedVal>, Fault>
    ensures { Gives (spec.pair_named heap.now named pair.now) result }
{
    match text_of(heap, &pair.key) {
        None => Err(Miss::Because(Fault::Kind)),
        Some(name) => Ok(with_named(named, Txt::of(alloc, name)?, pair.value)?),
    }
}

fn has_name(name: &str, named: &[NamedVal]) -> bool
    ensures { result ≡ spec.has_name name.now named.now }
{
    for other in named {
        if other.name.as_str() == name {
            return true;
        }
    }
    false
}

#[tactic(auto, unfolding(star_meaning::specs::Arguments::names_differ))]
fn names_differ(named: &[NamedVal]) -> bool
    ensures { result ≡ spec.names_differ named.now }
{
    let mut rest = named;
    'looking: while let [one, more @ ..] = rest {
        if has_name(one.name.as_str(), more) {
            return false;
        }
        rest = more;
    }
    true
}

/// Whether an operand is iterable, so that its items can be arguments.
pub fn check_items(alloc: Global, heap: &Heap, value: &Val) -> May<(), Fault>
    ensures { Gives (spec.checked (items_of heap.now value.now)) result }
{
    let _items = items(alloc, heap, value)?;
    Ok(())
}

/// Whether an operand is a dictionary with strings as its keys.
pub fn check_keywords(alloc: Global, heap: &Heap, value: &Val) -> May<(), Fault>
    ensures { Gives (spec.checked (spec.keywords_of heap.now value.now)) result }
{
    let _named = keywords(alloc, heap, Seq::new(alloc), value)?;
    Ok(())
}
