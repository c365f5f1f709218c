//! The values of a function's parameters.
ghost use Rattle.std.specs.Prelude.{◌≡◌, []};
ghost use Rattle.star_library.specs.Calls.{Builds};
ghost use Rattle.star_meaning.specs.Parameters as spec;

use crate::filling::put_entries;
use crate::sharing::shares_of;
use bz_text::{May, Seq, Txt};
use star_core::{Args, Cell, Dict, Fault, Heap, NamedVal, Val};
use star_meaning::{Formal, Library, Share};
use std::alloc::Global;

/// Binds the arguments of a call to a function's parameters, in order.
#[tactic(auto, unfolding(star_meaning::specs::Parameters::bound))]
pub fn bind<L: Library>(
    alloc: Global,
    library: &L,
    heap: &mut Heap,
    formals: &[Formal],
    defaults: &[Val],
    args: &Args,
) -> May<Seq<Val>, Fault>
    ensures { Builds (spec.bound L.rows formals.now defaults.now args.now heap.old) result heap.new }
{
    let shares = shares_of(alloc, formals, defaults, args)?;
    make_shares(alloc, library, heap, shares)
}

fn make_shares<L: Library>(
    alloc: Global,
    library: &L,
    heap: &mut Heap,
    shares: Seq<Share>,
) -> May<Seq<Val>, Fault>
    ensures { Builds (spec.shares_made L.rows [] shares heap.old) result heap.new }
{
    let mut values = Vec::new(alloc);
    'making: for share in shares.items() {
        match make_share(alloc, library, heap, share) {
            Ok(value) => values.push(value)?,
            Err(miss) => return Err(miss),
        }
    }
    Ok(Seq::of_vec(values))
}

#[tactic(auto, unfolding(star_meaning::specs::Parameters::share_made))]
fn make_share<L: Library>(
    alloc: Global,
    library: &L,
    heap: &mut Heap,
    share: &Share,
) -> May<Val, Fault>
    ensures { Builds (spec.share_made L.rows share.now heap.old) result heap.new }
{
    match share {
        Share::Holds(value) => Ok(*value),
        Share::Others(values) => {
            let values = Seq::of_vec(Vec::from_slice(alloc, values.items())?);
            heap.make(Cell::Tuple(values))
        }
        Share::Names(named) => make_keywords(alloc, library, heap, named.items()),
    }
}

/// A dictionary with arguments by name as its entries.
#[tactic(auto, unfolding(star_meaning::specs::Parameters::keywords_made))]
fn make_keywords<L: Library>(
    alloc: Global,
    library: &L,
    heap: &mut Heap,
    named: &[NamedVal],
) -> May<Val, Fault>
    ensures { Builds (spec.keywords_made L.rows named.now heap.old) result heap.new }
{
    let dict = heap.make(Cell::Dict(Dict::new(alloc)))?;
    put_entries(alloc, library, heap, &dict, named)?;
    Ok(dict)
}
