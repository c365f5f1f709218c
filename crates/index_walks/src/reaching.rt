//! The walk over links, index by index.
ghost use Rattle.std.specs.Prelude.{◌≡◌, ◌<◌, IfOk, Ok, OnOk, filter, if◌then◌else◌, length, nat_eq};
ghost use Rattle.std.specs.Prelude.{nat_lt, slice_get};
ghost use Rattle.indexmap.specs.IndexSet.{insert_all, insert_key};
ghost use Rattle.index_walks.specs.Reaching as spec;
ghost use Rattle.index_walks.specs.Reaching.{indexes_walked, links_at};

use bz_text::{Mem, Seq};
use indexmap::IndexSet;
use std::alloc::Global;

/// The indexes that are reached from the first, breadth-first.
pub fn reached(alloc: Global, links: &[Seq<u64>]) -> Mem<IndexSet<u64>>
    ensures { IfOk result (λ indexes. spec.reached links.now ≡ indexes.keys) }
{
    if links.is_empty() {
        return Ok(IndexSet::new(alloc));
    }
    walk(alloc, links)
}

/// Follows index after index until all that are known are followed.
fn walk(alloc: Global, links: &[Seq<u64>]) -> Mem<IndexSet<u64>>
    requires { 0 < length links.now }
    ensures { IfOk result (λ indexes. indexes_walked links.now ≡ Ok (record {
      known = indexes.keys;
      nodes =
          indexes.keys;
    })) }
{
    let mut indexes = IndexSet::new(alloc);
    indexes.insert(0)?;
    let mut next = 0;
    'walk: while let Some(index) = index_at(&indexes, next) {
        add_links(&mut indexes, links, index)?;
        next += 1;
    }
    Ok(indexes)
}

fn index_at(indexes: &IndexSet<u64>, position: usize) -> Option<u64>
    ensures { result ≡ slice_get indexes.now.keys position }
{
    indexes.get_index(position).copied()
}

/// Puts each index to which an index leads at the end, if it isn't there yet.
fn add_links(indexes: &mut IndexSet<u64>, links: &[Seq<u64>], index: u64) -> Mem<()>
    ensures { OnOk result (indexes.new.keys
        ≡ insert_all nat_eq indexes.old.keys (links_at links.now index)) }
{
    match links.get(index as usize) {
        Some(some) => add_each(indexes, links.len(), some.items()),
        None => Ok(()),
    }
}

fn add_each(indexes: &mut IndexSet<u64>, count: usize, more: &[u64]) -> Mem<()>
    ensures { OnOk result (indexes.new.keys
        ≡ insert_all nat_eq indexes.old.keys (filter (λ other. nat_lt other count) more.now)) }
{
    for index in more {
        add(indexes, count, *index)?;
    }
    Ok(())
}

/// Puts an index at the end if it is below the count and not there yet.
fn add(indexes: &mut IndexSet<u64>, count: usize, index: u64) -> Mem<()>
    ensures { OnOk result (indexes.new.keys
        ≡ (if nat_lt index count then insert_key nat_eq indexes.old.keys index
        else indexes.old.keys)) }
{
    if (index as usize) < count {
        indexes.insert(index)?;
    }
    Ok(())
}
