//! What the index says before a job changes. Want of memory leaves an index that says no less.
ghost use Rattle.std.specs.Prelude.{◌≡◌, ◌≤◌, OnOk};
ghost use Rattle.board_jobs.specs.Gifts.{places_of};
ghost use Rattle.board_jobs.specs.Indexes.{AreReady, Has, IsWider, list_at};

use crate::index::Index;
use board_slots::Gift;
use board_work::Work;
use bz_base::Mem;
use std::alloc::Global;

/// A job may be queued at that place, and has no value.
pub fn ready_at(index: &mut Index, place: usize) -> Mem<()>
    ensures wider { IsWider index.old index.new }
    ensures there { OnOk result (Has place index.new.queue) }
    ensures low { OnOk result (index.new.valued ≤ place) }
{
    index.queue(place)?;
    index.lower(place);
    Ok(())
}

/// A job may read a file there, and has no value.
pub fn ready_to_read(alloc: Global, index: &mut Index, place: usize, need: usize) -> Mem<()>
    ensures wider { IsWider index.old index.new }
    ensures there { OnOk result (Has place (list_at index.new.reading need)) }
    ensures low { OnOk result (index.new.valued ≤ place) }
{
    index.read(alloc, place, need)?;
    index.lower(place);
    Ok(())
}

/// A job may wait there for the one at another place, and has no value.
pub fn ready_to_wait(alloc: Global, index: &mut Index, place: usize, other: usize) -> Mem<()>
    ensures wider { IsWider index.old index.new }
    ensures there { OnOk result (Has place (list_at index.new.waiting other)) }
    ensures low { OnOk result (index.new.valued ≤ place) }
{
    index.wait(alloc, place, other)?;
    index.lower(place);
    Ok(())
}

/// A job may wait there for one that may be queued at another place.
pub fn ready_for_new(alloc: Global, index: &mut Index, place: usize, other: usize) -> Mem<()>
    ensures wider { IsWider index.old index.new }
    ensures waits { OnOk result (Has place (list_at index.new.waiting other)) }
    ensures queued { OnOk result (Has other index.new.queue) }
    ensures low { OnOk result (index.new.valued ≤ place) }
    ensures late { OnOk result (index.new.valued ≤ other) }
{
    index.wait(alloc, place, other)?;
    index.queue(other)?;
    index.lower(place);
    index.lower(other);
    Ok(())
}

/// Jobs may be queued at the places of the gifts.
pub fn ready_for<W: Work>(index: &mut Index, gifts: &[(usize, Gift<W::Value>)]) -> Mem<()>
    ensures wider { IsWider index.old index.new }
    ensures ready { OnOk result (AreReady index.new (places_of gifts.now)) }
{
    for at in 0..gifts.len() {
        ready_at(index, place_of(&gifts[at]))?;
    }
    Ok(())
}

fn place_of<V>(gift: &(usize, Gift<V>)) -> usize
    ensures { result ≡ gift.now.0 }
{
    gift.0
}
