//! Chains of parked jobs.
ghost use Rattle.std.specs.Prelude.{◌≡◌, IfOk, is_some, option_map};
ghost use Rattle.board_machine.specs.Boards.{next_at, way_to};

use crate::slot::Slot;
use board_work::Work;
use bz_base::Mem;
use std::alloc::Global;

/// The place of the job for which the job at a place waits.
pub fn next_place<W: Work>(slots: &[Slot<W>], place: usize) -> Option<usize>
    ensures { result ≡ next_at slots.now place }
{
    slots.get(place)?.next()
}

/// The places from that one on, each before the one for which it waits, where they lead to the
/// goal.
#[tactic(auto, using(crate::proofs::Ways::way_steps))]
pub fn way_to<W: Work>(
    alloc: Global,
    slots: &[Slot<W>],
    goal: usize,
    place: usize,
) -> Mem<Option<Vec<usize>>>
    ensures { IfOk result (λ way. option_map (λ places. places.items) way ≡ way_to slots.now goal place) }
{
    let mut places = Vec::new(alloc);
    let mut at = place;
    for step in 0..slots.len() {
        if at == goal {
            return Ok(Some(places));
        }
        match next_place(slots, at) {
            None => return Ok(None),
            Some(other) => {
                places.push(at)?;
                at = other;
            }
        }
    }
    if at == goal {
        return Ok(Some(places));
    }
    Ok(None)
}

/// Whether the chain of parked jobs leads from a place to the goal.
#[tactic(auto, using(crate::proofs::Ways::way_steps))]
pub fn leads_to<W: Work>(slots: &[Slot<W>], goal: usize, place: usize) -> bool
    ensures { result ≡ is_some (way_to slots.now goal place) }
{
    let mut at = place;
    for step in 0..slots.len() {
        if at == goal {
            return true;
        }
        match next_place(slots, at) {
            None => return false,
            Some(other) => at = other,
        }
    }
    at == goal
}
