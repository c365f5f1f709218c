//! Searches in the list of jobs that begin where the index says.
ghost use Rattle.std.specs.Prelude.{◌≡◌, ◌≤◌, length, slice_get, take};
ghost use Rattle.board_machine.specs.Moves.{first_queued, goals_over};
ghost use Rattle.board_jobs.specs.Indexes.{AllFit, AreValued, has_value, is_queued_at};

use crate::index::Index;
use board_slots::Slot;
use board_work::Work;

/// The place of the first queued job, or the number of jobs where none is.
pub fn first_queued<W: Work>(slots: &[Slot<W>], index: &mut Index) -> usize
    requires { AllFit index.old slots.now }
    ensures first { result ≡ first_queued slots.now }
    ensures fits { AllFit index.new slots.now }
{
    'places: while let Some(place) = index.first() {
        if is_queued_at(slots, place) {
            return place;
        }
        index.drop_first();
    }
    slots.len()
}

/// Whether the first jobs, as many as there are goals, all have values, or one is refused behind jobs
/// that all have values.
pub fn are_over<W: Work>(slots: &[Slot<W>], index: &mut Index, goals: usize) -> bool
    requires fits { AllFit index.old slots.now }
    requires goals { goals ≤ length slots.now }
    ensures over { result ≡ goals_over (take goals slots.now) }
    ensures fits { AllFit index.new slots.now }
{
    let valued = first_unvalued(slots, index.valued());
    index.set_valued(valued);
    are_over_behind(slots, valued, goals)
}

fn are_over_behind<W: Work>(slots: &[Slot<W>], valued: usize, goals: usize) -> bool
    requires valued { AreValued valued slots.now }
    requires goals { goals ≤ length slots.now }
    ensures { result ≡ goals_over (take goals slots.now) }
{
    if valued < goals {
        return board_slots::jobs::are_over(&slots[valued..goals]);
    }
    true
}

fn is_queued_at<W: Work>(slots: &[Slot<W>], place: usize) -> bool
    ensures { result ≡ is_queued_at (slice_get slots.now place) }
{
    match slots.get(place) {
        Some(slot) => slot.is_queued(),
        None => false,
    }
}

/// A number of first jobs that all have values, where so many have.
pub fn first_unvalued<W: Work>(slots: &[Slot<W>], valued: usize) -> usize
    requires { AreValued valued slots.now }
    ensures { AreValued result slots.now }
{
    let mut valued = valued;
    'jobs: while has_value(slots, valued) {
        valued += 1;
    }
    valued
}

fn has_value<W: Work>(slots: &[Slot<W>], place: usize) -> bool
    ensures { result ≡ has_value (slice_get slots.now place) }
{
    match slots.get(place) {
        Some(slot) => match slot.outcome() {
            Some(Ok(_)) => true,
            _ => false,
        },
        None => false,
    }
}
