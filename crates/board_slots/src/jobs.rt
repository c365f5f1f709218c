//! Where jobs stand in the list of a board's jobs.
ghost use Rattle.std.specs.Prelude.{◌≡◌, ◌<◌, ◌++◌, ◌∷◌, [], length, map, vec_len, IfOk, OnErr, OnOk};
ghost use Rattle.std.specs.Prelude.{slice_get};
ghost use Rattle.std.specs.Vec.{vec_capacity};
ghost use Rattle.board_machine.specs.Boards.{Queued, job_in, jobs_at};
ghost use Rattle.std.specs.List.{position_or_len};
ghost use Rattle.std.specs.Str.{bytes_eq};
ghost use Rattle.board_machine.specs.Moves.{first_queued, goals_over, with_job};
ghost use Rattle.board_slots.specs.Views.{bare_rules};

use crate::slot::Slot;
use board_work::Work;
use bz_base::{Mem, Txt};
use std::alloc::Global;

/// Whether all these goals have values, or one is refused behind goals that all have values.
pub fn are_over<W: Work>(goals: &[Slot<W>]) -> bool
    ensures { result ≡ goals_over goals.now }
{
    for slot in goals {
        match slot.outcome() {
            Some(Ok(_)) => {}
            Some(Err(_)) => return true,
            None => return false,
        }
    }
    true
}

/// The place of the first queued job, or the number of jobs where none is.
pub fn first_queued<W: Work>(slots: &[Slot<W>]) -> usize
    ensures { result ≡ first_queued slots.now }
{
    for (place, slot) in slots.iter().enumerate() {
        if slot.is_queued() {
            return place;
        }
    }
    slots.len()
}

/// The place of a job, or the number of jobs where it isn't there.
pub fn place_of<W: Work>(work: &W, slots: &[Slot<W>], job: &W::Job) -> usize
    ensures { result ≡ position_or_len (λ slot. bytes_eq ((W.meaning work.now).text job.now) ((W.meaning work.now).text slot.job)) slots.now }
{
    for (place, slot) in slots.iter().enumerate() {
        if work.text(job) == work.text(slot.job()) {
            return place;
        }
    }
    slots.len()
}

/// Adds a job to the list, queued, unless it is there.
pub fn add_job<W: Work>(alloc: Global, work: &W, slots: &mut Vec<Slot<W>>, job: &W::Job) -> Mem<()>
    ensures added { OnOk result (slots.new.items ≡ with_job (bare_rules (W.meaning work.now)) job.now slots.old.items) }
    ensures unchanged { OnErr result (slots.new.items ≡ slots.old.items) }
{
    if place_of(work, slots, job) < slots.len() {
        return Ok(());
    }
    let copy = work.copy_job(alloc, job)?;
    slots.push(Slot::of(work.copy_job(alloc, job)?, copy))?;
    Ok(())
}

/// Adds a job to a list that has room for it, queued. Takes no memory.
pub fn push_job<W: Work>(slots: &mut Vec<Slot<W>>, job: W::Job, copy: W::Job)
    requires copied { copy ≡ job }
    requires room { vec_len slots.old < vec_capacity slots.old }
    ensures { slots.new.items ≡ slots.old.items ++ record { job = job; state = Queued [] } ∷ [] }
{
    let _ = slots.push(Slot::of(job, copy));
}

/// The texts of a job and of those at some places.
pub fn texts_at<W: Work>(
    alloc: Global,
    work: &W,
    slots: &[Slot<W>],
    job: &W::Job,
    places: &[usize],
) -> Mem<Vec<Txt>>
    ensures { IfOk result (λ texts. texts.items ≡ map (W.meaning work.now).text (job.now ∷ jobs_at slots.now places.now)) }
{
    let mut texts = Vec::new(alloc);
    texts.push(Txt::of(alloc, work.text(job))?)?;
    for place in places {
        push_text(alloc, work, slots, *place, &mut texts)?;
    }
    Ok(texts)
}

fn push_text<W: Work>(
    alloc: Global,
    work: &W,
    slots: &[Slot<W>],
    place: usize,
    texts: &mut Vec<Txt>,
) -> Mem<()>
    ensures { OnOk result (texts.new.items ≡ texts.old.items ++ map (W.meaning work.now).text (job_in (slice_get slots.now place) [])) }
{
    match slots.get(place) {
        Some(slot) => {
            texts.push(Txt::of(alloc, work.text(slot.job()))?)?;
            Ok(())
        }
        None => Ok(()),
    }
}
