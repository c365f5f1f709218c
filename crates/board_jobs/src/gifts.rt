//! What jobs are handed once a job has a value or is refused, or a file is found.
ghost use Rattle.std.specs.Prelude.{◌≡◌, ◌++◌, ◌∷◌, ◌==◌, [], IfOk, OnErr, OnOk, slice_get, is_some, if◌then◌else◌};
ghost use Rattle.std.specs.Arc.{arc_value};
ghost use Rattle.board_machine.specs.Boards.{RefusedWith, Valued, next_at, way_to};
ghost use Rattle.board_machine.specs.Moves.{hand_file, spread_refusal, with_value};
ghost use Rattle.board_laws.specs.Works;
ghost use Rattle.board_laws.specs.Works.{Value};
ghost use Rattle.board_slots.specs.Views.{woken};
ghost use Rattle.board_jobs.specs.Gifts.{AddsGift, AddsIf, all_handed, file_need_at, handed_at};
ghost use Rattle.board_jobs.specs.Gifts.{is_at, waits_for};
ghost use Rattle.board_jobs.specs.Indexes.{AllFit};

use crate::index::Index;
use board_slots::chains::{leads_to, next_place};
use board_slots::{Gift, Slot};
use board_work::{Given, Work};
use bz_base::{Mem, Refusal};
use bz_tree::Found;
use std::alloc::Global;
use std::sync::Arc;

/// Hands out the gifts, the last one first. Takes no memory.
pub fn hand_out<W: Work>(slots: &mut Vec<Slot<W>>, gifts: Vec<(usize, Gift<W::Value>)>)
    ensures { slots.new.items ≡ all_handed gifts.items slots.old.items }
{
    let mut gifts = gifts;
    'gifts: while let Some((place, gift)) = gifts.pop() {
        hand_one(slots, place, gift);
    }
}

fn hand_one<W: Work>(slots: &mut Vec<Slot<W>>, place: usize, gift: Gift<W::Value>)
    ensures { slots.new.items ≡ handed_at place gift slots.old.items }
{
    if place < slots.len() {
        let slot = &mut slots[place];
        slot.take(gift);
    }
}

/// What jobs are handed once the job at a place has a value.
pub fn value_gifts<W: Work>(
    alloc: Global,
    slots: &[Slot<W>],
    index: &Index,
    place: usize,
    value: &Arc<W::Value>,
) -> Mem<Vec<(usize, Gift<W::Value>)>>
    requires { AllFit index.now slots.now }
    ensures { IfOk result (λ gifts. all_handed gifts.items slots.now
        ≡ with_value place (arc_value value.now) slots.now) }
{
    let mut gifts = Vec::new(alloc);
    add_value::<W>(place, value, &mut gifts)?;
    let waiting = index.waiting(place);
    for at in waiting {
        add_waiter(slots, *at, place, value, &mut gifts)?;
    }
    Ok(gifts)
}

fn add_value<W: Work>(
    place: usize,
    value: &Arc<W::Value>,
    gifts: &mut Vec<(usize, Gift<W::Value>)>,
) -> Mem<()>
    ensures { OnOk result (AddsGift (λ state. Valued (arc_value value.now)) place
        gifts.old.items gifts.new.items) }
{
    gifts.push((place, Gift::Value(Arc::try_clone(value)?)))?;
    Ok(())
}

/// A job that waits for the one at a place is handed its value.
fn add_waiter<W: Work>(
    slots: &[Slot<W>],
    at: usize,
    place: usize,
    value: &Arc<W::Value>,
    gifts: &mut Vec<(usize, Gift<W::Value>)>,
) -> Mem<()>
    ensures { OnOk result (AddsIf (waits_for slots.now place at) (woken (Value (arc_value value.now)))
        at gifts.old.items gifts.new.items) }
{
    if at == place {
        return Ok(());
    }
    match next_place(slots, at) {
        Some(other) if other == place => {
            let given = Given::Value(Arc::try_clone(value)?);
            gifts.push((at, Gift::Answer(given)))?;
            Ok(())
        }
        _ => Ok(()),
    }
}

/// What jobs are handed once the file of a need is found.
pub fn file_gifts<W: Work>(
    alloc: Global,
    slots: &[Slot<W>],
    index: &Index,
    need: usize,
    found: &Arc<Found>,
) -> Mem<Vec<(usize, Gift<W::Value>)>>
    requires { AllFit index.now slots.now }
    ensures { IfOk result (λ gifts. all_handed gifts.items slots.now
        ≡ hand_file need (arc_value found.now) slots.now) }
{
    let mut gifts = Vec::new(alloc);
    let reading = index.reading(need);
    for at in reading {
        add_reader(slots, *at, need, found, &mut gifts)?;
    }
    Ok(gifts)
}

/// A job that waits for a file is handed what was found.
fn add_reader<W: Work>(
    slots: &[Slot<W>],
    at: usize,
    need: usize,
    found: &Arc<Found>,
    gifts: &mut Vec<(usize, Gift<W::Value>)>,
) -> Mem<()>
    ensures { OnOk result (AddsIf (is_at need (file_need_at slots.now at))
        (woken (Works.Found (arc_value found.now))) at gifts.old.items gifts.new.items) }
{
    match file_need(slots, at) {
        Some(other) if other == need => {
            let given = Given::File(Arc::try_clone(found)?);
            gifts.push((at, Gift::Answer(given)))?;
            Ok(())
        }
        _ => Ok(()),
    }
}

fn file_need<W: Work>(slots: &[Slot<W>], at: usize) -> Option<usize>
    ensures { result ≡ file_need_at slots.now at }
{
    slots.get(at)?.file_need()
}

/// What jobs are handed once the job at a place is refused: its refusal, where the chain of
/// waiting jobs leads there.
pub fn refusal_gifts<W: Work>(
    alloc: Global,
    slots: &[Slot<W>],
    place: usize,
    refusal: &Arc<Refusal>,
) -> Mem<Vec<(usize, Gift<W::Value>)>>
    ensures { IfOk result (λ gifts. all_handed gifts.items slots.now
        ≡ spread_refusal place (arc_value refusal.now) slots.now) }
{
    let mut gifts = Vec::new(alloc);
    for at in 0..slots.len() {
        add_refused(slots, at, place, refusal, &mut gifts)?;
    }
    Ok(gifts)
}

/// A job whose chain of waiting jobs leads to a place is handed the refusal there.
fn add_refused<W: Work>(
    slots: &[Slot<W>],
    at: usize,
    place: usize,
    refusal: &Arc<Refusal>,
    gifts: &mut Vec<(usize, Gift<W::Value>)>,
) -> Mem<()>
    ensures { OnOk result (AddsIf (is_some (way_to slots.now place at))
        (λ state. RefusedWith (arc_value refusal.now)) at gifts.old.items gifts.new.items) }
{
    if leads_to(slots, place, at) {
        gifts.push((at, Gift::Refusal(Arc::try_clone(refusal)?)))?;
    }
    Ok(())
}
