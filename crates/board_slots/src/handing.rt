//! Handing jobs what they waited for, and what they end with.
ghost use Rattle.std.specs.Prelude.{◌≡◌, ◌==◌, ◌≤◌, ◌<◌, Some, IfOk, is_some, length, slice_get};
ghost use Rattle.std.specs.Prelude.{slice_set, vec_len, if◌then◌else◌};
ghost use Rattle.std.specs.Arc.{arc_value};
ghost use Rattle.board_machine.specs.Boards.{RefusedWith, Slot as Standing, Valued, way_to};
ghost use Rattle.board_machine.specs.Moves.{hand_file, shelved_state, spread_refusal, with_value};
ghost use Rattle.board_machine.specs.Moves.{woken_state};
ghost use Rattle.board_slots.specs.Views.{IsGiftOf, handed, handed_slot};
ghost use Rattle.bz_base.specs.declared.refusals.Refusal.{Refusal};
ghost use Rattle.bz_tree.specs.declared.tree.Found.{Found};

use crate::chains::leads_to;
use crate::gifts::Gift;
use crate::slot::Slot;
use board_work::{Given, Work};
use bz_base::{Mem, Refusal};
use bz_tree::Found;
use std::alloc::Global;
use std::sync::Arc;

/// Hands each job what stands at its place. Takes no memory.
pub fn hand_out<W: Work>(slots: &mut Vec<Slot<W>>, gifts: Vec<Option<Gift<W::Value>>>)
    requires { length gifts.items ≤ vec_len slots.old }
    ensures { slots.new.items ≡ handed gifts.items slots.old.items }
{
    let mut gifts = gifts;
    'gifts: while let Some(gift) = gifts.pop() {
        hand_one(slots, gifts.len(), gift);
    }
}

fn hand_one<W: Work>(slots: &mut Vec<Slot<W>>, place: usize, gift: Option<Gift<W::Value>>)
    requires { place < vec_len slots.old }
    ensures { IsGiftOf place gift slots.old.items slots.new.items }
{
    if let Some(gift) = gift {
        let slot = &mut slots[place];
        slot.take(gift);
    }
}

/// What each job is handed once the job at a place has a value.
pub fn value_gifts<W: Work>(
    alloc: Global,
    slots: &[Slot<W>],
    place: usize,
    value: &Arc<W::Value>,
) -> Mem<Vec<Option<Gift<W::Value>>>>
    ensures length { IfOk result (λ gifts. length gifts.items ≡ length slots.now) }
    ensures handed { IfOk result (λ gifts. handed gifts.items slots.now ≡ with_value place (arc_value value.now) slots.now) }
{
    let mut gifts = Vec::new(alloc);
    for (at, slot) in slots.iter().enumerate() {
        gifts.push(value_gift(slot, at, place, value)?)?;
    }
    Ok(gifts)
}

fn value_gift<W: Work>(
    slot: &Slot<W>,
    at: usize,
    place: usize,
    value: &Arc<W::Value>,
) -> Mem<Option<Gift<W::Value>>>
    ensures { IfOk result (λ gift. handed_slot gift slot.now ≡ record { job = slot.now.job; state = if at == place then Valued (arc_value value.now) else woken_state place (arc_value value.now) slot.now.state }) }
{
    if at == place {
        return Ok(Some(Gift::Value(Arc::try_clone(value)?)));
    }
    match slot.next() {
        Some(other) if other == place => {
            Ok(Some(Gift::Answer(Given::Value(Arc::try_clone(value)?))))
        }
        _ => Ok(None),
    }
}

/// What each job is handed once the job at a place is refused: its refusal, where the chain of
/// parked jobs leads there.
pub fn refusal_gifts<W: Work>(
    alloc: Global,
    slots: &[Slot<W>],
    place: usize,
    refusal: &Arc<Refusal>,
) -> Mem<Vec<Option<Gift<W::Value>>>>
    ensures length { IfOk result (λ gifts. length gifts.items ≡ length slots.now) }
    ensures handed { IfOk result (λ gifts. handed gifts.items slots.now ≡ spread_refusal place (arc_value refusal.now) slots.now) }
{
    let mut gifts = Vec::new(alloc);
    for (at, slot) in slots.iter().enumerate() {
        gifts.push(refusal_gift::<W>(leads_to(slots, place, at), refusal)?)?;
    }
    Ok(gifts)
}

fn refusal_gift<W: Work>(leads: bool, refusal: &Arc<Refusal>) -> Mem<Option<Gift<W::Value>>>
    ensures { IfOk result (λ gift. (slot : Standing W.Job Found W.Value Refusal) → handed_slot gift slot ≡ (if leads then record { job = slot.job; state = RefusedWith (arc_value refusal.now) } else slot)) }
{
    if !leads {
        return Ok(None);
    }
    Ok(Some(Gift::Refusal(Arc::try_clone(refusal)?)))
}

/// What each job is handed once the file of a need is found.
pub fn file_gifts<W: Work>(
    alloc: Global,
    slots: &[Slot<W>],
    need: usize,
    found: &Arc<Found>,
) -> Mem<Vec<Option<Gift<W::Value>>>>
    ensures length { IfOk result (λ gifts. length gifts.items ≡ length slots.now) }
    ensures handed { IfOk result (λ gifts. handed gifts.items slots.now ≡ hand_file need (arc_value found.now) slots.now) }
{
    let mut gifts = Vec::new(alloc);
    for (at, slot) in slots.iter().enumerate() {
        gifts.push(file_gift(slot, need, found)?)?;
    }
    Ok(gifts)
}

fn file_gift<W: Work>(
    slot: &Slot<W>,
    need: usize,
    found: &Arc<Found>,
) -> Mem<Option<Gift<W::Value>>>
    ensures { IfOk result (λ gift. handed_slot gift slot.now ≡ record { job = slot.now.job; state = shelved_state need (arc_value found.now) slot.now.state }) }
{
    match slot.file_need() {
        Some(other) if other == need => {
            Ok(Some(Gift::Answer(Given::File(Arc::try_clone(found)?))))
        }
        _ => Ok(None),
    }
}
