//! Putting what a worker brings back in the place of its job.
ghost use Rattle.std.specs.Prelude.{◌≡◌, ◌<◌, ◌∷◌, vec_len};
ghost use Rattle.board_machine.specs.Boards.{OnFile, OnJob, Queued};
ghost use Rattle.board_machine.specs.Moves.{set_state};
ghost use Rattle.board_slots.specs.Claims.{IsReturnedAt};
ghost use Rattle.board_work.specs.Turns.{answer_of};

use crate::slot::Slot;
use board_work::{Given, Held, Work};

/// The job goes on at once with what it is given.
pub fn queue_at<W: Work>(
    slots: &mut Vec<Slot<W>>,
    held: Held<W>,
    part: W::Part,
    given: Given<W::Value>,
)
    requires within { held.place < vec_len slots.old }
    requires returned { IsReturnedAt W.job_of W.answers_of held part slots.old.items }
    ensures { slots.new.items ≡ set_state held.place (Queued (answer_of given ∷ W.answers_of part)) slots.old.items }
{
    let slot = &mut slots[held.place as usize];
    slot.queue(held, part, given);
}

/// The job waits for a file.
pub fn wait_for_file<W: Work>(slots: &mut Vec<Slot<W>>, held: Held<W>, part: W::Part, need: usize)
    requires within { held.place < vec_len slots.old }
    requires returned { IsReturnedAt W.job_of W.answers_of held part slots.old.items }
    ensures { slots.new.items ≡ set_state held.place (OnFile (W.answers_of part) need) slots.old.items }
{
    let slot = &mut slots[held.place as usize];
    slot.park_on_file(held, part, need);
}

/// The job waits for another one.
pub fn wait_for_job<W: Work>(
    slots: &mut Vec<Slot<W>>,
    held: Held<W>,
    part: W::Part,
    need: usize,
    place: usize,
)
    requires within { held.place < vec_len slots.old }
    requires returned { IsReturnedAt W.job_of W.answers_of held part slots.old.items }
    ensures { slots.new.items ≡ set_state held.place (OnJob (W.answers_of part) need place) slots.old.items }
{
    let slot = &mut slots[held.place as usize];
    slot.park_on_job(held, part, need, place);
}
