//! A claimed job asks another one.
ghost use Rattle.std.specs.Prelude.{◌≡◌, ◌<◌, None, length, slice_get};
ghost use Rattle.std.specs.List.{position_or_len};
ghost use Rattle.board_core.specs.Calls.{outcome_in};
ghost use Rattle.board_core.specs.Parks.{IsParkedAs, after_asking, after_job, parked_at, parked_on_job};
ghost use Rattle.board_machine.specs.Moves.{is_job};
ghost use Rattle.board_slots.specs.Claims.{IsReturnedAt};
ghost use Rattle.board_slots.specs.Views.{bare_rules};

use crate::table::Table;
use board_slots::Ending;
use board_work::{BoardOf, Held, Parked, Work};
use bz_base::Mem;
use std::alloc::Global;

impl<W: Work, N: BoardOf<W>> Table<W, N> {
    /// The claimed job asks another one.
    pub fn ask(
        &mut self,
        alloc: Global,
        work: &W,
        held: Held<W>,
        part: W::Part,
        asked: W::Job,
        steps: u64,
    ) -> Mem<Parked>
        requires named { work.now ≡ N.work }
        requires within { held.place < length self.old.account.board.slots }
        requires returned { IsReturnedAt W.job_of W.answers_of held part self.old.account.board.slots }
        ensures { IsParkedAs self.old self.new
            (parked_on_job (bare_rules (W.meaning work.now)) held.place asked self.old.account.board)
            (after_job (bare_rules (W.meaning work.now)) held.worker held.place held.job
            (W.answers_of part) asked steps self.old.account) result }
    {
        let other = self.place_of(work, &asked);
        if self.has_place(other) {
            return self.ask_at(alloc, work, held, part, other, steps);
        }
        let need = self.job_number(other);
        self.wait_for_new(alloc, work, held, part, need, asked, steps)?;
        Ok(Parked::Waits)
    }

    /// It asks the one that stands at another place.
    fn ask_at(
        &mut self,
        alloc: Global,
        work: &W,
        held: Held<W>,
        part: W::Part,
        other: usize,
        steps: u64,
    ) -> Mem<Parked>
        requires within { held.place < length self.old.account.board.slots }
        requires returned { IsReturnedAt W.job_of W.answers_of held part self.old.account.board.slots }
        ensures { IsParkedAs self.old self.new (parked_at held.place other self.old.account.board)
            (after_asking (bare_rules (W.meaning work.now)) held.worker held.place held.job
            (W.answers_of part) other steps self.old.account) result }
    {
        let need = self.job_number(other);
        match self.ending(other)? {
            Ending::Value(value) => {
                self.go_on_with(held, part, need, other, value, steps)?;
                Ok(Parked::Ready)
            }
            Ending::Refusal(refusal) => {
                let place = held.place as usize;
                self.pass_refusal(alloc, held.worker, place, need, other, &refusal, steps)?;
                Ok(Parked::Refused)
            }
            Ending::Open => self.ask_open(alloc, work, held, part, need, other, steps),
        }
    }

    /// It asks one that isn't done.
    fn ask_open(
        &mut self,
        alloc: Global,
        work: &W,
        held: Held<W>,
        part: W::Part,
        need: usize,
        other: usize,
        steps: u64,
    ) -> Mem<Parked>
        requires number { need ≡ position_or_len (is_job other) self.old.account.board.needs }
        requires undone { outcome_in (slice_get self.old.account.board.slots other) ≡ None }
        requires within { held.place < length self.old.account.board.slots }
        requires returned { IsReturnedAt W.job_of W.answers_of held part self.old.account.board.slots }
        ensures { IsParkedAs self.old self.new (parked_at held.place other self.old.account.board)
            (after_asking (bare_rules (W.meaning work.now)) held.worker held.place held.job
            (W.answers_of part) other steps self.old.account) result }
    {
        let place = held.place as usize;
        match self.cycle(alloc, work, &held.job, place, other)? {
            Some(refusal) => {
                self.pass_refusal(alloc, held.worker, place, need, other, &refusal, steps)?;
                Ok(Parked::Cycle)
            }
            None => {
                self.wait_for(alloc, held, part, need, other, steps)?;
                Ok(Parked::Waits)
            }
        }
    }
}
