//! How a board stands, and the events that change it, whatever its work is.
ghost use Rattle.std.specs.Prelude.{◌≡◌, ◌≤◌, ◌+◌, ◌<◌, ◌||◌, [], true, false, IfOk, length};
ghost use Rattle.std.specs.Prelude.{is_some, nat_lt, slice_get, take, option_map, map};
ghost use Rattle.board_core.specs.Accounts.{HasRoom, IsEvent, IsHalted, cycle_closed, ended, noted};
ghost use Rattle.board_core.specs.Accounts.{waiting_for_file, wanting_job};
ghost use Rattle.board_jobs.specs.Taking.{with_new};
ghost use Rattle.board_core.specs.Claims.{ClaimGives, claim_count};
ghost use Rattle.board_machine.specs.Boards.{OnJob, Queued};
ghost use Rattle.board_machine.specs.Events.{Finish, Park, Shelve};
ghost use Rattle.board_laws.specs.Works;
ghost use Rattle.std.specs.Arc.{arc_value};
ghost use Rattle.std.specs.List.{position_or_len};
ghost use Rattle.std.specs.Prelude.{◌∷◌};
ghost use Rattle.board_machine.specs.Moves.{finish_refused, finish_value, goals_over};
ghost use Rattle.board_machine.specs.Moves.{is_file, is_job, place_of, set_state, shelve, spread_refusal, with_slots};
ghost use Rattle.board_slots.specs.Claims.{IsReturnedAt, is_held};
ghost use Rattle.board_slots.specs.Needs.{IsFirstOpen, found_in, is_open_at};
ghost use Rattle.board_slots.specs.Views.{bare_rules, outcome_of, result_in};
ghost use Rattle.board_core.specs.Calls.{job_at, outcome_in};
ghost use Rattle.board_core.specs.Journals.{event_of};
ghost use Rattle.std.specs.Option.{option_copied};

use crate::journal::Journal;
use board_cycle::cycle_refusal;
use board_jobs::Jobs;
use board_jobs::needs::{put_file, put_job};
use board_slots::chains::way_to;
use board_slots::jobs::texts_at;
use board_slots::needs::{answer, file_number, found_at, is_open_at, job_number, wanted};
use board_slots::{Ending, Wanted};
use board_work::{BoardOf, Claim, Event, Given, Held, Stop, Work};
use bz_base::{Mem, Refusal, TreePath};
use bz_tree::Found;
use std::alloc::Global;
use std::marker::Model;
use std::sync::Arc;

/// The jobs of a board, their needs, what happened, and the steps spent.
#[derive(Drop)]
pub struct Table<W: Work, N: BoardOf<W>> {
    goals: usize,
    jobs: Jobs<W, N>,
    needs: Vec<Wanted>,
    stop: Option<Stop>,
    journal: Journal,
    spent: u64,
}

impl<W: Work, N: BoardOf<W>> Model for Table<W, N> {
    ghost use Rattle.std.specs.Prelude.{is_some, length, ◌≤◌};
    ghost use Rattle.board_core.specs.Accounts.{Table as Seen};

    ghost Value = { Seen W.Job W.Value };

    ghost view = { λ t. record { account = record { board = record { goals = t.goals; slots = t.jobs; needs = t.needs.items; halted = is_some t.stop }; journal = t.journal.events; spent = t.spent }; room = t.journal.room } };

    ghost invariant = { λ t. t.goals ≤ length t.jobs };
}

impl<W: Work, N: BoardOf<W>> Table<W, N> {
    /// A table on which each of these jobs is a goal.
    pub fn open(alloc: Global, jobs: Jobs<W, N>) -> Mem<Table<W, N>>
        ensures opened { IfOk result (λ table. table.account ≡ record {
          board = record { goals = length jobs; slots = jobs; needs = []; halted = false };
          journal = [];
          spent = 0;
        }) }
        ensures room { IfOk result (λ table. length jobs + 1 ≤ table.room) }
    {
        let mut journal = Journal::new(alloc);
        let goals = jobs.slots().len();
        journal.make_room(goals + 1)?;
        Ok(Table {
            goals,
            jobs,
            needs: Vec::new(alloc),
            stop: None,
            journal,
            spent: 0,
        })
    }

    /// Whether the job at the place is the one held, claimed by its worker after so many answers.
    pub fn holds(&self, work: &W, held: &Held<W>) -> bool
        ensures { result ≡ is_held (W.meaning work.now).text held.now.job held.now.worker held.now.answers (slice_get self.now.account.board.slots held.now.place) }
    {
        match self.jobs.slots().get(held.place as usize) {
            Some(slot) => {
                slot.is_claimed_by(held.worker, held.answers)
                    && work.text(&held.job) == work.text(slot.job())
            }
            None => false,
        }
    }

    /// Takes no memory.
    pub fn claim(&mut self, worker: u32) -> Claim<W>
        requires { self.old.account.board.halted ≡ false → HasRoom self.old }
        ensures gives { ClaimGives W.job_of W.answers_of worker self.old.account self.new.account result }
        ensures room { self.old.room ≤ self.new.room + claim_count result }
    {
        if are_over(&mut self.jobs, self.goals, self.stop.is_some()) {
            return Claim::Finished;
        }
        let place = self.jobs.first_queued();
        if place == self.jobs.slots().len() {
            return Claim::Nothing;
        }
        self.journal.write(Event::Claim {
            worker,
            job: place as u64,
        });
        self.jobs.take(worker, place)
    }

    pub fn finish_value(
        &mut self,
        alloc: Global,
        worker: u32,
        place: usize,
        value: W::Value,
        steps: u64,
    ) -> Mem<()>
        ensures { IsEvent self.old self.new (ended (Finish worker place false) steps (finish_value place value self.old.account.board) self.old.account) result }
    {
        let value = Arc::new(alloc, value)?;
        let gifts = self.jobs.value_gifts(alloc, place, &value)?;
        self.journal.make_room(self.jobs.slots().len() + 2)?;
        self.jobs.hand_out(gifts)?;
        self.journal.write(Event::Finish {
            worker,
            job: place as u64,
            refused: false,
        });
        self.spent = self.spent.saturating_add(steps);
        Ok(())
    }

    pub fn finish_refused(
        &mut self,
        alloc: Global,
        worker: u32,
        place: usize,
        refusal: Refusal,
        steps: u64,
    ) -> Mem<()>
        ensures { IsEvent self.old self.new (ended (Finish worker place true) steps (finish_refused place refusal self.old.account.board) self.old.account) result }
    {
        let refusal = Arc::new(alloc, refusal)?;
        let gifts = self.jobs.refusal_gifts(alloc, place, &refusal)?;
        self.journal.make_room(self.jobs.slots().len() + 2)?;
        self.jobs.hand_out(gifts)?;
        self.journal.write(Event::Finish {
            worker,
            job: place as u64,
            refused: true,
        });
        self.spent = self.spent.saturating_add(steps);
        Ok(())
    }

    /// The claimed job goes on at once with what was found at its file.
    pub fn go_on(
        &mut self,
        held: Held<W>,
        part: W::Part,
        need: usize,
        found: Arc<Found>,
        steps: u64,
    ) -> Mem<()>
        requires within { held.place < length self.old.account.board.slots }
        requires returned { IsReturnedAt W.job_of W.answers_of held part self.old.account.board.slots }
        ensures { IsEvent self.old self.new (ended (Park held.worker held.place need) steps (with_slots (set_state held.place (Queued (Works.Found (arc_value found) ∷ W.answers_of part)) self.old.account.board.slots) self.old.account.board) self.old.account) result }
    {
        let worker = held.worker;
        let job = held.place;
        self.journal.make_room(self.jobs.slots().len() + 2)?;
        self.jobs.queue_at(held, part, Given::File(found))?;
        self.journal.write(Event::Park {
            worker,
            job,
            need: need as u64,
        });
        self.spent = self.spent.saturating_add(steps);
        Ok(())
    }

    /// The claimed job waits for a file.
    pub fn wait(
        &mut self,
        alloc: Global,
        held: Held<W>,
        part: W::Part,
        need: usize,
        path: TreePath,
        steps: u64,
    ) -> Mem<()>
        requires number { need ≡ position_or_len (is_file path) self.old.account.board.needs }
        requires within { held.place < length self.old.account.board.slots }
        requires returned { IsReturnedAt W.job_of W.answers_of held part self.old.account.board.slots }
        ensures { IsEvent self.old self.new (ended (Park held.worker held.place need) steps (waiting_for_file held.place (W.answers_of part) need path self.old.account.board) self.old.account) result }
    {
        let worker = held.worker;
        let job = held.place;
        self.journal.make_room(self.jobs.slots().len() + 2)?;
        self.needs.reserve(1)?;
        self.jobs.wait_for_file(alloc, held, part, need)?;
        put_file(&mut self.needs, need, path);
        self.journal.write(Event::Park {
            worker,
            job,
            need: need as u64,
        });
        self.spent = self.spent.saturating_add(steps);
        Ok(())
    }

    /// The place of a job, or that which it would have.
    pub fn place_of(&self, work: &W, job: &W::Job) -> usize
        requires { work.now ≡ N.work }
        ensures { result ≡ place_of (bare_rules (W.meaning work.now)) job.now self.now.account.board.slots }
    {
        self.jobs.place_of(work, job)
    }

    pub fn has_place(&self, place: usize) -> bool
        ensures { result ≡ nat_lt place (length self.now.account.board.slots) }
    {
        place < self.jobs.slots().len()
    }

    /// The number of a job's need, or that which it would have.
    pub fn job_number(&self, place: usize) -> usize
        ensures { result ≡ position_or_len (is_job place) self.now.account.board.needs }
    {
        job_number(&self.needs, place)
    }

    /// What the job at a place came to, to be handed on.
    pub fn ending(&self, place: usize) -> Mem<Ending<W::Value>>
        ensures { IfOk result (λ ending. result_in ending ≡ outcome_in (slice_get self.now.account.board.slots place)) }
    {
        match self.jobs.slots().get(place) {
            Some(slot) => slot.ending(),
            None => Ok(Ending::Open),
        }
    }

    /// The refusal of the cycle that the job at a place closes where it asks the one at another.
    pub fn cycle(
        &self,
        alloc: Global,
        work: &W,
        job: &W::Job,
        place: usize,
        other: usize,
    ) -> Mem<Option<Arc<Refusal>>>
        ensures { IfOk result (λ refusal. option_map arc_value refusal ≡ cycle_closed (bare_rules (W.meaning work.now)) job.now place other self.now.account.board.slots) }
    {
        match way_to(alloc, self.jobs.slots(), place, other)? {
            None => Ok(None),
            Some(places) => {
                let texts = texts_at(alloc, work, self.jobs.slots(), job, places.as_slice())?;
                let refusal = cycle_refusal(alloc, texts.as_slice())?;
                Ok(Some(Arc::new(alloc, refusal)?))
            }
        }
    }

    /// The claimed job goes on at once with another one's value.
    pub fn go_on_with(
        &mut self,
        held: Held<W>,
        part: W::Part,
        need: usize,
        other: usize,
        value: Arc<W::Value>,
        steps: u64,
    ) -> Mem<()>
        requires number { need ≡ position_or_len (is_job other) self.old.account.board.needs }
        requires within { held.place < length self.old.account.board.slots }
        requires returned { IsReturnedAt W.job_of W.answers_of held part self.old.account.board.slots }
        ensures { IsEvent self.old self.new (ended (Park held.worker held.place need) steps (wanting_job other (set_state held.place (Queued (Works.Value (arc_value value) ∷ W.answers_of part)) self.old.account.board.slots) self.old.account.board) self.old.account) result }
    {
        let worker = held.worker;
        let job = held.place;
        self.journal.make_room(self.jobs.slots().len() + 2)?;
        self.needs.reserve(1)?;
        self.jobs.queue_at(held, part, Given::Value(value))?;
        put_job(&mut self.needs, need, other);
        self.journal.write(Event::Park {
            worker,
            job,
            need: need as u64,
        });
        self.spent = self.spent.saturating_add(steps);
        Ok(())
    }

    /// The claimed job is refused as another one is, or with the cycle that it closes.
    pub fn pass_refusal(
        &mut self,
        alloc: Global,
        worker: u32,
        place: usize,
        need: usize,
        other: usize,
        refusal: &Arc<Refusal>,
        steps: u64,
    ) -> Mem<()>
        requires number { need ≡ position_or_len (is_job other) self.old.account.board.needs }
        ensures { IsEvent self.old self.new (ended (Park worker place need) steps (wanting_job other (spread_refusal place (arc_value refusal.now) self.old.account.board.slots) self.old.account.board) self.old.account) result }
    {
        let gifts = self.jobs.refusal_gifts(alloc, place, refusal)?;
        self.journal.make_room(self.jobs.slots().len() + 2)?;
        self.needs.reserve(1)?;
        self.jobs.hand_out(gifts)?;
        put_job(&mut self.needs, need, other);
        self.journal.write(Event::Park {
            worker,
            job: place as u64,
            need: need as u64,
        });
        self.spent = self.spent.saturating_add(steps);
        Ok(())
    }

    /// The claimed job waits for another one.
    pub fn wait_for(
        &mut self,
        alloc: Global,
        held: Held<W>,
        part: W::Part,
        need: usize,
        other: usize,
        steps: u64,
    ) -> Mem<()>
        requires number { need ≡ position_or_len (is_job other) self.old.account.board.needs }
        requires within { held.place < length self.old.account.board.slots }
        requires returned { IsReturnedAt W.job_of W.answers_of held part self.old.account.board.slots }
        ensures { IsEvent self.old self.new (ended (Park held.worker held.place need) steps (wanting_job other (set_state held.place (OnJob (W.answers_of part) need other) self.old.account.board.slots) self.old.account.board) self.old.account) result }
    {
        let worker = held.worker;
        let job = held.place;
        self.journal.make_room(self.jobs.slots().len() + 2)?;
        self.needs.reserve(1)?;
        self.jobs.wait_for_job(alloc, held, part, need, other)?;
        put_job(&mut self.needs, need, other);
        self.journal.write(Event::Park {
            worker,
            job,
            need: need as u64,
        });
        self.spent = self.spent.saturating_add(steps);
        Ok(())
    }

    /// The claimed job waits for one that is new on the board.
    pub fn wait_for_new(
        &mut self,
        alloc: Global,
        work: &W,
        held: Held<W>,
        part: W::Part,
        need: usize,
        asked: W::Job,
        steps: u64,
    ) -> Mem<()>
        requires named { work.now ≡ N.work }
        requires new { place_of (bare_rules (W.meaning work.now)) asked self.old.account.board.slots
            ≡ length self.old.account.board.slots }
        requires number { need ≡ position_or_len (is_job (length self.old.account.board.slots)) self.old.account.board.needs }
        requires within { held.place < length self.old.account.board.slots }
        requires returned { IsReturnedAt W.job_of W.answers_of held part self.old.account.board.slots }
        ensures { IsEvent self.old self.new (ended (Park held.worker held.place need) steps (wanting_job (length self.old.account.board.slots) (set_state held.place (OnJob (W.answers_of part) need (length self.old.account.board.slots)) (with_new asked self.old.account.board.slots)) self.old.account.board) self.old.account) result }
    {
        let worker = held.worker;
        let job = held.place;
        let other = self.jobs.slots().len();
        self.journal.make_room(other + 3)?;
        self.needs.reserve(1)?;
        self.jobs
            .wait_for_new(alloc, work, held, part, need, asked)?;
        put_job(&mut self.needs, need, other);
        self.journal.write(Event::Park {
            worker,
            job,
            need: need as u64,
        });
        self.spent = self.spent.saturating_add(steps);
        Ok(())
    }

    /// The number of a file's need, or that which it would have.
    pub fn file_number(&self, path: &TreePath) -> usize
        ensures { result ≡ position_or_len (is_file path.now) self.now.account.board.needs }
    {
        file_number(&self.needs, path)
    }

    /// What was found for a need.
    pub fn found_at(&self, need: usize) -> Mem<Option<Arc<Found>>>
        ensures { IfOk result (λ found. option_map arc_value found ≡ found_in (slice_get self.now.account.board.needs need)) }
    {
        found_at(&self.needs, need)
    }

    /// Whether the need of that number is one of this file, without an answer.
    pub fn is_open_at(&self, need: usize, path: &TreePath) -> bool
        ensures { result ≡ is_open_at path.now (slice_get self.now.account.board.needs need) }
    {
        is_open_at(&self.needs, need, path)
    }

    pub fn shelve(&mut self, alloc: Global, need: usize, found: Found) -> Mem<()>
        requires { need < length self.old.account.board.needs }
        ensures { IsEvent self.old self.new (noted (Shelve need) (shelve need found self.old.account.board) self.old.account) result }
    {
        let found = Arc::new(alloc, found)?;
        let gifts = self.jobs.file_gifts(alloc, need, &found)?;
        self.journal.make_room(self.jobs.slots().len() + 2)?;
        self.jobs.hand_out(gifts)?;
        answer(&mut self.needs, need, found);
        self.journal.write(Event::Shelve { need: need as u64 });
        Ok(())
    }

    /// Keeps the reason why nothing goes on any more. Takes no memory.
    pub fn halt(&mut self, why: Stop)
        requires { self.old.account.board.halted ≡ false → HasRoom self.old }
        ensures halted { IsHalted self.old.account self.new.account }
        ensures room { self.old.room ≤ self.new.room + 1 }
        ensures same { self.old.account.board.halted ≡ true → self.old.room ≤ self.new.room }
    {
        if self.stop.is_some() {
            return;
        }
        self.stop = Some(why);
        self.journal.write(Event::Halt);
    }

    pub fn wanted(&self) -> Option<(u64, &TreePath)>
        ensures { IsFirstOpen self.now.account.board.needs result }
    {
        wanted(&self.needs)
    }

    pub fn job(&self, place: usize) -> Option<&W::Job>
        ensures { option_copied result ≡ job_at (slice_get self.now.account.board.slots place) }
    {
        match self.jobs.slots().get(place) {
            Some(slot) => Some(slot.job()),
            None => None,
        }
    }

    pub fn outcome(&self, place: usize) -> Option<Result<&Arc<W::Value>, &Refusal>>
        ensures { option_map outcome_of result ≡ outcome_in (slice_get self.now.account.board.slots place) }
    {
        match self.jobs.slots().get(place) {
            Some(slot) => slot.outcome(),
            None => None,
        }
    }

    pub fn stopped(&self) -> Option<&Stop>
        ensures { is_some result ≡ self.now.account.board.halted }
    {
        self.stop.as_ref()
    }

    pub fn spent(&self) -> u64
        ensures { result ≡ self.now.account.spent }
    {
        self.spent
    }

    pub fn journal(&self) -> &[Event]
        ensures { map event_of result.now ≡ self.now.account.journal }
    {
        self.journal.events()
    }
}

/// Whether the board is halted, or its goals are over.
fn are_over<W: Work, N: BoardOf<W>>(jobs: &mut Jobs<W, N>, goals: usize, halted: bool) -> bool
    requires { goals ≤ length jobs.old }
    ensures over { result ≡ (halted || goals_over (take goals jobs.old)) }
    ensures kept { jobs.new ≡ jobs.old }
{
    if halted {
        return true;
    }
    jobs.are_over(goals)
}
