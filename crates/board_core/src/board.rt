//! The board of a work, on which any number of workers go on.
ghost use Rattle.std.specs.Prelude.{◌≡◌, true, ℕ, List, Some, is_err, is_some, map, slice_get, option_map};
ghost use Rattle.std.specs.Prelude.{IfOk, []};
ghost use Rattle.board_laws.specs.Results.{AllOwn, IsGiven};
ghost use Rattle.board_slots.specs.Views.{bare_rules};
ghost use Rattle.bz_tree.specs.declared.tree.Found.{Found};
ghost use Rattle.board_core.specs.Accounts.{IsHalted, ended, noted, opened};
ghost use Rattle.board_core.specs.Calls.{HappensIf, IsAsking, IsGivenRightly, job_at, outcome_in};
ghost use Rattle.board_core.specs.Claims.{ClaimGives};
ghost use Rattle.board_core.specs.Histories.{IsOutcomeOf, finish_with};
ghost use Rattle.board_core.specs.Parks.{HeldParkGives};
ghost use Rattle.board_machine.specs.Events.{Finish, Shelve, with_jobs};
ghost use Rattle.board_machine.specs.Moves.{shelve};
ghost use Rattle.board_slots.specs.Claims.{is_held};
ghost use Rattle.board_slots.specs.Needs.{IsFirstOpen, is_open_at};
ghost use Rattle.board_slots.specs.Views.{outcome_of};
ghost use Rattle.board_core.specs.Journals.{event_of};
ghost use Rattle.std.specs.Option.{option_copied};
ghost use Rattle.board_work.specs.Turns.{need_turn, rules_of};
ghost use Rattle.board_work.specs.declared.turns.Need.TheVariants.{File, Job};

use crate::table::Table;
use board_jobs::Jobs;
use board_work::{BoardOf, Claim, Event, Held, Need, Parked, Stop, Work};
use bz_base::{Mem, OutOfMemory, Refusal, Seq, TreePath};
use bz_tree::Found;
use std::alloc::Global;
use std::marker::{Model, PhantomData};
use std::sync::Arc;

/// The jobs of a work, on which any number of workers go on. Contracts see how it stands, what
/// happened on it, and the steps spent.
#[derive(Drop)]
pub struct Board<W: Work, N: BoardOf<W>> {
    table: Table<W, N>,
    of: PhantomData<N>,
}

impl<W: Work, N: BoardOf<W>> Model for Board<W, N> {
    ghost use Rattle.board_core.specs.Accounts.{Account};
    ghost use Rattle.board_core.specs.Histories.{IsKept};

    ghost Value = { Account W.Job W.Value };

    ghost view = { λ board. board.table.account };

    ghost invariant = { λ board. IsKept (W.meaning N.work) N.files N.goals board.table };
}

impl<W: Work, N: BoardOf<W>> Board<W, N> {
    /// A board whose goals are queued, equal ones once, and on which nothing has happened.
    pub fn begin(alloc: Global, work: &W, goals: Seq<W::Job>) -> Mem<Board<W, N>>
        requires named { work.now ≡ N.work }
        requires goals { goals ≡ N.goals }
        requires own { AllOwn (bare_rules (W.meaning N.work)) N.goals }
        ensures { IfOk result (λ board. board ≡ opened (bare_rules (W.meaning N.work)) N.goals) }
    {
        let jobs = goal_jobs::<W, N>(alloc, work, goals.items())?;
        Ok(Board {
            table: Table::open(alloc, jobs)?,
            of: PhantomData,
        })
    }

    /// Claims the queued job with the least number. Takes no memory.
    pub fn claim(&mut self, worker: u32) -> Claim<W>
        ensures gives { ClaimGives W.job_of W.answers_of worker self.old self.new result }
        ensures given { (file : List ℕ → Found) → N.files ≡ Some file → IsGivenRightly (rules_of (W.meaning N.work) file) W.answers_of result }
    {
        self.table.claim(worker)
    }

    /// Parks a claimed job on its next need. It is Stray where the job isn't held, and then nothing
    /// changes.
    pub fn park(
        &mut self,
        alloc: Global,
        work: &W,
        held: Held<W>,
        part: W::Part,
        need: Need<W::Job>,
        spent: u64,
    ) -> Mem<Parked>
        requires named { work.now ≡ N.work }
        requires own { (W.meaning N.work).own held.job ≡ true }
        requires asking { IsAsking (W.meaning N.work) held.job (W.job_of part) (W.answers_of part) held.answers (need_turn need) spent }
        requires given { (file : List ℕ → Found) → N.files ≡ Some file → IsGiven (rules_of (W.meaning N.work) file) held.job (W.answers_of part) }
        ensures { HeldParkGives (W.meaning N.work) held (W.answers_of part) need spent self.old self.new result }
    {
        match need {
            Need::File(path) => self.park_on_file(alloc, work, held, part, path, spent),
            Need::Job(asked) => self.park_on_job(alloc, work, held, part, asked, spent),
        }
    }

    /// Parks a claimed job on a file, or queues it at once with what was found there.
    fn park_on_file(
        &mut self,
        alloc: Global,
        work: &W,
        held: Held<W>,
        part: W::Part,
        path: TreePath,
        spent: u64,
    ) -> Mem<Parked>
        requires named { work.now ≡ N.work }
        requires own { (W.meaning N.work).own held.job ≡ true }
        requires asking { IsAsking (W.meaning N.work) held.job (W.job_of part) (W.answers_of part) held.answers (need_turn (File path)) spent }
        requires given { (file : List ℕ → Found) → N.files ≡ Some file → IsGiven (rules_of (W.meaning N.work) file) held.job (W.answers_of part) }
        ensures { HeldParkGives (W.meaning N.work) held (W.answers_of part) (File path) spent self.old self.new result }
    {
        if !self.table.holds(work, &held) {
            return Ok(Parked::Stray);
        }
        if held.answers >= u64::MAX {
            return Err(OutOfMemory);
        }
        let need = self.table.file_number(&path);
        match self.table.found_at(need)? {
            Some(found) => {
                self.table.go_on(held, part, need, found, spent)?;
                Ok(Parked::Ready)
            }
            None => {
                self.table.wait(alloc, held, part, need, path, spent)?;
                Ok(Parked::Waits)
            }
        }
    }

    /// Parks a claimed job on another one, or lets it go on, or refuses it, at once.
    fn park_on_job(
        &mut self,
        alloc: Global,
        work: &W,
        held: Held<W>,
        part: W::Part,
        asked: W::Job,
        spent: u64,
    ) -> Mem<Parked>
        requires named { work.now ≡ N.work }
        requires own { (W.meaning N.work).own held.job ≡ true }
        requires asking { IsAsking (W.meaning N.work) held.job (W.job_of part) (W.answers_of part) held.answers (need_turn (Job asked)) spent }
        requires given { (file : List ℕ → Found) → N.files ≡ Some file → IsGiven (rules_of (W.meaning N.work) file) held.job (W.answers_of part) }
        ensures { HeldParkGives (W.meaning N.work) held (W.answers_of part) (Job asked) spent self.old self.new result }
    {
        if !self.table.holds(work, &held) {
            return Ok(Parked::Stray);
        }
        if held.answers >= u64::MAX {
            return Err(OutOfMemory);
        }
        let parked = self.table.ask(alloc, work, held, part, asked, spent)?;
        Ok(parked)
    }

    /// Ends a claimed job. It is false where the job isn't held, and then nothing changes.
    pub fn finish(
        &mut self,
        alloc: Global,
        work: &W,
        held: Held<W>,
        outcome: Result<W::Value, Refusal>,
        spent: u64,
    ) -> Mem<bool>
        requires named { work.now ≡ N.work }
        requires own { (W.meaning N.work).own held.job ≡ true }
        requires outcome { (file : List ℕ → Found) → N.files ≡ Some file → IsOutcomeOf (rules_of (W.meaning N.work) file) (W.meaning N.work).ticks held.job held.answers outcome spent }
        ensures { HappensIf (is_held (W.meaning N.work).text held.job held.worker held.answers (slice_get self.old.board.slots held.place)) self.old self.new (ended (Finish held.worker held.place (is_err outcome)) spent (finish_with held.place outcome self.old.board) self.old) result }
    {
        if !self.table.holds(work, &held) {
            return Ok(false);
        }
        let place = held.place as usize;
        match outcome {
            Ok(value) => {
                self.table
                    .finish_value(alloc, held.worker, place, value, spent)?
            }
            Err(refusal) => {
                self.table
                    .finish_refused(alloc, held.worker, place, refusal, spent)?
            }
        }
        Ok(true)
    }

    /// The first file's need without an answer, and its path. Takes no memory.
    pub fn wanted(&self) -> Option<(u64, &TreePath)>
        ensures { IsFirstOpen self.now.board.needs result }
    {
        self.table.wanted()
    }

    /// Puts on the shelf what stands at a file's path. It is false where the need isn't one of this
    /// file without an answer, and then nothing changes.
    pub fn shelve(&mut self, alloc: Global, need: u64, path: &TreePath, found: Found) -> Mem<bool>
        requires { (file : List ℕ → Found) → N.files ≡ Some file → found ≡ file path.now }
        ensures { HappensIf (is_open_at path.now (slice_get self.old.board.needs need)) self.old self.new (noted (Shelve need) (shelve need found self.old.board) self.old) result }
    {
        if !self.table.is_open_at(need as usize, path) {
            return Ok(false);
        }
        self.table.shelve(alloc, need as usize, found)?;
        Ok(true)
    }

    /// Keeps the reason why nothing goes on any more; a halted board is left as it is. Takes no
    /// memory.
    pub fn halt(&mut self, why: Stop)
        ensures { IsHalted self.old self.new }
    {
        self.table.halt(why);
    }

    /// The job at a place.
    pub fn job(&self, place: usize) -> Option<&W::Job>
        ensures { option_copied result ≡ job_at (slice_get self.now.board.slots place) }
    {
        self.table.job(place)
    }

    /// What the job at a place came to, if it is done.
    pub fn outcome(&self, place: usize) -> Option<Result<&Arc<W::Value>, &Refusal>>
        ensures { option_map outcome_of result ≡ outcome_in (slice_get self.now.board.slots place) }
    {
        self.table.outcome(place)
    }

    /// Why the board was halted, if it was.
    pub fn stopped(&self) -> Option<&Stop>
        ensures { is_some result ≡ self.now.board.halted }
    {
        self.table.stopped()
    }

    /// The steps of all turns that ended.
    pub fn spent(&self) -> u64
        ensures { result ≡ self.now.spent }
    {
        self.table.spent()
    }

    /// What happened on the board.
    pub fn journal(&self) -> &[Event]
        ensures { map event_of result.now ≡ self.now.journal }
    {
        self.table.journal()
    }
}

/// The goals, each queued, equal ones once.
fn goal_jobs<W: Work, N: BoardOf<W>>(alloc: Global, work: &W, goals: &[W::Job]) -> Mem<Jobs<W, N>>
    requires { work.now ≡ N.work }
    ensures { IfOk result (λ jobs. jobs ≡ with_jobs (bare_rules (W.meaning work.now)) goals.now []) }
{
    let mut jobs = Jobs::new(alloc);
    for goal in goals {
        jobs.add(alloc, work, goal)?;
    }
    Ok(jobs)
}
