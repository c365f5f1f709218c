//! The jobs of a board.
ghost use Rattle.std.specs.Prelude.{◌≡◌, ◌∷◌, ◌<◌, ◌≤◌, [], IfOk, OnErr, OnOk, length, take, vec_len};
ghost use Rattle.std.specs.Arc.{arc_value};
ghost use Rattle.indexmap.specs.IndexSet.{insert_key};
ghost use Rattle.std.specs.String.{string_eq};
ghost use Rattle.board_machine.specs.Boards.{OnFile, OnJob, Queued};
ghost use Rattle.board_machine.specs.Moves.{first_queued, goals_over, hand_file, place_of, set_state};
ghost use Rattle.board_machine.specs.Moves.{spread_refusal, with_job, with_value};
ghost use Rattle.board_slots.specs.Claims.{IsReturnedAt};
ghost use Rattle.board_slots.specs.Views.{bare_rules};
ghost use Rattle.board_work.specs.Turns.{answer_of};
ghost use Rattle.board_jobs.specs.Gifts.{all_handed};
ghost use Rattle.board_jobs.specs.Taking.{IsQueuedAt, IsTakenAt, with_new};

use crate::gifts::{file_gifts, hand_out, refusal_gifts, value_gifts};
use crate::index::Index;
use crate::ready::{ready_at, ready_for, ready_for_new, ready_to_read, ready_to_wait};
use crate::searches::{are_over, first_queued};
use board_slots::jobs::push_job;
use board_slots::parking::{queue_at, wait_for_file, wait_for_job};
use board_slots::{Gift, Slot};
use board_work::{BoardOf, Claim, Given, Held, Work};
use bz_base::{Mem, Refusal, Txt};
use bz_tree::Found;
use indexmap::IndexSet;
use std::alloc::Global;
use std::marker::{Model, PhantomData};
use std::sync::Arc;

/// Contracts see the machine's list of jobs.
#[derive(Drop)]
pub struct Jobs<W: Work, N: BoardOf<W>> {
    slots: Vec<Slot<W>>,
    texts: IndexSet<String>,
    index: Index,
    of: PhantomData<N>,
}

impl<W: Work, N: BoardOf<W>> Model for Jobs<W, N> {
    ghost use Rattle.std.specs.Prelude.{List, map, string_bytes};
    ghost use Rattle.bz_base.specs.declared.refusals.Refusal.{Refusal};
    ghost use Rattle.bz_tree.specs.declared.tree.Found.{Found};
    ghost use Rattle.board_machine.specs.Boards.{Slot as Standing};
    ghost use Rattle.board_jobs.specs.Indexes.{IsIndexed};

    ghost Value = { List (Standing W.Job Found W.Value Refusal) };

    ghost view = { λ j. j.slots.items };

    ghost invariant = { λ j. IsIndexed (W.meaning N.work).text (map string_bytes j.texts.keys) j.index j.slots.items };
}

impl<W: Work, N: BoardOf<W>> Jobs<W, N> {
    /// No jobs.
    pub fn new(alloc: Global) -> Jobs<W, N>
        ensures { result ≡ [] }
    {
        Jobs {
            slots: Vec::new(alloc),
            texts: IndexSet::new(alloc),
            index: Index::new(alloc),
            of: PhantomData,
        }
    }

    pub fn slots(&self) -> &[Slot<W>]
        ensures { result.now ≡ self.now }
    {
        self.slots.as_slice()
    }

    /// The place of a job, or the number of jobs where it isn't there.
    pub fn place_of(&self, work: &W, job: &W::Job) -> usize
        requires { work.now ≡ N.work }
        ensures { result ≡ place_of (bare_rules (W.meaning work.now)) job.now self.now }
    {
        match self.texts.get_index_of(work.text(job)) {
            Some(place) => place,
            None => self.slots.len(),
        }
    }

    /// Whether the first jobs, as many as there are goals, all have values, or one is refused behind
    /// jobs that all have values.
    pub fn are_over(&mut self, goals: usize) -> bool
        requires { goals ≤ length self.old }
        ensures over { result ≡ goals_over (take goals self.old) }
        ensures kept { self.new ≡ self.old }
    {
        are_over(&self.slots, &mut self.index, goals)
    }

    /// The place of the first queued job, or the number of jobs where none is.
    pub fn first_queued(&mut self) -> usize
        ensures first { result ≡ first_queued self.old }
        ensures kept { self.new ≡ self.old }
    {
        first_queued(&self.slots, &mut self.index)
    }

    /// Hands out the queued job at that place.
    pub fn take(&mut self, worker: u32, place: usize) -> Claim<W>
        requires within { place < length self.old }
        requires queued { IsQueuedAt place self.old }
        ensures taken { IsTakenAt W.job_of W.answers_of worker place self.old self.new result }
        ensures length { length self.new ≡ length self.old }
    {
        take_at(&mut self.slots, worker, place)
    }

    /// The job goes on at once with what it is given.
    pub fn queue_at(&mut self, held: Held<W>, part: W::Part, given: Given<W::Value>) -> Mem<()>
        requires within { held.place < length self.old }
        requires returned { IsReturnedAt W.job_of W.answers_of held part self.old }
        ensures queued { OnOk result (self.new ≡
            set_state held.place (Queued (answer_of given ∷ W.answers_of part)) self.old) }
        ensures unchanged { OnErr result (self.new ≡ self.old) }
    {
        let place = held.place as usize;
        ready_at(&mut self.index, place)?;
        queue_at(&mut self.slots, held, part, given);
        Ok(())
    }

    /// The job waits for a file.
    pub fn wait_for_file(
        &mut self,
        alloc: Global,
        held: Held<W>,
        part: W::Part,
        need: usize,
    ) -> Mem<()>
        requires within { held.place < length self.old }
        requires returned { IsReturnedAt W.job_of W.answers_of held part self.old }
        ensures waits { OnOk result (self.new ≡
            set_state held.place (OnFile (W.answers_of part) need) self.old) }
        ensures unchanged { OnErr result (self.new ≡ self.old) }
    {
        let place = held.place as usize;
        ready_to_read(alloc, &mut self.index, place, need)?;
        wait_for_file(&mut self.slots, held, part, need);
        Ok(())
    }

    /// The job waits for another one.
    pub fn wait_for_job(
        &mut self,
        alloc: Global,
        held: Held<W>,
        part: W::Part,
        need: usize,
        other: usize,
    ) -> Mem<()>
        requires within { held.place < length self.old }
        requires returned { IsReturnedAt W.job_of W.answers_of held part self.old }
        ensures waits { OnOk result (self.new ≡
            set_state held.place (OnJob (W.answers_of part) need other) self.old) }
        ensures unchanged { OnErr result (self.new ≡ self.old) }
    {
        let place = held.place as usize;
        ready_to_wait(alloc, &mut self.index, place, other)?;
        wait_for_job(&mut self.slots, held, part, need, other);
        Ok(())
    }

    /// The job waits for one that is new on the board.
    pub fn wait_for_new(
        &mut self,
        alloc: Global,
        work: &W,
        held: Held<W>,
        part: W::Part,
        need: usize,
        asked: W::Job,
    ) -> Mem<()>
        requires named { work.now ≡ N.work }
        requires new { place_of (bare_rules (W.meaning work.now)) asked self.old ≡ length self.old }
        requires within { held.place < length self.old }
        requires returned { IsReturnedAt W.job_of W.answers_of held part self.old }
        ensures waits { OnOk result (self.new ≡ set_state held.place
            (OnJob (W.answers_of part) need (length self.old)) (with_new asked self.old)) }
        ensures unchanged { OnErr result (self.new ≡ self.old) }
    {
        let place = held.place as usize;
        let other = self.slots.len();
        let copy = work.copy_job(alloc, &asked)?;
        let text = Txt::of(alloc, work.text(&asked))?.into_string();
        self.slots.reserve(1)?;
        ready_for_new(alloc, &mut self.index, place, other)?;
        add_text(&mut self.texts, text)?;
        push_job(&mut self.slots, asked, copy);
        wait_for_job(&mut self.slots, held, part, need, other);
        Ok(())
    }

    /// Adds a job to the list, queued, unless it is there.
    pub fn add(&mut self, alloc: Global, work: &W, job: &W::Job) -> Mem<()>
        requires { work.now ≡ N.work }
        ensures added { OnOk result (self.new ≡ with_job (bare_rules (W.meaning work.now)) job.now self.old) }
        ensures unchanged { OnErr result (self.new ≡ self.old) }
    {
        if self.place_of(work, job) < self.slots.len() {
            return Ok(());
        }
        self.add_new(alloc, work, job)
    }

    fn add_new(&mut self, alloc: Global, work: &W, job: &W::Job) -> Mem<()>
        requires named { work.now ≡ N.work }
        requires new { place_of (bare_rules (W.meaning work.now)) job.now self.old ≡ length self.old }
        ensures added { OnOk result (self.new ≡ with_new job.now self.old) }
        ensures unchanged { OnErr result (self.new ≡ self.old) }
    {
        let place = self.slots.len();
        let one = work.copy_job(alloc, job)?;
        let copy = work.copy_job(alloc, job)?;
        let text = Txt::of(alloc, work.text(job))?.into_string();
        self.slots.reserve(1)?;
        ready_at(&mut self.index, place)?;
        add_text(&mut self.texts, text)?;
        push_job(&mut self.slots, one, copy);
        Ok(())
    }

    /// What jobs are handed once the job at a place has a value.
    pub fn value_gifts(
        &self,
        alloc: Global,
        place: usize,
        value: &Arc<W::Value>,
    ) -> Mem<Vec<(usize, Gift<W::Value>)>>
        ensures { IfOk result (λ gifts. all_handed gifts.items self.now
            ≡ with_value place (arc_value value.now) self.now) }
    {
        value_gifts(alloc, &self.slots, &self.index, place, value)
    }

    /// What jobs are handed once the job at a place is refused.
    pub fn refusal_gifts(
        &self,
        alloc: Global,
        place: usize,
        refusal: &Arc<Refusal>,
    ) -> Mem<Vec<(usize, Gift<W::Value>)>>
        ensures { IfOk result (λ gifts. all_handed gifts.items self.now
            ≡ spread_refusal place (arc_value refusal.now) self.now) }
    {
        refusal_gifts(alloc, &self.slots, place, refusal)
    }

    /// What jobs are handed once the file of a need is found.
    pub fn file_gifts(
        &self,
        alloc: Global,
        need: usize,
        found: &Arc<Found>,
    ) -> Mem<Vec<(usize, Gift<W::Value>)>>
        ensures { IfOk result (λ gifts. all_handed gifts.items self.now
            ≡ hand_file need (arc_value found.now) self.now) }
    {
        file_gifts(alloc, &self.slots, &self.index, need, found)
    }

    /// Hands out the gifts.
    pub fn hand_out(&mut self, gifts: Vec<(usize, Gift<W::Value>)>) -> Mem<()>
        ensures handed { OnOk result (self.new ≡ all_handed gifts.items self.old) }
        ensures unchanged { OnErr result (self.new ≡ self.old) }
    {
        ready_for::<W>(&mut self.index, gifts.as_slice())?;
        hand_out(&mut self.slots, gifts);
        Ok(())
    }
}

/// Hands out the queued job at that place.
fn take_at<W: Work>(slots: &mut Vec<Slot<W>>, worker: u32, place: usize) -> Claim<W>
    requires within { place < vec_len slots.old }
    requires queued { IsQueuedAt place slots.old.items }
    ensures taken { IsTakenAt W.job_of W.answers_of worker place slots.old.items slots.new.items result }
    ensures length { length slots.new.items ≡ length slots.old.items }
{
    let slot = &mut slots[place];
    slot.claim(worker, place)
}

fn add_text(texts: &mut IndexSet<String>, text: String) -> Mem<()>
    ensures added { OnOk result (texts.new.keys ≡ insert_key string_eq texts.old.keys text) }
    ensures unchanged { OnErr result (texts.new.keys ≡ texts.old.keys) }
{
    texts.insert_full(text)?;
    Ok(())
}
