//! The trait of works.
ghost use Rattle.std.specs.Prelude.{◌≡◌, ◌+◌, ℕ, true, List, [], min, Option, IfOk};
ghost use Rattle.bz_base.specs.Counts.{last_count};
ghost use Rattle.bz_tree.specs.declared.tree.Found.{Found};
ghost use Rattle.board_laws.specs.Works.{Answer, Lawful};
ghost use Rattle.board_laws.specs.Bounds.{Bounded};
ghost use Rattle.board_work.specs.Turns.{Fits, GoesOn, Meaning, after, rules_of, turn_of};

use crate::turns::{Given, TurnOf};
use bz_base::{Mem, Steps};
use std::alloc::Global;
use std::sync::ledger::Ledger;

/// Jobs that go turn by turn, each of which needs a file or another job's value, or ends.
///
/// `meaning` says what each turn gives and how many steps it ticks: functions of the job and of the
/// answers given so far, the latest first. It also tells each job's text, and which jobs are the
/// work's own. Every job that a call is handed is its own.
pub trait Work: Sync {
    type Job: Send + Drop;

    type Part: Send + Drop;

    type Value: Send + Sync + Drop;

    ghost meaning: { Self → Meaning Self.Job Self.Value };

    ghost job_of: { Self.Part → Self.Job };

    ghost answers_of: { Self.Part → List (Answer Found Self.Value) };

    /// The text by which jobs are told apart.
    fn text<'a>(&'a self, job: &'a Self::Job) -> &'a str
        ensures { result.now ≡ (meaning self.now).text job.now };

    fn copy_job(&self, alloc: Global, job: &Self::Job) -> Mem<Self::Job>
        ensures { IfOk result (λ copy. copy ≡ job.now) };

    /// A part of the job with no answers.
    fn start(&self, alloc: Global, job: &Self::Job) -> Mem<Self::Part>
        requires { (meaning self.now).own job.now ≡ true }
        ensures job { IfOk result (λ part. job_of part ≡ job.now) }
        ensures answers { IfOk result (λ part. answers_of part ≡ []) };

    /// The next turn of a part, which is given an answer to its last need, or nothing at first.
    fn turn<L: Ledger>(
        &self,
        alloc: Global,
        part: Self::Part,
        given: Option<Given<Self::Value>>,
        steps: &mut Steps<L>,
    ) -> Mem<TurnOf<Self::Part, Self::Job, Self::Value>>
        requires own { (meaning self.now).own (job_of part) ≡ true }
        requires fits { Fits ((meaning self.now).run (job_of part) (answers_of part)) (answers_of part) given }
        ensures gives { IfOk result (λ turn. turn_of turn ≡ (meaning self.now).run (job_of part) (after (answers_of part) given)) }
        ensures goes_on { IfOk result (λ turn. GoesOn turn (λ next. (job_of next ≡ job_of part) × (answers_of next ≡ after (answers_of part) given))) }
        ensures ticks { IfOk result (λ turn. steps.new ≡ min (steps.old + (meaning self.now).ticks (job_of part) (after (answers_of part) given)) last_count) };

    ghost lawful: { (work : Self) (file : List ℕ → Found) → Lawful (rules_of (meaning work) file) };

    ghost bounded: { (work : Self) (file : List ℕ → Found) → Bounded (rules_of (meaning work) file) };
}
