//! A work of two jobs, of which one asks the other.
ghost use Rattle.std.specs.Prelude.{◌≡◌, ◌+◌, [], min, IfOk, true};
ghost use Rattle.bz_base.specs.Counts.{last_count};
ghost use Rattle.board_work.specs.Turns.{Fits, GoesOn, after, turn_of};
ghost use Rattle.board_pair.specs.Pairs.{first_turn, pair_meaning, pair_run};

use board_work::{Given, Need, TurnOf, Work};
use bz_base::{Code, Mem, Refusal, Steps, TreePath};
use std::alloc::Global;
use std::sync::ledger::Ledger;

/// What the lower job comes to: its value, a refusal, the need of the upper one, or that of a file
/// before its value.
#[derive(Drop)]
pub enum Lower {
    Value,
    Refused,
    AsksBack,
    Reads(TreePath),
}

/// Two jobs, the upper one `true` and the lower one `false`. A part is the job itself, as no turn
/// goes on from an answer.
#[derive(Drop)]
pub struct Pair {
    pub lower: Lower,
}

impl Pair {
    /// The turn of a job that was given nothing.
    fn first_turn(&self, alloc: Global, upper: bool) -> Mem<TurnOf<bool, bool, u64>>
        ensures gives { IfOk result (λ turn. turn_of turn ≡ first_turn self.now.lower upper) }
        ensures goes_on { IfOk result (λ turn. GoesOn turn (λ next. next ≡ upper)) }
    {
        if upper {
            return Ok(TurnOf::Needs(upper, Need::Job(false)));
        }
        match &self.lower {
            Lower::Value => Ok(TurnOf::Done(7)),
            Lower::Refused => Ok(TurnOf::Refused(Refusal::of(alloc, Code::NoRepo))),
            Lower::AsksBack => Ok(TurnOf::Needs(upper, Need::Job(true))),
            Lower::Reads(path) => Ok(TurnOf::Needs(upper, Need::File(path.copy(alloc)?))),
        }
    }
}

impl Work for Pair {
    ghost use Rattle.std.specs.Prelude.{[]};
    ghost use Rattle.board_pair.specs.Pairs.{pair_bounded, pair_lawful, pair_meaning};

    type Job = bool;

    type Part = bool;

    type Value = u64;

    ghost meaning = { λ work. pair_meaning work.lower };

    ghost job_of = { λ part. part };

    ghost answers_of = { λ part. [] };

    fn text<'a>(&'a self, job: &'a bool) -> &'a str {
        if *job { "b" } else { "a" }
    }

    fn copy_job(&self, _alloc: Global, job: &bool) -> Mem<bool> {
        Ok(*job)
    }

    fn start(&self, _alloc: Global, job: &bool) -> Mem<bool> {
        Ok(*job)
    }

    fn turn<L: Ledger>(
        &self,
        alloc: Global,
        part: bool,
        given: Option<Given<u64>>,
        steps: &mut Steps<L>,
    ) -> Mem<TurnOf<bool, bool, u64>>
        requires own { (pair_meaning self.now.lower).own part ≡ true }
        requires fits { Fits (pair_run self.now.lower part []) [] given }
        ensures gives { IfOk result (λ turn. turn_of turn ≡ pair_run self.now.lower part (after [] given)) }
        ensures goes_on { IfOk result (λ turn. GoesOn turn (λ next. (next ≡ part) × ([] ≡ after [] given))) }
        ensures ticks { IfOk result (λ turn. steps.new ≡ min (steps.old + 1) last_count) }
    {
        steps.tick();
        match &given {
            Some(Given::Value(value)) => Ok(TurnOf::Done(**value)),
            Some(Given::File(_found)) => Ok(TurnOf::Done(7)),
            None => self.first_turn(alloc, part),
        }
    }

    ghost lawful = { λ work file. pair_lawful work.lower file };

    ghost bounded = { λ work file. pair_bounded work.lower file };
}
