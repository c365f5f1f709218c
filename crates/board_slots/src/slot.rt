//! A job on a board, and where it stands.
ghost use Rattle.std.specs.Prelude.{◌≡◌, ◌∷◌, [], true, IfOk, option_map};
ghost use Rattle.std.specs.Arc.{arc_value};
ghost use Rattle.board_machine.specs.Boards.{OnFile, OnJob, Queued, next_of};
ghost use Rattle.board_machine.specs.Events.{result_of};
ghost use Rattle.board_machine.specs.Moves.{is_queued};
ghost use Rattle.board_slots.specs.Claims.{IsReturned, IsTaken, is_claimed_by};
ghost use Rattle.board_slots.specs.Views.{file_need_of, handed_state, outcome_of, result_in, woken};
ghost use Rattle.board_work.specs.Turns.{answer_of};

use crate::gifts::{Ending, Gift};
use board_work::{Claim, Given, Held, Work};
use bz_base::{Mem, Refusal};
use std::marker::Model;
use std::mem;
use std::sync::Arc;

/// Where a job stands. A job that will be claimed again has a copy of itself for its worker, and
/// what its next turn takes.
#[derive(Drop)]
pub enum State<J, P, V> {
    Queued {
        copy: J,
        part: Option<P>,
        given: Option<Given<V>>,
    },
    Claimed {
        worker: u32,
    },
    OnFile {
        copy: J,
        part: P,
        need: usize,
    },
    OnJob {
        copy: J,
        part: P,
        need: usize,
        place: usize,
    },
    Valued(Arc<V>),
    Refused(Arc<Refusal>),
}

/// A job, how many answers it was given, and where it stands.
#[derive(Drop)]
pub struct Slot<W: Work> {
    job: W::Job,
    answers: u64,
    state: State<W::Job, W::Part, W::Value>,
}

impl<W: Work> Model for Slot<W> {
    ghost use Rattle.bz_base.specs.declared.refusals.Refusal.{Refusal};
    ghost use Rattle.bz_tree.specs.declared.tree.Found.{Found};
    ghost use Rattle.board_machine.specs.Boards.{Slot as Standing};
    ghost use Rattle.board_slots.specs.Views.{IsRight, state_of};

    ghost Value = { Standing W.Job Found W.Value Refusal };

    ghost view = { λ slot. record { job = slot.job; state = state_of W.answers_of slot.answers slot.state } };

    ghost invariant = { λ slot. IsRight W.job_of W.answers_of slot.job slot.answers slot.state };
}

impl<W: Work> Slot<W> {
    /// A job that hasn't begun, with a copy of it for the worker that claims it.
    pub fn of(job: W::Job, copy: W::Job) -> Slot<W>
        requires { copy ≡ job }
        ensures { result ≡ record { job = job; state = Queued [] } }
    {
        Slot {
            job,
            answers: 0,
            state: State::Queued {
                copy,
                part: None,
                given: None,
            },
        }
    }

    pub fn is_queued(&self) -> bool
        ensures { result ≡ is_queued self.now.state }
    {
        matches!(self.state, State::Queued { .. })
    }

    /// The place of the job for which this one waits.
    pub fn next(&self) -> Option<usize>
        ensures { result ≡ next_of self.now.state }
    {
        match self.state {
            State::OnJob { place, .. } => Some(place),
            _ => None,
        }
    }

    /// The number of the file's need for which this job waits.
    pub fn file_need(&self) -> Option<usize>
        ensures { result ≡ file_need_of self.now.state }
    {
        match self.state {
            State::OnFile { need, .. } => Some(need),
            _ => None,
        }
    }

    pub fn job(&self) -> &W::Job
        ensures { result.now ≡ self.now.job }
    {
        &self.job
    }

    /// What a job that is done came to.
    pub fn outcome(&self) -> Option<Result<&Arc<W::Value>, &Refusal>>
        ensures { option_map outcome_of result ≡ result_of self.now.state }
    {
        match &self.state {
            State::Valued(value) => Some(Ok(value)),
            State::Refused(refusal) => Some(Err(&**refusal)),
            _ => None,
        }
    }

    /// The same, to be handed on.
    pub fn ending(&self) -> Mem<Ending<W::Value>>
        ensures { IfOk result (λ ending. result_in ending ≡ result_of self.now.state) }
    {
        match &self.state {
            State::Valued(value) => Ok(Ending::Value(Arc::try_clone(value)?)),
            State::Refused(refusal) => Ok(Ending::Refusal(Arc::try_clone(refusal)?)),
            _ => Ok(Ending::Open),
        }
    }

    pub fn is_claimed_by(&self, by: u32, answers: u64) -> bool
        ensures { result ≡ is_claimed_by by answers self.now.state }
    {
        match self.state {
            State::Claimed { worker } => by == worker && answers == self.answers,
            _ => false,
        }
    }

    /// Hands a queued job out. It is claimed from now on.
    pub fn claim(&mut self, worker: u32, place: usize) -> Claim<W>
        requires { is_queued self.old.state ≡ true }
        ensures { IsTaken W.job_of W.answers_of worker place self.old self.new result }
    {
        let state = mem::replace(&mut self.state, State::Claimed { worker });
        match state {
            State::Queued { copy, part, given } => Claim::Job {
                held: Held {
                    worker,
                    place: place as u64,
                    job: copy,
                    answers: self.answers,
                },
                part,
                given,
            },
            _ => Claim::Nothing,
        }
    }

    /// The job waits for a file.
    pub fn park_on_file(&mut self, held: Held<W>, part: W::Part, need: usize)
        requires { IsReturned W.job_of W.answers_of self.old.job held part }
        ensures { self.new ≡ record { job = self.old.job; state = OnFile (W.answers_of part) need } }
    {
        self.answers = held.answers;
        self.state = State::OnFile {
            copy: held.job,
            part,
            need,
        };
    }

    /// The job waits for another one.
    pub fn park_on_job(&mut self, held: Held<W>, part: W::Part, need: usize, place: usize)
        requires { IsReturned W.job_of W.answers_of self.old.job held part }
        ensures { self.new ≡ record { job = self.old.job; state = OnJob (W.answers_of part) need place } }
    {
        self.answers = held.answers;
        self.state = State::OnJob {
            copy: held.job,
            part,
            need,
            place,
        };
    }

    /// The job goes on at once with what it is given.
    pub fn queue(&mut self, held: Held<W>, part: W::Part, given: Given<W::Value>)
        requires { IsReturned W.job_of W.answers_of self.old.job held part }
        ensures { self.new ≡ record { job = self.old.job; state = Queued (answer_of given ∷ W.answers_of part) } }
    {
        self.answers = held.answers + 1;
        self.state = State::Queued {
            copy: held.job,
            part: Some(part),
            given: Some(given),
        };
    }

    /// The job goes on with an answer, or ends.
    pub fn take(&mut self, gift: Gift<W::Value>)
        ensures { self.new ≡ record { job = self.old.job; state = handed_state gift self.old.state } }
    {
        match gift {
            Gift::Answer(given) => self.wake(given),
            Gift::Value(value) => self.state = State::Valued(value),
            Gift::Refusal(refusal) => self.state = State::Refused(refusal),
        }
    }

    fn wake(&mut self, given: Given<W::Value>)
        ensures { self.new ≡ record { job = self.old.job; state = woken (answer_of given) self.old.state } }
    {
        let state = mem::replace(&mut self.state, State::Claimed { worker: 0 });
        match state {
            State::OnFile { copy, part, .. } => {
                self.answers += 1;
                self.state = State::Queued {
                    copy,
                    part: Some(part),
                    given: Some(given),
                };
            }
            State::OnJob { copy, part, .. } => {
                self.answers += 1;
                self.state = State::Queued {
                    copy,
                    part: Some(part),
                    given: Some(given),
                };
            }
            other => self.state = other,
        }
    }
}
