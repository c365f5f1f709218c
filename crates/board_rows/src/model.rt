//! A small model of the board of a pair: two jobs, one file, and what each event makes of them.
ghost use Rattle.std.specs.Prelude.{◌≡◌};

use crate::moves::{Move, Said};
use board_work::Parked;

/// What the lower job comes to.
#[derive(Clone, Copy, PartialEq, Eq)]
pub enum Kind {
    Value,
    Refused,
    AsksBack,
    Reads,
}

/// Where a job stands.
#[derive(Clone, Copy, PartialEq, Eq)]
pub enum At {
    Queued,
    Claimed,
    OnFile,
    OnJob,
    Valued,
    Refused,
}

/// A job, and whether it was given an answer.
#[derive(Clone, Copy)]
pub struct Task {
    pub at: At,
    pub given: bool,
}

/// The board as the model has it: the first goal, both jobs, and whether the file is wanted and was
/// found.
#[derive(Clone, Copy)]
pub struct Sketch {
    pub kind: Kind,
    pub first: bool,
    pub upper: Task,
    pub lower: Task,
    pub wanted: bool,
    pub found: bool,
    pub halted: bool,
    pub one: Option<bool>,
    pub other: Option<bool>,
}

pub fn sketch_of(kind: Kind, first: bool) -> Sketch
    ensures { result.first ≡ first }
{
    let fresh = Task {
        at: At::Queued,
        given: false,
    };
    Sketch {
        kind,
        first,
        upper: fresh,
        lower: fresh,
        wanted: false,
        found: false,
        halted: false,
        one: None,
        other: None,
    }
}

impl Sketch {
    fn job(&self, upper: bool) -> Task {
        if upper { self.upper } else { self.lower }
    }

    fn set(&mut self, upper: bool, task: Task) {
        if upper {
            self.upper = task;
        } else {
            self.lower = task;
        }
    }

    fn is_over(&self) -> bool {
        let second = self.job(!self.first).at;
        match self.job(self.first).at {
            At::Refused => true,
            At::Valued => second == At::Valued || second == At::Refused,
            _ => self.halted,
        }
    }

    fn claim(&mut self) -> Said {
        if self.halted || self.is_over() {
            return Said::Finished;
        }
        for upper in [self.first, !self.first] {
            let mut task = self.job(upper);
            if task.at == At::Queued {
                task.at = At::Claimed;
                self.set(upper, task);
                return Said::Job(upper);
            }
        }
        Said::Nothing
    }

    /// A turn of that job ends, which its worker held.
    fn bring(&mut self, upper: bool) -> Said {
        if self.job(upper).given {
            return self.value(upper);
        }
        if upper {
            return Said::Parked(self.ask(upper));
        }
        match self.kind {
            Kind::Value => self.value(upper),
            Kind::Refused => {
                self.refuse(upper);
                Said::Ended(true)
            }
            Kind::AsksBack => Said::Parked(self.ask(upper)),
            Kind::Reads => Said::Parked(self.read()),
        }
    }

    fn value(&mut self, upper: bool) -> Said {
        let given = self.job(upper).given;
        self.set(
            upper,
            Task {
                at: At::Valued,
                given,
            },
        );
        if self.job(!upper).at == At::OnJob {
            self.set(
                !upper,
                Task {
                    at: At::Queued,
                    given: true,
                },
            );
        }
        Said::Ended(true)
    }

    fn refuse(&mut self, upper: bool) {
        self.set(
            upper,
            Task {
                at: At::Refused,
                given: false,
            },
        );
        if self.job(!upper).at == At::OnJob {
            self.set(
                !upper,
                Task {
                    at: At::Refused,
                    given: false,
                },
            );
        }
    }

    fn ask(&mut self, upper: bool) -> Parked {
        match self.job(!upper).at {
            At::Valued => {
                self.set(
                    upper,
                    Task {
                        at: At::Queued,
                        given: true,
                    },
                );
                Parked::Ready
            }
            At::Refused => {
                self.refuse(upper);
                Parked::Refused
            }
            At::OnJob => {
                self.refuse(upper);
                Parked::Cycle
            }
            _ => {
                self.set(
                    upper,
                    Task {
                        at: At::OnJob,
                        given: false,
                    },
                );
                Parked::Waits
            }
        }
    }

    fn read(&mut self) -> Parked {
        if self.found {
            self.lower = Task {
                at: At::Queued,
                given: true,
            };
            return Parked::Ready;
        }
        self.wanted = true;
        self.lower = Task {
            at: At::OnFile,
            given: false,
        };
        Parked::Waits
    }

    /// The file that is wanted is put on the shelf, if it is.
    fn shelve(&mut self) -> bool {
        let open = self.wanted && !self.found;
        if open {
            self.found = true;
            if self.lower.at == At::OnFile {
                self.lower = Task {
                    at: At::Queued,
                    given: true,
                };
            }
        }
        open
    }

    /// What a step comes to.
    pub fn act(&mut self, step: Move) -> Said {
        match step {
            Move::Claim(one) => self.claims(one),
            Move::Bring(one) => match self.hand(one) {
                Some(upper) => self.bring(upper),
                None => Said::Empty,
            },
            Move::Stray(one) => match self.hand(one) {
                Some(upper) => self.strays(upper),
                None => Said::Empty,
            },
            Move::Shelve => Said::Shelved(self.shelve()),
            Move::Halt => {
                self.halted = true;
                Said::Halted
            }
            Move::Look(first) => self.look(first),
        }
    }

    fn hand(&mut self, one: bool) -> Option<bool> {
        if one {
            self.one.take()
        } else {
            self.other.take()
        }
    }

    fn claims(&mut self, one: bool) -> Said {
        if (one && self.one.is_some()) || (!one && self.other.is_some()) {
            return Said::Full;
        }
        let said = self.claim();
        if let Said::Job(upper) = said {
            if one {
                self.one = Some(upper);
            } else {
                self.other = Some(upper);
            }
        }
        said
    }

    /// A stranger's end is not taken, and a stranger's need isn't either.
    fn strays(&self, upper: bool) -> Said {
        let ends = self.job(upper).given;
        let asks = upper || self.kind == Kind::AsksBack || self.kind == Kind::Reads;
        if !ends && asks {
            Said::Parked(Parked::Stray)
        } else {
            Said::Ended(false)
        }
    }

    fn look(&self, first: bool) -> Said {
        let upper = if first { self.first } else { !self.first };
        match self.job(upper).at {
            At::Valued => Said::Valued,
            At::Refused if self.kind == Kind::AsksBack => Said::InCycle,
            At::Refused => Said::Refused,
            _ => Said::Undone,
        }
    }
}
