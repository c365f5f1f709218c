//! The board as a machine: jobs that are claimed, parked and finished by any workers, in any order.
//!
//! A board is a list of jobs, each queued, claimed, parked on a file or on another job, valued or
//! refused, and a list of needs, some of them answered. Five kinds of events change it.
//! Read `specs/Boards.antt` (the state), `specs/Moves.antt` (what each event makes of it) and
//! `specs/Events.antt` (where an event is possible) in this order.
//! There is no code here; a crate above cites `proofs/Keeping` (what each event keeps) and
//! `proofs/Whole` (what holds after any list of events).
//! Laws (`laws.rt`): over every list of events from the opening, each job that is done has the
//! result of recursive evaluation, and stays done with it.
//! Limits: nothing is said of who comes next, nor that anybody comes.
//! Source: Bazel, "Module extensions" (what an evaluation may ask for). To change what an event
//! does open `specs/Moves.antt`, and then `proofs/Keeping.antt`.
#![tactic(auto)]

pub mod laws;
