//! The board of a work, on which any number of workers go on in any order.
//!
//! In come a work, its goals, what stands at files, and what workers bring back of the jobs that
//! they claimed; out go jobs to claim, files that are wanted, and what each job came to.
//! Read `specs/Accounts.antt` and `specs/Histories.antt` first: an account is how the board stands,
//! the events in their order, and the steps spent; where the files are told, the account is the
//! history of events that were each possible when they happened.
//! `src/board.rt` has the calls, each one event or none; `src/table.rt` the same over plain lists,
//! whatever the work is, and `src/asking.rt` the cases of a job that asks another one, which
//! `specs/Parks.antt` tells apart; `src/journal.rt` the events, with room for those that take no
//! memory.
//! Laws: `proofs/Keeping` (what every call keeps), and by it those of `board_machine`.
//! Limits: a job is given fewer than 2^64 - 1 answers. The lists are walked whole at each call.
//! Source: Bazel, "Module extensions". To change what an event does open `board_machine`.
#![tactic(auto)]

mod asking;
pub mod board;
mod journal;
mod table;

pub use board::Board;
