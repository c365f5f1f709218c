//! Evaluations: a file or a call is begun, turned, and turned again once a question is answered.
//!
//! In come the files so far with their heap, and a file to be run or a value to be called; each
//! turn gives the value, the refusal, or the question that the host asked. The heap, the variables
//! and the place at which an evaluation stopped are its own, so that a turn makes no step twice.
//! Read `specs/Evaluations.antt`: what an evaluation stands for, and what a turn answers of it.
//! Laws (`laws.rt`): what is begun stands for its meaning, and so does what each turn leaves.
//! Limits: the count of steps is refused where it reaches the limit with which it was begun.
//! Source: the Starlark specification, "Module execution". To change what a refusal tells open
//! `src/reasons.rt`.
#![tactic(auto)]

pub mod evaluation;
pub mod files;
pub mod laws;
pub mod reasons;
pub mod shared_file;

pub use evaluation::{Evaluation, Store, TurnEnd, begin_call, begin_file, turn};
pub use files::Files;
pub use shared_file::SharedFile;
