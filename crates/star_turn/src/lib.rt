//! Turns of a machine with a host: it runs until it ends, is refused or asks, and goes on later.
//!
//! In come the code of the files, a library, a machine, a host and the answers known so far; out
//! goes the value, the refusal, or the question that the host asked. A machine that asked stands
//! where it stood, so that the next turn makes that call once more, with more answers, and no step
//! twice.
//! Read `specs/Turns.antt` (what a turn answers of what its machine comes to), and before it
//! `Runs` of `star_runs`.
//! Want of memory ends a machine. Source: the Starlark specification, "Call expressions".
#![tactic(auto)]

pub mod asking;
pub mod calls;
pub mod turns;

pub use turns::{Came, step, turn};
