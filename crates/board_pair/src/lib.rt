//! A work of two jobs in memory, small enough to see at once what it comes to.
//!
//! The upper job, `b`, asks the lower one, `a`, and has its value, or is refused as it is. The lower
//! one has the value 7, at once or after it has read a file; or it is refused; or it asks the upper
//! one, and neither has a value: both are refused with the cycle `a -> b -> a`.
//! In come a job and what it is given, out goes its next turn.
//! Read `specs/Pairs.antt` first: it says what each turn gives, and shows that the laws of `Work`
//! hold: no job is given more than one answer, and of three jobs two are the same one.
//! Limits: what stands at the file changes no value.
//! Source: Bazel, "Module extensions". To change what the jobs come to open `src/pair.rt`.
#![tactic(auto)]

pub mod pair;

pub use pair::{Lower, Pair};
