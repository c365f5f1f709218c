//! Recursive evaluation of jobs that ask for one another: one result a job, one text a cycle.
//!
//! A work gives rules: what a job's next turn comes to after the answers that it was given (a
//! value, a refusal, a file to read, or another job to ask). Recursive evaluation answers each
//! question at once; a job that is asked again by itself is refused with its cycle.
//! Read `specs/Works.antt` and `specs/Recursive.antt` first. `specs/Results.antt` says the same
//! without a path, `specs/Rounds.antt` how a cycle is written, `specs/Bounds.antt` why it ends.
//! There is no code here; a crate above cites `proofs/Outcomes` (existence, one result),
//! `proofs/Values` and `proofs/Falling` (values and refusals), `proofs/Turning` (cycles).
//! Laws (`laws.rt`): a job has one result whichever jobs asked for it; each job has a result; a
//! cycle has one text from whichever of its jobs it is read.
//! Limits: a job has at most `most` needs and a path at most `deep` jobs, which the work states.
//! Source: Bazel, "Module extensions" (evaluated lazily, and cycles are refused).
#![tactic(auto)]

pub mod laws;
