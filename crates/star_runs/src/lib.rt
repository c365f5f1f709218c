//! Whole runs of the machine, and what they come to. No code.
//!
//! A step of a machine with a host leads on or ends; a machine comes to an outcome where it ends
//! there, or where a step leads to one that does (`specs/Runs.antt`, `Comes`).
//! Law (`laws.rt`): a machine at the beginning of a file's code comes to what the file means.
//! Read `specs/Runs.antt` first; the constructs are shown one by one in `proofs/ExprRuns` and
//! `proofs/StmtRuns`, each for whatever comes behind it.
#![tactic(auto)]

pub mod laws;
