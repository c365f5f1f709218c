//! How a cycle of jobs reads.
//!
//! In come the texts of the jobs on a cycle, each of which asks the next one, and the last the
//! first; out goes the refusal that all of them get, with the code `Cycle`. Its detail is the texts
//! from the least one by bytes on, with ` -> ` between them, and the least one again at the end, so
//! that it is the same from whichever job the cycle was closed.
//! Read `specs/Rounds.antt` of `board_laws` and `specs/Cycles.antt` of `board_work` first.
//! Laws: `proofs/Rounds` (the text, piece by piece); that it is one text, whichever job comes
//! first, is `board_laws::laws::a_cycle_has_one_text`.
//! Limits: equal texts count as one job.
//! Source: Bazel, "Module extensions". To change how a cycle reads open `src/round.rt`.
#![tactic(auto)]

pub mod round;

pub use round::cycle_refusal;
