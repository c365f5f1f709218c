//! The jobs on a board, one by one and as a list: where each stands, the chains of those that are
//! parked, the needs, and the handing out of answers, values and refusals.
//!
//! In come jobs, the parts that workers bring back, and what is found or finished; a `Slot` is seen
//! as the job and its state in the machine's words, and a `Wanted` as a need.
//! Read `specs/Views.antt` first. `src/handing.rt` makes what each job is handed before anything
//! changes, so that want of memory leaves the list as it was; handing out takes none.
//! `src/chains.rt` follows parked jobs, `src/jobs.rt` and `src/needs.rt` find places.
//! `specs/Claims.antt` says what a worker takes and brings back.
//! Laws: `proofs/GiftLists` (gifts, one by one), `proofs/Ways` (chains, step by step).
//! Limits: a job is given at most 2^64 - 1 answers. The lists are walked whole.
//! Source: Bazel, "Module extensions". To change what a job takes open `src/slot.rt`.
#![tactic(auto)]

pub mod chains;
pub mod gifts;
pub mod handing;
pub mod jobs;
pub mod needs;
pub mod parking;
pub mod slot;
pub mod wanted;

pub use gifts::{Ending, Gift};
pub use slot::Slot;
pub use wanted::Wanted;
