//! The jobs of a board and its needs, with what finds them at once.
//!
//! In come jobs, the parts that workers bring back, and what is found or finished; `Jobs` is seen
//! as the machine's list of jobs, `Needs` as its list of needs.
//! Read `specs/Indexes.antt` first: beside the jobs stand their texts in a set, the places that may
//! be queued in order, for each job and each need the places of the jobs that may wait for it, and
//! a number of first jobs that all have values. The index may hold more than is so and never
//! less, so that it is written before anything changes, and what it says is tested where it is read.
//! `src/gifts.rt` makes what each job is handed; `proofs/Handing` says that this is what the machine
//! makes of the list.
//! Limits: a refusal looks at each job; a job that asks another one follows the chain of jobs that
//! wait.
//! To change how a job is found open `src/index.rt`.
#![tactic(auto)]

pub mod gifts;
pub mod index;
pub mod jobs;
pub mod needs;
pub mod ready;
pub mod searches;

pub use jobs::Jobs;
