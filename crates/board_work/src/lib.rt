//! Works: jobs that go turn by turn, each of which reads files, asks for other jobs' values, and
//! ends with a value or a refusal; and what a board and its workers hand one another.
//!
//! A turn takes a job's part, and what the job was given since the last turn; it gives the value, a
//! refusal, or the part with the job's next need.
//! Read `src/work.rt` and `specs/Turns.antt` first. `Work` states as laws what the theory of
//! recursive evaluation asks for: what a turn gives, and how many steps it ticks, are functions of
//! the job and of the answers given so far; of the work's own jobs two are equal exactly where
//! their texts are; and two numbers bound the needs of a job and the length of a chain of jobs.
//! `specs/Cycles.antt` says how the refusal of a cycle reads.
//! Laws (`laws.rt`), for every work: one result a job, whichever jobs ask for it, and each job has
//! one; over every list of events, each job that is done has its result and keeps it.
//! Source: Bazel, "Module extensions". To change what a turn may ask for open `src/turns.rt`.
#![tactic(auto)]

pub mod events;
pub mod laws;
pub mod turns;
pub mod work;
pub mod worker;

pub use events::{Event, Parked, Stop};
pub use turns::{Given, Need, TurnOf};
pub use work::Work;
pub use worker::{BoardOf, Claim, Held};
