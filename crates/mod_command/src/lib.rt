//! The commands of `modtool`, and the one call that a program makes: words, environment, tree,
//! lockfile's keeper and two sinks in, a status out.
//!
//! Read `specs/Runs.antt` first: `Promised run status` says by cases on the status what stands on
//! both sinks, which count rose, and that the answer is `specs/Graphs.antt`'s.
//! `evaluate_one` answers a command on one thread; `modtool` hands its caller's leave to wait on,
//! and promises the same if it returns.
//! `top_call.rt` puts the parts together: `command.rt` reads the words, `graph.rt` goes through
//! `graph`, `report.rt` makes the line, `printing.rt` writes both.
//! No law of its own; those of `module_file`, `discovery` and `selection` say what the answer comes
//! to.
//! Limits: nothing is half printed but where standard output itself fails.
//! Source: the texts and statuses are this project's own. To add a command open `src/command.rt`
//! and `specs/Commands.antt`.
#![tactic(auto)]

mod command;
mod graph;
mod graph_text;
mod printing;
mod report;
mod root_file;
mod status;
mod texts;
mod top_call;
mod writing;

pub use command::Command;
pub use status::{Status, WhichSink};
pub use top_call::{evaluate_one, modtool};
