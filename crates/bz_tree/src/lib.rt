//! What lies outside a run: the tree of files, the keeper of the lockfile, the sinks of text, and
//! the gate that workers pass.
//!
//! Each is a trait whose clauses say what a caller may rest on, with an object in memory for tests
//! and the real thing for the program (`DirTree`, `StdSink`).
//! Read `src/tree.rt` first. A read tells what stands at a path (a file of at most 16 MiB, the
//! names of a directory in ascending byte order, too large a file, or nothing), or failed, and then
//! a count rose. `room` and `place` put files with the directories above them.
//! `specs/Places.antt` says what stands where once a file is placed, and what may stand where
//! placing failed; `specs/MemTrees.antt` says of the tree in memory exactly which calls fail and
//! what each leaves.
//! Limits: 16 MiB a file, 64 MiB a lockfile. The real tree tells no content: that it reads and
//! writes real files is shown by tests.
//! Source: POSIX.1-2017 for paths and directories. To change what the program does to the file
//! system open `src/dir_tree.rt`.
#![tactic(auto)]

pub mod dir_tree;
pub mod failures;
pub mod faults;
pub mod gate;
pub mod lock_keeper;
pub mod mem_lock;
pub mod mem_sink;
pub mod mem_tree;
mod plan;
pub mod sink;
pub mod std_sink;
pub mod tree;

pub use dir_tree::DirTree;
pub use failures::{Failure, failure_of};
pub use faults::{Failed, OutsideFault};
pub use gate::{Gate, NoGate};
pub use lock_keeper::{Loaded, LockKeeper};
pub use mem_lock::MemLock;
pub use mem_sink::MemSink;
pub use mem_tree::MemTree;
pub use sink::Sink;
pub use std_sink::StdSink;
pub use tree::{Found, Tree};
