//! Discovery: the graph of all module versions that the root asks for, directly or through others.
//!
//! In come the root's declaration and the tree of files; out goes a `Graph`, breadth first, the
//! root first, or a refusal, a failed read with its path, or want of memory.
//! Read `specs/Discovery.antt` first: which key a dependency means, where its file lies, what it
//! declares, and the walk of `bz_walks` over these. `specs/Failures.antt` says what a part gave
//! over a tree that may tell its files (`GivesOver`).
//! The code keeps the requests that are known as a list beside a set of their keys; the next one is
//! that behind the last node.
//! Law (`laws.rt`): what is discovered is a graph of what the root and the registry declare, and
//! its keys are the least set with the root's and all needs of its members.
//! Limits: 16,384 keys, the root's among them; 16 MiB a file.
//! Source: Bazel, "Bazel modules", section "Version selection". To change what is read open
//! `src/discovery.rt`.
#![tactic(auto)]

pub mod discovery;
pub mod laws;
pub mod reading;
pub mod requests;
mod worklist;

pub use discovery::discover;
pub use reading::{read, read_by};
