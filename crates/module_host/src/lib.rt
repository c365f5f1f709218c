//! The directives of a module file as a host of its evaluation.
//!
//! In come the calls that an evaluation makes; out go what the directives give, or refusals with
//! the file and the line. `declared` hands over what the file declares.
//! Read `specs/Meaning.antt` first: which object a cell is, what calling it does, and what it
//! gives. `Lawful` has the laws of a host. What each directive does is a row of
//! `module_directives`.
//! It asks no question. Objects are cells of the heap: a directive's kind is its name, what
//! `use_extension` and `use_repo_rule` give have a number.
//! Limits: a look at a field has no line.
//! Source: Bazel, "MODULE.bazel files". To add a kind of object open `module_arguments`,
//! `src/objects.rt`, then `src/hosts.rt`.
#![tactic(auto)]

pub mod hosts;

pub use hosts::{ModuleHost, make_directive};
