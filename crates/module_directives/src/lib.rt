//! The directives of a module file over the state of its reader.
//!
//! In come a reader, a directive, a heap and a call's arguments; out goes what the directive gives,
//! and the reader with what it declares, or the code and detail of a refusal.
//! Read `specs/Directives.antt` first: the table, a row a directive, in the order of their checks;
//! then `Readers`, what each of them adds to what was declared, and `Parts`, what comes to an
//! extension's usage. `Outcomes` says what a call leaves.
//! Limits: nothing is said of a reader behind a refused call, at which a file ends. That names of
//! repositories are taken once is a matter of mappings.
//! Source: Bazel, "MODULE.bazel files". To add a directive give it a row in `module_arguments`, and
//! one in `specs/Directives.antt` and `src/directives.rt`.
#![tactic(auto)]

pub mod directives;
pub mod gifts;
pub mod parts;
pub mod readers;

pub use gifts::Gift;
pub use parts::{Addition, Parts, Purpose};
pub use readers::{Reader, RepoRule, Role};
