//! Module files: what a `MODULE.bazel` file declares, read from its bytes.
//!
//! In come bytes; out goes a `ModuleDecl`, or the refusal `Form` where the file hasn't the literal
//! form, the one that is read as yet.
//! Read `specs/LiteralGrammar.antt` first: lines that each end with a line feed, each empty, or
//! `module(name = "N", version = "V")` at most once and before every `bazel_dep`, or
//! `bazel_dep(name = "N", version = "V")`. `specs/ModuleFiles.antt` says what they declare.
//! Law (`laws.rt`): the lines that are read are those by which the grammar spells the file, and
//! what it spells is read.
//! Limits: ASCII; spaces just so; names and versions that aren't empty.
//! Source: Bazel, "MODULE.bazel files", functions `module` and `bazel_dep`. To change what a line
//! may be open `src/literal_line.rt`.
#![tactic(auto)]

pub mod declaring;
pub mod laws;
mod literal_form;
pub mod literal_line;

pub use declaring::{form, read_module};
