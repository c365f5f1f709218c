//! Names that a module file states: which texts are names of modules, of repositories and of
//! extensions.
//!
//! In comes a text; out goes whether it is such a name. The grammar of names stands in `bz_base`,
//! `specs/Names.antt`: read it first.
//! Limits: names are ASCII.
//! Source: Bazel, "MODULE.bazel files" and "External dependencies overview". To change what a name
//! may be open `bz_base/specs/Names.antt`, then `src/names.rt`.
#![tactic(auto)]

pub mod names;

pub use names::{is_exported_name, is_identifier, is_module_name, is_repository_name};
