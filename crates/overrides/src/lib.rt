//! Overrides: which module a dependency means under what the root's file overrides.
//!
//! In comes the root's declaration; out goes, for a dependency of any module, that it means the
//! root, or the key of a module version, or the refusal NoVersion; and the override of a module.
//! Read `specs/Overrides.antt` first: the overrides are a list of pairs in the order of the file, a
//! dependency on the root's own name means the root, a module under a local path, an archive or a
//! Git repository has the empty version, a pinned version goes before the dependency's own.
//! The code keeps the overrides in a map by name.
//! Limits: no module has two overrides (`NamesDiffer`), as in each root's file that was read. That
//! a listed version stands for others is a matter of selection. NoVersion has no place: whoever
//! follows the dependency knows its file and line.
//! Source: Bazel, "MODULE.bazel files" and "Bazel modules", section "Overrides". To change what an
//! override means open `src/effective.rt`.
#![tactic(auto)]

pub mod effective;
mod kind_copies;
pub mod root_overrides;

pub use effective::Effective;
pub use root_overrides::Overrides;
