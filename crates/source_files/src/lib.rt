//! Source files: what a registry's `source.json` and `bazel_registry.json` say of where the sources
//! of its modules are.
//!
//! In come the bytes of one file; out goes a directory's path or that the source is elsewhere, or
//! the directory from which a registry's local paths begin, or that the file doesn't say it.
//! Read `specs/SourceFiles.antt` first: each answer is a function of the file's JSON value. A file
//! that is no JSON, or no object, says nothing. Members that have no meaning here are ignored, and
//! an archive or a Git repository is remote whatever else its file holds.
//! Limits: those of `serde_json`, values at most 127 deep. No path is resolved here, and no file
//! read: that is done in `registry_index`.
//! Source: Bazel, "Bazel registries", section "Index registry"; RFC 8259. To change what a type of
//! source means open `src/source_file.rt`.
#![tactic(auto)]

mod json_object;
pub mod registry_file;
pub mod source_file;

pub use registry_file::read_base;
pub use source_file::{BadSource, SourceFile, read_source};
