//! The index of registries: which registry gives a module's file, and where the module's source is.
//!
//! In come the texts that name registries, a module key and a tree of files; out goes the file of
//! the first registry that has one, or the directory of the module's source, or a refusal, a failed
//! read with its path, or want of memory.
//! Read `specs/Registries.antt` first (the form of a registry's text, where its files are), then
//! `specs/AskedFiles.antt`: a call makes steps over the tree, each asks a file or keeps a
//! registry's base directory, and what is remembered is a function of these steps (`AsksOver`).
//! `specs/Finding.antt` and `specs/Sources.antt` say which steps there are and what is answered.
//! Laws (`laws.rt`): a text is taken exactly where a module file may name it; bases that were kept
//! are those that the tree says.
//! Limits: a file is at most 16 MiB; a registry's `bazel_registry.json` is read once. NoModule and
//! BadSource have no place: whoever asks for the module knows its file and line.
//! Source: Bazel, "Bazel registries". To change where a file is open `src/registry_text.rt`; what a
//! source is, `src/sources.rt`.
#![tactic(auto)]

mod asked_files;
mod finding;
pub mod laws;
mod reading;
pub mod registries;
mod registry_text;
mod sources;

pub use asked_files::FileHash;
pub use registries::{Registries, RegistryFile, Source};
pub use registry_text::{BadRegistry, is_registry};
