//! Labels as they are written, and what they mean in their home under its repository mapping.
//!
//! In come a text such as `@rules//pkg:file.bzl`, the label of the file in which it stands and that
//! file's mapping; out goes a label with a canonical repository name, `BadLabel`, or `NotVisible`
//! with the apparent name.
//! Read `specs/Grammar.antt` first, one constructor a production, then `specs/Resolution.antt`.
//! `Mapping` is the list of its pairs in order of insertion. Its names are ones that a label may
//! have and no apparent name stands twice: that is its invariant, and `add` and `set` ask it of
//! what they are handed.
//! Laws (`laws.rt`): what spells a label is given; a text is a label in one way at most; in a good
//! home under good names each label that is given is good.
//! Limits: none but memory.
//! Source: Bazel, "Labels" and "External dependencies overview", "Repository mapping".
#![tactic(auto)]

pub mod label_text;
pub mod laws;
pub mod mapping;
mod names;
pub mod resolution;

pub use label_text::{BadLabel, LabelText, RepoPart};
pub use mapping::{Mapping, Taken};
pub use resolution::{LabelMiss, resolve};
