//! Which forms of Starlark a dialect refuses, and the first one of a file in the order of its text.
//!
//! In come the trees of a file as they are written; out goes the first refused form with its line,
//! or nothing. An extension's file has no `if` or `for` at top level and binds no name there twice;
//! a `MODULE.bazel` has no `load`, `def`, `lambda`, `if`, `for` and `*`, and `**` only before a
//! dictionary display.
//! Read `specs/ExtensionFiles.antt` and `specs/ModuleFiles.antt` first: all that is met in the
//! order of the text, and the first of it that is refused.
//! `Form::text` is the form as it is printed.
//! Laws: none of its own; the two calls give exactly the definitions' first form.
//! Limits: those of the trees.
//! Source: Bazel, ".bzl files" and "MODULE.bazel files".
#![tactic(auto)]

mod extension_files;
mod forms;
mod module_files;

pub use extension_files::refused_in_bzl;
pub use forms::{Form, Refused};
pub use module_files::refused_in_module;
