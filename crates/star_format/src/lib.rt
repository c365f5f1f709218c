//! Starlark's strings as patterns: `pattern % arguments`, and `pattern.format(arguments)`.
//!
//! In come a heap, a pattern and arguments; out goes the filled text, or the kind of fault that
//! refuses it.
//! Read `specs/Filling.antt`: the pattern is read from left to right, each percent sign with the
//! letter behind it takes the next argument, and each argument is used. For `format` read
//! `specs/Fields.antt` (the pieces of a pattern) and then `Formats`: each field takes the next
//! argument, or one by its number or name.
//! Limits: behind a percent sign the letters are s, r, d, x, X, o and the percent sign itself; a
//! field has no attribute, conversion or width.
//! Source: the Starlark specification, "String interpolation" and "string·format". To add a letter
//! open `src/filling.rt`; a kind of field, `src/fields.rt`.
#![tactic(auto)]

pub mod fields;
pub mod filling;
pub mod formatting;

pub use filling::percent;
pub use formatting::format;
