//! How Starlark's values print: `str` and `repr`.
//!
//! In come a heap and a value; out goes its text, or that too many containers nest in it, or that
//! the text would be too long.
//! Read `specs/Forms.antt` first (how each kind prints: as a text, or as parts between brackets),
//! then `Prints` (the parts of a container are written in order, and the first refusal wins).
//! `Escapes` has a string between quotes, `FieldOrder` the order of a struct's fields.
//! Limits: 128 containers nest at most, and no text has more than 16 MiB, so that a value that
//! holds another one many times over ends too.
//! Source: the Starlark specification, "str" and "repr". To change how a kind prints open
//! `src/forms.rt`.
#![tactic(auto)]

pub mod escapes;
mod field_order;
pub mod forms;
mod pieces;
pub mod printing;
pub mod writing;

pub use escapes::quoted;
pub use printing::{to_repr, to_str};
pub use writing::extended;
