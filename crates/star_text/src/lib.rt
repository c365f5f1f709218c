//! The methods of Starlark's strings.
//!
//! In come a heap, a method, its receiver and the arguments; out goes a value, or the kind of fault
//! that refuses the call.
//! Read `specs/Rows.antt` first (the receiver is a string, the arguments bind, the answer is made
//! in the heap), then `Answers`, the table of methods, and `ArgumentValues`, what each argument may
//! be. `MethodNames` has the methods' names and parameters, `Positions` what depends on indexes.
//! Limits: a text has 16 MiB at most, and letters are ASCII's. None as an argument that may be left
//! out counts as left out.
//! Source: the Starlark specification, "Built-in methods" of strings. To add a method open
//! `src/methods.rt` and `src/answers.rt`.
#![tactic(auto)]

mod answers;
mod argument_values;
pub mod methods;
mod positions;
mod replacing;
pub mod rows;
pub mod text_answers;

pub use methods::TextMethod;
pub use rows::text_call;
