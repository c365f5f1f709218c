//! The functions of Starlark's library.
//!
//! In come a heap, a function and the arguments; out goes a value, or the kind of fault that
//! refuses the call.
//! Read `specs/Rows.antt` first, then `Answers`, the table of functions (a function comes to a value
//! that is there or to a cell that is made last), and `Sequences`: ranges, and the lists of tuples
//! that `enumerate` and `zip` make. `FunctionNames` has the functions' names and parameters.
//! Limits: a key of `sorted`, `max` or `min` is `Kind` here, since it has to be called: the caller
//! pairs values with their keys and uses `star_sorting`. None as an argument that may be left out
//! counts as left out. `print` writes nothing.
//! Source: the Starlark specification, "Built-in constants and functions". To change what a
//! function comes to open `src/answers.rt`.
#![tactic(auto)]

mod answers;
mod extremes;
pub mod functions;
mod integers;
mod lengths;
mod ranges;
pub mod rows;
mod tuples;

pub use functions::LibraryFunction;
pub use rows::function_call;
