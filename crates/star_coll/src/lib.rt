//! Starlark's calls on containers: functions of the library, and methods of lists and
//! dictionaries.
//!
//! In come a heap, a function or a method, its receiver and the arguments; out goes a value, or the
//! kind of fault that refuses the call.
//! Read `specs/Calls.antt`: a call's row is that of `star_functions`, `star_lists` or `star_dicts`.
//! Each of these crates has a table of its rows, so that this one only chooses among them.
//! Limits: `fail`, `getattr` and `hasattr` aren't here, nor are `sorted`, `max` and `min` with a
//! key, which the evaluator calls itself; their parts are in `star_sorting`.
//! Source: the Starlark specification, "Built-in constants and functions" and "Built-in methods".
//! To add a kind of receiver open `src/calls.rt`.
#![tactic(auto)]

pub mod calls;

pub use calls::{CollFn, coll_call};
pub use star_dicts::DictMethod;
pub use star_functions::LibraryFunction;
pub use star_lists::ListMethod;
pub use star_sorting::{Direction, first_pair, first_value, sorted_pairs, sorted_values};
