//! What all library calls of Starlark share: how arguments bind to parameters, and values by their
//! kind.
//!
//! In come a heap, values and a call's arguments; out go the value of each parameter, a type's
//! name, a value's truth, or the values over which it iterates.
//! Read `specs/Calls.antt` first: a call's clause is `Builds CHANGE result heap`, and changes are
//! put together by `and_then`; then `Arguments` (one value or none a parameter), `Kinds` and
//! `Ranges`.
//! Limits: a call takes no variable number of arguments here; such a call reads `Args` itself.
//! Source: the Starlark specification, "Function and method calls", "Data types", "Iteration". To
//! add a parameter's name open `src/parameter_names.rt`; a kind of value, `src/kinds.rt`.
#![tactic(auto)]

pub mod arguments;
pub mod kinds;
pub mod new_cells;
pub mod parameter_names;
pub mod ranges;

pub use arguments::{Parameter, Ways, bind};
pub use kinds::{copy_of, items, keys, pairs, truth, type_name};
pub use new_cells::{make_list, make_text, make_tuple, text_of};
pub use parameter_names::ParameterName;
pub use ranges::{range_length, range_values};
