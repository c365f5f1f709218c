//! The methods of Starlark's dictionaries, and `dict`.
//!
//! In come a heap, a method, a dictionary and the arguments; out goes a value, or the kind of fault
//! that refuses the call.
//! Read `specs/Rows.antt` first (the arguments bind and are of their kinds, then the dictionary is
//! changed), then `Edits`, what each change leaves of the entries, and `Sources`, which entries
//! `dict` and `update` are given. `MethodNames` has the methods' names and parameters.
//! A change tests that the dictionary may be changed before it looks at the entries. The names of
//! named arguments become strings that cost nothing, as those that a file spells.
//! Limits: `popitem` takes time for each entry that is left.
//! Source: the Starlark specification, "Built-in methods" of dictionaries and "dict". To change
//! what a method does open `src/editing.rt`.
#![tactic(auto)]

pub mod editing;
mod listing;
pub mod methods;
pub mod rows;
pub mod sources;

pub use methods::DictMethod;
pub use rows::{dict_call, new_dict};
