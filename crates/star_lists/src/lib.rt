//! The methods of Starlark's lists.
//!
//! In come a heap, a method, a list and the arguments; out goes a value, or the kind of fault that
//! refuses the call.
//! Read `specs/Rows.antt` first (the arguments bind and are of their kinds, then the list is
//! changed), then `Edits`, what each change leaves of the items, and `Searching`. `MethodNames` has
//! the methods' names and parameters.
//! A change tests that the list may be changed before it looks at the items, and also where it
//! would change nothing. What is sought is sought before the list is taken out of the heap.
//! Limits: None as an argument that may be left out counts as left out.
//! Source: the Starlark specification, "Built-in methods" of lists. To change what a method does
//! open `src/editing.rt`.
#![tactic(auto)]

pub mod editing;
pub mod methods;
pub mod rows;
mod searching;

pub use methods::ListMethod;
pub use rows::list_call;
