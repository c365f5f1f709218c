//! What library calls on containers share: the values of their parameters, and changes in place
//! that give a value.
//!
//! In come the values that `bind` found, or a container with what a change left of it; out goes a
//! value of the wanted kind, or the fault that refuses it.
//! Read `specs/Values.antt` first (None counts as left out where a parameter may be left out), then
//! `specs/Edits.antt`: a container is taken out of the heap, which tests that it may be changed,
//! and is put back with what the change adds to the sum of sizes.
//! Limits: behind a refused change the container may be empty; an evaluation ends there.
//! Source: the Starlark specification, "Function and method calls" and "Built-in methods". To read
//! another kind of argument open `src/argument_values.rt`.
#![tactic(auto)]

pub mod argument_values;
pub mod edits;

pub use argument_values::{
    flag_or, given_at, integer, integer_or, needed_at, only_named, value_at,
};
pub use edits::{Edited, put_edited};
