//! Slices of Starlark's values, and changes of its containers in place.
//!
//! In come a heap, a container and what is to be done with it; out goes a value, or that it is
//! done, or the fault that refuses it. Read `specs/Slicing.antt` and `specs/Changing.antt`: each
//! call's clause is `Builds ROW result heap`, and its row is a definition of these files. A
//! container that is changed is taken out of the heap, which tests that it may be, and put back.
//! Limits: a slice of a range whose own first, stop or step has no 64 bits is an overflow. Behind a
//! refused change the container may be empty: an evaluation ends there. Source: the Starlark
//! specification, "Slice expressions", "Assignments" and "Augmented assignments". To change what a
//! slice is open `src/slicing.rt`; what a change does, `src/changing.rt`.
#![tactic(auto)]

pub mod changing;
pub mod slicing;

pub use changing::{extend, merge, set_index};
pub use slicing::{Bounds, slice};
