//! The arguments of a call and what a function's parameters take of them.
//!
//! In come values with the ways in which they are given; out go the arguments of a call, and from
//! them the values of a function's parameters, or why they don't fit.
//! Read `specs/Arguments.antt` and `Parameters` of `star_meaning`: each call here is one of their
//! definitions. To change how a parameter takes its argument open `src/sharing.rt`.
//! Source: the Starlark specification, "Function and method calls" and "Functions".
#![tactic(auto)]

pub mod binding;
pub mod filling;
pub mod gathering;
mod sharing;

pub use binding::bind;
pub use filling::append;
pub use gathering::{check_items, check_keywords, gather};
