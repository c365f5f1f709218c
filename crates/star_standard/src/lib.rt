//! The operators, functions and methods of the language as the library that the machine computes
//! with.
//!
//! `Standard` puts the crates of numbers, containers, texts and patterns together.
//! Read `specs/Standards.antt`, the table which says of each operator which crate's row it is, and
//! `LibraryCalls`: which row a call is, and which calls an evaluation has to make itself.
//! Source: the Starlark specification, "Expressions" and "Built-in constants and functions".
#![tactic(auto)]

pub mod calls;
pub mod standard;

pub use standard::Standard;
