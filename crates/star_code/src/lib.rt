//! The code of Starlark's trees: blocks of instructions without backward jumps.
//!
//! Here are the instructions for a stack of values, and which code is that of which tree, as a
//! relation; the pass that makes it is `star_compiler`. A name is its scope and its slot, a text is
//! the cell that was made for it, an operand that may be left alone is a block of its own.
//! Read `specs/Codes.antt`.
//! Source: the Starlark specification, "Expressions" and "Statements".
#![tactic(auto)]

pub mod code;

pub use code::{Code, FnEntry, Instr};
