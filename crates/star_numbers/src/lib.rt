//! Integers of 64 bits: Starlark's operators on them.
//!
//! In come numbers, out go their result or the fault that refuses it: `Overflow` exactly where the
//! mathematical result has no 64 bits, `Zero` where a divisor is 0, `Value` where a shift is
//! negative. Read `specs/Integers.antt`, which speaks of mathematical integers alone.
//! Limits: a shift by 64 or more of a number that isn't 0 is an overflow, to the right too.
//! Source: the Starlark specification, "Integers" and "Binary operators". To change an operator
//! open `src/integers.rt`.
#![tactic(auto)]

pub mod integers;
