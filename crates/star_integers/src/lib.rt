//! The integers that texts spell, as Starlark's `int` reads them.
//!
//! In come a text and a base; out goes an integer of 64 bits, or the fault that refuses it: `Value`
//! where the base is none or the text spells nothing in it, else `Overflow` where the number that
//! it spells has no 64 bits.
//! Read `specs/Spellings.antt` from its end: a base, a sign, a prefix, digits. What digits spell is
//! a mathematical number, however many they are.
//! Limits: digits and letters are ASCII's, and nothing may stand between digits.
//! Source: the Starlark specification, "int". To change what a prefix is open `src/spellings.rt`;
//! what digits are worth, `src/digits.rt`.
#![tactic(auto)]

mod digits;
pub mod spellings;

pub use spellings::integer_of;
