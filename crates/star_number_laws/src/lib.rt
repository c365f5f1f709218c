//! Laws of Starlark's integers: what a quotient and a remainder are, without division.
//!
//! Nothing comes in and nothing goes out: each function of `laws` is empty, and its contract is a
//! law of the definitions of `star_numbers`.
//! Quotient times divisor plus remainder is the number, and the remainder is nearer to 0 than the
//! divisor and on its side. There is one quotient alone of which both hold, so that these two laws
//! say what `//` and `%` mean.
//! Limits: the laws speak of mathematical integers; where a quotient has no 64 bits it is refused.
//! Source: the Starlark specification, "Integers". To add a law open `src/laws.rt`.
#![tactic(auto)]

pub mod laws;
