//! Laws of the order of values and of the contents of keys.
//!
//! Nothing comes in and nothing goes out: each function of `laws` is empty, and its contract is a
//! law of the definitions of `star_order` and of `star_core`.
//! Wherever two values have an order, turned round they have the reversed one, and two orders one
//! behind another make a third: read `specs/Orders.antt`. Two keys are equal exactly where their
//! contents are one text, so that a dictionary may find them by it: read `specs/KeyContents.antt`.
//! Limits: that values of one kind always have an order isn't stated, since containers may hold
//! what has none. The law of keys speaks of heaps whose integers have 64 bits and whose texts have
//! fewer than 2^64 bytes.
//! Source: the Starlark specification, "Comparisons" and "Dictionaries". To add a law open
//! `src/laws.rt`.
#![tactic(auto)]

pub mod laws;
