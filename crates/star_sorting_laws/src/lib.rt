//! Laws of sorting: what a sorted list is, in words that don't halve and merge.
//!
//! Nothing comes in and nothing goes out: each function of `laws` is empty, and its contract is a
//! law of the definitions of `star_sorting`.
//! A sorted list has the pairs that were given, each as often; it is in order, so that also no two
//! of its keys lack one; and pairs whose keys are neither less nor greater keep their order. It
//! holds of any heap, any keys and either direction, wherever the sort isn't refused. Read
//! `specs/InOrder.antt`.
//! Limits: the last two hold of lists of fewer than 2^64 pairs, which is each list in memory.
//! Source: the Starlark specification, "sorted". To add a law open `src/laws.rt`.
#![tactic(auto)]

pub mod laws;
