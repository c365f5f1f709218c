//! Values compared: whether two are equal, which is first, and under which text a dictionary finds
//! a key.
//!
//! In comes a heap and its values; out goes an answer, or the fault `Depth` where containers nest
//! more than 128 deep, as in a list that holds itself, or `Kind` where two values have no order and
//! where a value is no key. Read `specs/Equality.antt`, then `specs/Order.antt` and
//! `specs/Ranges.antt`; the content of a key is `star_core/specs/Contents.antt`.
//! Comparing takes no memory: it goes from item to item in loops, and from container to item in a
//! recursion on how deep it may still go.
//! `laws` says that two ranges are equal exactly where their numbers are one list.
//! Limits: two values that share their parts are compared part by part, each as often as it occurs.
//! Source: the Starlark specification, "Comparisons", "Dictionaries" and "range". To change what is
//! equal open `src/equality.rt`; what is less, `src/ordering.rt`; what a key is, `src/keys.rt`.
#![tactic(auto)]

mod contents;
pub mod equality;
pub mod keys;
pub mod laws;
pub mod ordering;
mod ranges;

pub use equality::equal;
pub use keys::{find, key_content, plain_text};
pub use ordering::order;
