//! Starlark's values in order.
//!
//! In come a heap and pairs of a key and a value, in which a value may be its own key; out go the
//! pairs in the order of their keys, or the pair that comes first, or the fault of the first two
//! keys that were compared and have no order.
//! Read `specs/Sorting.antt`: two halves of a list are sorted and merged, and of equal keys the one
//! that stood first stays first, in either direction. The greatest is what comes first where the
//! order descends; of equal ones it is the first too.
//! A list of so many pairs takes a number of comparisons that grows as that number and its
//! logarithm do.
//! Source: the Starlark specification, "sorted", "max" and "min". To change how two keys compare
//! open `src/comparing.rt`; how lists are merged, `src/merging.rt`.
#![tactic(auto)]

pub mod comparing;
mod merging;
pub mod sorting;

pub use comparing::{Direction, first_pair, first_value};
pub use sorting::{sorted_pairs, sorted_values};
