//! Which indexes are reached from the first, breadth-first, over a list of links.
//!
//! In comes, for each index, to which indexes it leads; out goes the set of those that are reached,
//! in the order of levels, each once. A link that leads to no index of the list counts for nothing.
//! Read `specs/Reaching.antt` first: the walk of `bz_walks` over links, which never refuses.
//! The code goes index by index; the next one is that behind the last that was followed.
//! Law (`laws.rt`): what is reached begins with the first index, and is the least set with it and
//! with all links of its members.
//! Source: Bazel, "Bazel modules", section "Version selection".
#![tactic(auto)]

pub mod laws;
pub mod reaching;

pub use reaching::reached;
