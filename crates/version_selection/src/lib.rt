//! Selection: of the discovered versions of each group one is chosen, and what the root then needs
//! is selected.
//!
//! In come a `Graph` and the root's `Overrides`; out goes `Selected`, indexes in the graph with
//! indexes of their dependencies, in module order, or the first refusal: NotInGraph, then
//! AboveAllowed or Levels of the first module in that order.
//! Read `specs/Choices.antt` first: which version stands for another; then `specs/Selection.antt`:
//! what the root reaches by choices (`index_walks`), and `specs/Refusals.antt`.
//! The code keeps a table of nodes by their keys and one of the highest versions by name and level;
//! a module with several listed versions is looked for among all nodes.
//! Limits: those of the graph.
//! Source: Bazel, "Bazel modules", sections "Version selection", "Compatibility level" and
//! "Multiple-version override".
#![tactic(auto)]

pub mod choosing;
pub mod refusing;
pub mod selecting;
pub mod tables;

pub use selecting::{find_module, select};
