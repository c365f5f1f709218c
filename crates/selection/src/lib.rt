//! Selection: of the versions of a module that are asked for the highest is chosen, and what the
//! root then needs is selected.
//!
//! In comes a `Graph`; out goes `Selected`, indexes in the graph with indexes of their
//! dependencies,
//! in module order. Of a graph nothing is refused.
//! Read `specs/Selection.antt` first: the choice of a name is the highest requested version of that
//! module, and the selected modules are the walk of `bz_walks` over choices.
//! The code lists each name's choice in one pass over the nodes and then follows the root's
//! choices.
//! Laws (`laws.rt`): the choice of a name is the highest version that stands under it; the selected
//! modules are the least set with the root and all choices of its members' needs, each dependency
//! naming its need's choice.
//! Limits: those of the graph.
//! Source: Bazel, "Bazel modules", section "Version selection".
#![tactic(auto)]

pub mod laws;
pub mod selection;

pub use selection::select;
