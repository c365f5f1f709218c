//! Breadth-first walks over any requests and nodes: one definition for discovery and for selection.
//!
//! A walk has requests, of which some are one, a limit on new ones, what each request leads to, and
//! what each node asks for. It goes level by level: each level is what the nodes of the one before
//! ask for, in order, without what stands earlier.
//! Read `specs/Walks.antt` first. `specs/RefusingRequests.antt` is the walk whose nodes have
//! requests that may themselves be refused, `specs/Rounds.antt` the one that goes on behind its
//! last level.
//! There is no code here; a crate that walks node by node cites `proofs/WalkSteps` (node by node
//! comes to the same) and `proofs/WalkLaws` (what is reached is the least set).
//! Laws (`laws.rt`): the levels in their order, said without a pointer into a list, so that a walk
//! in depth first is none; the first refusal in that order; a walk from which nothing follows has
//! one round.
//! Limits: levels are counted, so that a definition ends; the count is the most keys of a graph, or
//! its nodes.
//! Source: Bazel, "Bazel modules", section "Version selection".
#![tactic(auto)]

pub mod laws;
