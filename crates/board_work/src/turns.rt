//! What a turn is given, and what it gives.
use bz_base::{Refusal, TreePath};
use bz_tree::Found;
use std::sync::Arc;

/// What a job needs before it goes on: what stands at a path, or another job's value.
#[derive(Drop)]
pub enum Need<J> {
    File(TreePath),
    Job(J),
}

/// What a need is answered with.
#[derive(Drop)]
pub enum Given<V> {
    File(Arc<Found>),
    Value(Arc<V>),
}

/// What a turn gives.
#[derive(Drop)]
pub enum TurnOf<P, J, V> {
    Done(V),
    Refused(Refusal),
    Needs(P, Need<J>),
}
