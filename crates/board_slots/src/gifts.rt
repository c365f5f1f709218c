//! What a job on the board is handed, and what it came to.
use board_work::Given;
use bz_base::Refusal;
use std::sync::Arc;

/// An answer to the need of a parked job, or what a job ends with.
#[derive(Drop)]
pub enum Gift<V> {
    Answer(Given<V>),
    Value(Arc<V>),
    Refusal(Arc<Refusal>),
}

/// What a job came to, if it is done.
#[derive(Drop)]
pub enum Ending<V> {
    Open,
    Value(Arc<V>),
    Refusal(Arc<Refusal>),
}
