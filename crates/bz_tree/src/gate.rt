//! The gate that workers pass.
use std::marker::Sync;

/// Called by a worker before and after each turn of a job. A gate answers nothing, and so changes
/// no answer of a run.
pub trait Gate: Sync {
    fn entered(&self, job: &str);

    fn left(&self, job: &str);
}

/// The gate that lets everybody pass.
#[derive(Clone, Copy, Debug)]
pub struct NoGate;

impl Gate for NoGate {
    fn entered(&self, _job: &str) {}

    fn left(&self, _job: &str) {}
}
