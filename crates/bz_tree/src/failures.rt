//! Why a command gives no text.
ghost use Rattle.std.specs.Prelude.{◌≡◌};
ghost use Rattle.bz_tree.specs.Failures.{failure_of_miss};
ghost use Rattle.bz_tree.specs.declared.failures.Failure.TheVariants.{OutOfMemory};

use bz_base::{Miss, OutOfMemory, Refusal, TreePath};
use std::alloc::AllocFailed;

/// What comes in place of a command's text.
#[derive(Debug, Drop)]
pub enum Failure {
    Refused(Refusal),
    ReadFault(TreePath),
    OutOfMemory,
}

/// The failure of a part that gave nothing.
pub fn failure_of(miss: Miss<Refusal>) -> Failure
    ensures { result ≡ failure_of_miss miss }
{
    match miss {
        Miss::OutOfMemory => Failure::OutOfMemory,
        Miss::Because(refusal) => Failure::Refused(refusal),
    }
}

impl From<OutOfMemory> for Failure {
    ghost from_gives = { λ _ failure. failure ≡ OutOfMemory };

    fn from(_error: OutOfMemory) -> Failure {
        Failure::OutOfMemory
    }
}

impl<T: Drop> From<AllocFailed<T>> for Failure {
    ghost from_gives = { λ _ failure. failure ≡ OutOfMemory };

    fn from(_error: AllocFailed<T>) -> Failure {
        Failure::OutOfMemory
    }
}

impl From<Miss<Refusal>> for Failure {
    ghost from_gives = { λ miss failure. failure ≡ failure_of_miss miss };

    fn from(miss: Miss<Refusal>) -> Failure {
        failure_of(miss)
    }
}
