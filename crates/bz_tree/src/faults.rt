//! How a call to the outside fails.
ghost use Rattle.std.specs.Prelude.{◌≡◌};
ghost use Rattle.bz_tree.specs.declared.faults.OutsideFault.TheVariants.{OutOfMemory};

use bz_base::OutOfMemory;

/// The outside failed, and its count of faults rose.
#[derive(Clone, Copy, Debug, PartialEq, Eq)]
pub struct Failed;

/// Why a call that also takes memory gave nothing.
#[derive(Clone, Copy, Debug, PartialEq, Eq)]
pub enum OutsideFault {
    Failed,
    OutOfMemory,
}

impl From<OutOfMemory> for OutsideFault {
    ghost from_gives = { λ _ fault. fault ≡ OutOfMemory };

    fn from(_error: OutOfMemory) -> OutsideFault {
        OutsideFault::OutOfMemory
    }
}
