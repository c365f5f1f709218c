//! The keeper of the lockfile.
ghost use Rattle.std.specs.Prelude.{◌≡◌, ◌≤◌, ℕ, List, Option, IfSome, IfOk, OnOk, OnErr};
ghost use Rattle.bz_base.specs.Counts.{Rose};
ghost use Rattle.bz_tree.specs.Outcomes.{Fails};
ghost use Rattle.bz_tree.specs.Keeping.{IsOldOrNew, loaded_of, replaced};

use crate::faults::{Failed, OutsideFault};
use bz_base::Seq;
use std::alloc::Global;

/// The most bytes of a lockfile that is loaded, 64 MiB.
pub const LARGEST_LOCKFILE: usize = 67_108_864;

/// What a keeper has: the lockfile's bytes, a lockfile of more than 64 MiB, or none.
#[derive(Debug, Drop)]
pub enum Loaded {
    Bytes(Seq<u8>),
    Large,
    Absent,
}

/// The keeper of a lockfile.
///
/// `held` is the lockfile's bytes, or that there is none, where the keeper tells it; `faults`
/// counts the calls that failed.
pub trait LockKeeper {
    ghost held: { Self → Option (Option (List ℕ)) };

    ghost faults: { Self → ℕ };

    fn load(&mut self, alloc: Global) -> Result<Loaded, OutsideFault>
        ensures told { IfSome (held self.old) (λ file. IfOk result (λ it. it ≡ loaded_of file)) }
        ensures held_kept { held self.new ≡ held self.old }
        ensures count_never_falls { faults self.old ≤ faults self.new }
        ensures counted { Fails result → Rose (faults self.old) (faults self.new) };

    /// Puts the bytes in the lockfile's place. A call that failed leaves the old or the new ones.
    fn replace(&mut self, bytes: Seq<u8>) -> Result<(), Failed>
        ensures replaced { OnOk result (held self.new ≡ replaced (held self.old) bytes) }
        ensures old_or_new { OnErr result (IsOldOrNew (held self.old) bytes (held self.new)) }
        ensures count_never_falls { faults self.old ≤ faults self.new }
        ensures counted { OnErr result (Rose (faults self.old) (faults self.new)) };
}
