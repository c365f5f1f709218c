//! Where text goes.
ghost use Rattle.std.specs.Prelude.{◌≡◌, ◌≤◌, ℕ, List, Option, length, IfOk, OnErr};
ghost use Rattle.bz_base.specs.Counts.{Rose};
ghost use Rattle.bz_tree.specs.Writes.{CountsNothing, written_after};

use crate::faults::Failed;

/// A sink of bytes, written piece by piece.
///
/// `written` is what was written so far, where the sink tells it; `faults` counts the writes that
/// failed or took nothing of a piece.
pub trait Sink {
    ghost written: { Self → Option (List ℕ) };

    ghost faults: { Self → ℕ };

    /// How many bytes of the front of the piece were taken.
    fn write(&mut self, bytes: &[u8]) -> Result<usize, Failed>
        ensures within { IfOk result (λ taken. taken ≤ length bytes.now) }
        ensures appended { written self.new ≡ written_after result bytes.now (written self.old) }
        ensures count_never_falls { faults self.old ≤ faults self.new }
        ensures counted { OnErr result (Rose (faults self.old) (faults self.new)) }
        ensures nothing { CountsNothing result bytes.now (faults self.old) (faults self.new) };
}
