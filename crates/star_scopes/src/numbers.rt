//! Places as they stand in trees.
ghost use Rattle.std.specs.Prelude.{◌≡◌, IfOk};

use bz_text::{Mem, OutOfMemory};

/// A place as it stands in a tree. There is no room for more than 4,294,967,296.
pub(crate) fn number(place: usize) -> Mem<u32>
    ensures { IfOk result (λ number. number ≡ place) }
{
    if place <= 4_294_967_295 {
        Ok(place as u32)
    } else {
        Err(OutOfMemory)
    }
}
