//! The tree of files.
ghost use Rattle.std.specs.Prelude.{◌≡◌, ◌≤◌, ◌<◌, ◌+◌, ℕ, List, Option, IfSome, IfOk, IfErr};
ghost use Rattle.std.specs.Prelude.{OnErr, OnOk, length};
ghost use Rattle.bz_base.specs.Counts.{Rose};
ghost use Rattle.bz_tree.specs.Outcomes.{Fails};
ghost use Rattle.bz_tree.specs.declared.tree.Found.{Found};
ghost use Rattle.bz_tree.specs.Places.{IsPlaced, IsPlacedInPart};
ghost use Rattle.bz_tree.specs.Reads.{IsReadable, failed_path_after, largest_file};

use crate::faults::OutsideFault;
use bz_base::{Mem, Seq, TreePath, Txt};
use std::alloc::Global;

/// The most bytes of a file that is read or placed, 16 MiB.
pub const LARGEST_FILE: usize = 16_777_216;

/// What stands at a path: a file's bytes, a file of more than 16 MiB, the names in a directory in
/// byte order, or nothing.
#[derive(Debug, Drop)]
pub enum Found {
    Bytes(Seq<u8>),
    Large,
    Listing(Seq<Txt>),
    Absent,
}

/// A tree of files, read path by path.
///
/// `files` is what stands at each path, where the tree tells it. `faults` counts the reads that
/// failed, and `failed` is the path of the last of them, or the empty path. `failed_places` counts
/// the files that could not be placed, and for `spare` more there is room.
pub trait Tree {
    ghost files: { Self → Option (List ℕ → Found) };

    ghost faults: { Self → ℕ };

    ghost failed: { Self → List ℕ };

    ghost failed_places: { Self → ℕ };

    ghost spare: { Self → ℕ };

    /// What stands at a path.
    fn read(&mut self, alloc: Global, path: &TreePath) -> Result<Found, OutsideFault>
        ensures told { IfSome (files self.old) (λ look. IfOk result (λ it. it ≡ look path.now)) }
        ensures readable { IfOk result IsReadable }
        ensures files_kept { files self.new ≡ files self.old }
        ensures count_never_falls { faults self.old ≤ faults self.new }
        ensures counted { Fails result → Rose (faults self.old) (faults self.new) }
        ensures path { failed self.new ≡ failed_path_after result path.now (failed self.old) }
        ensures failed_places_kept { failed_places self.new ≡ failed_places self.old }
        ensures spare_kept { spare self.new ≡ spare self.old };

    /// Makes room for so many files to be placed.
    fn room(&mut self, alloc: Global, places: u64) -> Mem<()>
        ensures enough { OnOk result (places ≤ spare self.new) }
        ensures unchanged { OnErr result (spare self.new ≡ spare self.old) }
        ensures files_kept { files self.new ≡ files self.old }
        ensures faults_kept { faults self.new ≡ faults self.old }
        ensures failed_kept { failed self.new ≡ failed self.old }
        ensures failed_places_kept { failed_places self.new ≡ failed_places self.old };

    /// Puts a file at a path, with the directories above it, or hands the path back. Takes no
    /// memory.
    fn place(&mut self, path: TreePath, bytes: Seq<u8>) -> Result<(), TreePath>
        requires small { length bytes ≤ largest_file }
        requires room { 0 < spare self.old }
        ensures placed { OnOk result (IsPlaced (files self.old) path bytes (files self.new)) }
        ensures part { OnErr result (IsPlacedInPart (files self.old) path bytes (files self.new)) }
        ensures handed_back { IfErr result (λ back. back ≡ path) }
        ensures count_never_falls { failed_places self.old ≤ failed_places self.new }
        ensures counted { OnErr result (Rose (failed_places self.old) (failed_places self.new)) }
        ensures spare_lowered { spare self.old ≤ spare self.new + 1 }
        ensures faults_kept { faults self.new ≡ faults self.old }
        ensures failed_kept { failed self.new ≡ failed self.old };
}
