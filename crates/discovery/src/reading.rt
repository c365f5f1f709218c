//! Reading a tree.
ghost use Rattle.std.specs.Prelude.{◌≡◌, ◌≤◌, Ok, [], codes};
ghost use Rattle.discovery.specs.Discovery.{found_by};
ghost use Rattle.bz_tree.specs.Failures.{ReadsOver, tree_run};

use bz_base::{Miss, TreePath};
use bz_tree::{Failure, Found, OutsideFault, Tree};
use std::alloc::Global;

/// What stands at a path. A read that fails gives the path back.
pub fn read<T: Tree>(alloc: Global, tree: &mut T, path: TreePath) -> Result<Found, Failure>
    ensures { ReadsOver (λ look. Ok (look path))
        (tree_run T.files T.faults T.failed tree.old tree.new) result }
{
    match tree.read(alloc, &path) {
        Ok(found) => Ok(found),
        Err(OutsideFault::Failed) => Err(Failure::ReadFault(path)),
        Err(OutsideFault::OutOfMemory) => Err(Failure::OutOfMemory),
    }
}

/// What stands where a text leads from the workspace; nothing where it leads nowhere.
pub fn read_by<T: Tree>(alloc: Global, tree: &mut T, text: &str) -> Result<Found, Failure>
    ensures { ReadsOver (λ look. Ok (found_by look text.now))
        (tree_run T.files T.faults T.failed tree.old tree.new) result }
{
    match TreePath::workspace(alloc).join(alloc, text) {
        Ok(path) => read(alloc, tree, path),
        Err(Miss::Because(_)) => Ok(Found::Absent),
        Err(Miss::OutOfMemory) => Err(Failure::OutOfMemory),
    }
}
