//! Reading a tree at the path of a text.
ghost use Rattle.std.specs.Prelude.{◌≡◌, Ok, []};
ghost use Rattle.bz_base.specs.Paths.{joined};
ghost use Rattle.bz_tree.specs.Failures.{ReadsOver, tree_run};
ghost use Rattle.registry_index.specs.AskedFiles.{FailsWhere, found_where};

use bz_base::{Miss, TreePath};
use bz_tree::{Failure, Found, OutsideFault, Tree};
use std::alloc::Global;

/// What stands where a text leads; nothing where it leads nowhere.
pub(crate) fn read_by<T: Tree>(alloc: Global, tree: &mut T, text: &str) -> Result<Found, Failure>
    ensures found { ReadsOver (λ look. Ok (found_where look (joined [] text.now)))
        (tree_run T.files T.faults T.failed tree.old tree.new) result }
    ensures failed { FailsWhere (joined [] text.now) result }
{
    match TreePath::workspace(alloc).join(alloc, text) {
        Ok(path) => read(alloc, tree, path),
        Err(Miss::Because(_)) => Ok(Found::Absent),
        Err(Miss::OutOfMemory) => Err(Failure::OutOfMemory),
    }
}

fn read<T: Tree>(alloc: Global, tree: &mut T, path: TreePath) -> Result<Found, Failure>
    ensures found { ReadsOver (λ look. Ok (look path))
        (tree_run T.files T.faults T.failed tree.old tree.new) result }
    ensures failed { FailsWhere (Ok path) result }
{
    match tree.read(alloc, &path) {
        Ok(found) => Ok(found),
        Err(OutsideFault::Failed) => Err(Failure::ReadFault(path)),
        Err(OutsideFault::OutOfMemory) => Err(Failure::OutOfMemory),
    }
}
