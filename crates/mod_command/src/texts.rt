//! The text of each command.
ghost use Rattle.std.specs.Prelude.{◌≡◌, ◌≤◌};
ghost use Rattle.mod_command.specs.Runs.{answer};
ghost use Rattle.bz_tree.specs.Failures.{ReadsOver, tree_run};

use crate::command::Command;
use crate::graph::graph_text;
use bz_base::Txt;
use bz_tree::{Failure, Tree};
use std::alloc::Global;

/// The command's text over the tree's files.
pub(crate) fn text<T: Tree>(alloc: Global, command: Command, tree: &mut T) -> Result<Txt, Failure>
    ensures { ReadsOver (answer command)
        (tree_run T.files T.faults T.failed tree.old tree.new) result }
{
    match command {
        Command::Graph => graph_text(alloc, tree),
    }
}
