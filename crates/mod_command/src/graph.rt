//! The text of `graph`: the root file is read, what it needs is discovered and selected, and the
//! selected modules are written.
ghost use Rattle.std.specs.Prelude.{◌≡◌, ◌≤◌, codes};
ghost use Rattle.mod_command.specs.RootFiles.{root_of};
ghost use Rattle.mod_command.specs.Graphs.{graph_text_of, text_of_selected};
ghost use Rattle.bz_text.specs.Answers.{Gives};
ghost use Rattle.selection.specs.Selection.{selected_of};
ghost use Rattle.bz_tree.specs.Failures.{ReadsOver, tree_run};

use crate::graph_text::write_graph;
use crate::root_file::{read_root, root_path};
use bz_base::{Graph, May, ModuleDecl, Refusal, Txt};
use bz_tree::{Failure, Tree};
use discovery::discovery::discover;
use discovery::reading::read;
use selection::selection::select;
use std::alloc::Global;

/// The text of `graph` over the tree's files.
pub(crate) fn graph_text<T: Tree>(alloc: Global, tree: &mut T) -> Result<Txt, Failure>
    ensures { ReadsOver graph_text_of
        (tree_run T.files T.faults T.failed tree.old tree.new) result }
{
    let root = declared_root(alloc, tree)?;
    let graph = discover(alloc, root, tree)?;
    Ok(selected_text(alloc, graph)?)
}

/// What the root file declares.
fn declared_root<T: Tree>(alloc: Global, tree: &mut T) -> Result<ModuleDecl, Failure>
    ensures { ReadsOver (λ look. root_of (look (codes "MODULE.bazel")))
        (tree_run T.files T.faults T.failed tree.old tree.new) result }
{
    let path = root_path(alloc)?;
    let found = read(alloc, tree, path)?;
    Ok(read_root(alloc, found)?)
}

/// The text of the modules that are selected of a graph.
fn selected_text(alloc: Global, graph: Graph) -> May<Txt, Refusal>
    ensures { Gives (text_of_selected graph (selected_of graph)) result }
{
    let selected = match select(alloc, &graph) {
        Ok(selected) => selected,
        Err(miss) => return Err(miss),
    };
    Ok(write_graph(alloc, &graph, &selected)?)
}
