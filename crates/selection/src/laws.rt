//! Laws of the definitions, each over all that they speak of.
ghost use Rattle.std.specs.Prelude.{◌≡◌, List, ℕ, Ok, Some, None};
ghost use Rattle.bz_base.specs.Graphs.{IsGraph};
ghost use Rattle.bz_base.specs.declared.module_graph.Graph.{Graph};
ghost use Rattle.bz_base.specs.declared.module_graph.GraphNode.{GraphNode};
ghost use Rattle.bz_base.specs.declared.module_graph.Selected.{Selected};
ghost use Rattle.selection.specs.Selection.{choice, selected_of};
ghost use Rattle.selection.specs.SelectionLaws.{HasNone, IsHighest, IsSelection};

/// The choice of a name is the highest version that stands under it, and every name that stands has
/// one.
pub fn choice_is_highest()
    ensures chosen { (name : List ℕ) (nodes : List GraphNode) (index : ℕ)
        → choice name nodes ≡ Some index
        → IsHighest name nodes index }
    ensures absent { (name : List ℕ) (nodes : List GraphNode) → choice name nodes ≡ None → HasNone name nodes }
{}

/// Of a graph something is selected: the choices of all needs from the root on, each with its
/// dependencies in order, and its nodes are the least set with the root and all choices of the
/// needs of its members.
pub fn selected_is_least()
    ensures { (graph : Graph)
        → IsGraph graph
        → (selected : Selected) × (selected_of graph ≡ Ok selected) × IsSelection graph selected }
{}
