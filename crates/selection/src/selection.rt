//! The selected modules of a graph. One pass over the nodes lists the choice of each group by its
//! name; then the root's choices are followed in order, each new one once.
ghost use Rattle.std.specs.Prelude.{◌≡◌, ◌<◌, ◌++◌, ◌∷◌, [], IfOk, Ok, OnOk, filter_map, length};
ghost use Rattle.std.specs.Prelude.{map, nat_eq, slice_get};
ghost use Rattle.std.specs.List.{position_from};
ghost use Rattle.indexmap.specs.IndexSet.{insert_all};
ghost use Rattle.bz_text.specs.Answers.{Gives};
ghost use Rattle.selection.specs.ChoiceTables.{HasChoices, is_kept, listed};
ghost use Rattle.selection.specs.Selection.{chosen_at, chosen_of, is_superior, indexes_in};
ghost use Rattle.selection.specs.Selection.{indexes_walked, selected_of, selected_of_nodes};

use bz_base::{Chosen, Graph, GraphNode, Key, May, Mem, Refusal, Selected, Seq};
use bz_version::order_texts;
use indexmap::{IndexMap, IndexSet};
use std::alloc::Global;

/// The selected modules of a graph: what the root then needs, by the highest versions.
pub fn select(alloc: Global, graph: &Graph) -> May<Selected, Refusal>
    ensures { Gives (selected_of graph.now) result }
{
    Ok(select_nodes(alloc, graph.nodes.items())?)
}

fn select_nodes(alloc: Global, nodes: &[GraphNode]) -> Mem<Selected>
    ensures { IfOk result (λ selected. selected_of_nodes nodes.now ≡ Ok selected) }
{
    if nodes.is_empty() {
        return Ok(Selected {
            modules: Seq::new(alloc),
        });
    }
    let table = choices(alloc, nodes)?;
    let indexes = indexes(alloc, nodes, &table)?;
    let modules = modules(alloc, nodes, &table, &indexes)?;
    Ok(Selected {
        modules: Seq::of_vec(modules),
    })
}

/// The index of each module's highest requested version, by the module's name.
fn choices(alloc: Global, nodes: &[GraphNode]) -> Mem<IndexMap<String, u64>>
    ensures { IfOk result (λ table. HasChoices nodes.now table.entries) }
{
    let mut table = IndexMap::new(alloc);
    for (index, node) in nodes.iter().enumerate() {
        choose(alloc, &mut table, &nodes[..index], node)?;
    }
    Ok(table)
}

/// Lists the next node as its group's choice, unless the choice among those before it is kept.
fn choose(
    alloc: Global,
    table: &mut IndexMap<String, u64>,
    before: &[GraphNode],
    node: &GraphNode,
) -> Mem<()>
    requires { HasChoices before.now table.old.entries }
    ensures { OnOk result (HasChoices (before.now ++ node.now ∷ []) table.new.entries) }
{
    if is_kept(before, node, listed(table, node.key.name.as_str())) {
        return Ok(());
    }
    let name = node.key.name.copy(alloc)?;
    table.insert(name.into_string(), before.len() as u64)?;
    Ok(())
}

/// Whether there is a choice to which the node isn't superior.
fn is_kept(nodes: &[GraphNode], node: &GraphNode, chosen: Option<u64>) -> bool
    ensures { result ≡ is_kept nodes.now node.now chosen }
{
    match chosen {
        Some(index) => match nodes.get(index as usize) {
            Some(other) => !is_superior(node, other),
            None => false,
        },
        None => false,
    }
}

fn is_superior(one: &GraphNode, other: &GraphNode) -> bool
    ensures { result ≡ is_superior one.now other.now }
{
    order_texts(one.key.version.as_str(), other.key.version.as_str()).is_gt()
}

fn listed(table: &IndexMap<String, u64>, name: &str) -> Option<u64>
    ensures { result ≡ listed table.now.entries name.now }
{
    table.get(name).copied()
}

/// The indexes of the selected modules, in module order.
fn indexes(alloc: Global, nodes: &[GraphNode], table: &IndexMap<String, u64>) -> Mem<IndexSet<u64>>
    requires some { 0 < length nodes.now }
    requires choices { HasChoices nodes.now table.now.entries }
    ensures { IfOk result (λ indexes. indexes_walked nodes.now ≡ Ok (record {
      known = indexes.keys;
      nodes =
          indexes.keys;
    })) }
{
    let mut indexes = IndexSet::new(alloc);
    indexes.insert(0)?;
    let mut next = 0;
    'walk: while let Some(index) = index_at(&indexes, next) {
        let chosen = chosen_at(alloc, nodes, table, index)?;
        add_each(&mut indexes, chosen.as_slice())?;
        next += 1;
    }
    Ok(indexes)
}

fn index_at(indexes: &IndexSet<u64>, position: usize) -> Option<u64>
    ensures { result ≡ slice_get indexes.now.keys position }
{
    indexes.get_index(position).copied()
}

/// Puts each of the indexes that isn't there yet at the end.
fn add_each(indexes: &mut IndexSet<u64>, more: &[u64]) -> Mem<()>
    ensures { OnOk result (indexes.new.keys ≡ insert_all nat_eq indexes.old.keys more.now) }
{
    for index in more {
        indexes.insert(*index)?;
    }
    Ok(())
}

/// The choice of each need of the node at an index.
fn chosen_at(
    alloc: Global,
    nodes: &[GraphNode],
    table: &IndexMap<String, u64>,
    index: u64,
) -> Mem<Vec<u64>>
    requires { HasChoices nodes.now table.now.entries }
    ensures { IfOk result (λ chosen. chosen.items ≡ chosen_at nodes.now index) }
{
    match nodes.get(index as usize) {
        Some(node) => chosen_needs(alloc, table, node.needs.items()),
        None => Ok(Vec::new(alloc)),
    }
}

/// The choice of each of the needs, in order.
fn chosen_needs(alloc: Global, table: &IndexMap<String, u64>, needs: &[Key]) -> Mem<Vec<u64>>
    ensures { IfOk result (λ chosen. chosen.items ≡ filter_map (λ need. listed table.now.entries
        need.name) needs.now) }
{
    let chosen = needs
        .iter()
        .filter_map(|need| listed(table, need.name.as_str()))
        .collect(alloc)?;
    Ok(chosen)
}

/// The selected modules with their dependencies.
fn modules(
    alloc: Global,
    nodes: &[GraphNode],
    table: &IndexMap<String, u64>,
    indexes: &IndexSet<u64>,
) -> Mem<Vec<Chosen>>
    requires { HasChoices nodes.now table.now.entries }
    ensures { IfOk result (λ modules. modules.items ≡ map (chosen_of nodes.now indexes.now.keys)
        indexes.now.keys) }
{
    let mut modules = Vec::new(alloc);
    for index in indexes.as_slice() {
        modules.push(chosen_of(alloc, nodes, table, indexes, *index)?)?;
    }
    Ok(modules)
}

fn chosen_of(
    alloc: Global,
    nodes: &[GraphNode],
    table: &IndexMap<String, u64>,
    indexes: &IndexSet<u64>,
    index: u64,
) -> Mem<Chosen>
    requires { HasChoices nodes.now table.now.entries }
    ensures { IfOk result (λ chosen. chosen ≡ chosen_of nodes.now indexes.now.keys index) }
{
    let chosen = chosen_at(alloc, nodes, table, index)?;
    let deps = indexes_in(alloc, indexes, chosen.as_slice())?;
    Ok(Chosen {
        node: index,
        deps: Seq::of_vec(deps),
    })
}

/// The indexes of the chosen among the selected modules.
fn indexes_in(alloc: Global, indexes: &IndexSet<u64>, chosen: &[u64]) -> Mem<Vec<u64>>
    ensures { IfOk result (λ deps. deps.items ≡ indexes_in indexes.now.keys chosen.now) }
{
    let deps = chosen
        .iter()
        .filter_map(|index| index_of(indexes, *index))
        .collect(alloc)?;
    Ok(deps)
}

fn index_of(indexes: &IndexSet<u64>, index: u64) -> Option<u64>
    ensures { result ≡ position_from (nat_eq index) 0 indexes.now.keys }
{
    let position = indexes.get_index_of(&index)?;
    Some(position as u64)
}
