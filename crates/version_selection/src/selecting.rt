//! The selected modules of a graph: tables and choices first, then what the root reaches by them,
//! and what of it is refused.
ghost use Rattle.std.specs.Prelude.{◌≡◌, IfOk, map, nat_eq, filter_map};
ghost use Rattle.std.specs.List.{position, position_from};
ghost use Rattle.bz_text.specs.Answers.{Gives};
ghost use Rattle.version_selection.specs.Selection as spec;
ghost use Rattle.version_selection.specs.Selection.{selected_of, selected_among};
ghost use Rattle.version_selection.specs.Choices as choice_spec;

use crate::choosing::links;
use crate::refusing::{first_absent, first_refusal};
use crate::tables::{highest, keys};
use bz_base::{Chosen, Graph, GraphNode, Key, May, Mem, Miss, Refusal, Selected, Seq};
use index_walks::reached;
use indexmap::IndexSet;
use overrides::Overrides;
use std::alloc::Global;

/// The selected modules of a graph under the root's overrides.
pub fn select(alloc: Global, graph: &Graph, overrides: &Overrides) -> May<Selected, Refusal>
    ensures { Gives (selected_of graph.now overrides.now) result }
{
    let nodes = graph.nodes.items();
    let keys = keys(alloc, nodes)?;
    if let Some(refusal) = first_absent(alloc, nodes, overrides, &keys)? {
        return Err(Miss::Because(refusal));
    }
    let highest = highest(alloc, nodes)?;
    let links = links(alloc, nodes, overrides, &keys, &highest)?;
    let indexes = reached(alloc, links.as_slice())?;
    select_among(alloc, nodes, overrides, links.as_slice(), &indexes)
}

/// The selected modules, unless one of them is refused.
fn select_among(
    alloc: Global,
    nodes: &[GraphNode],
    overrides: &Overrides,
    links: &[Seq<u64>],
    indexes: &IndexSet<u64>,
) -> May<Selected, Refusal>
    ensures { Gives (selected_among overrides.now nodes.now links.now indexes.now.keys) result }
{
    if let Some(refusal) = first_refusal(alloc, nodes, overrides, indexes.as_slice())? {
        return Err(Miss::Because(refusal));
    }
    Ok(modules_of(alloc, links, indexes)?)
}

fn modules_of(alloc: Global, links: &[Seq<u64>], indexes: &IndexSet<u64>) -> Mem<Selected>
    ensures { IfOk result (λ selected. selected ≡ spec.modules_of links.now indexes.now.keys) }
{
    let mut modules = Vec::new(alloc);
    for index in indexes.as_slice() {
        modules.push(chosen_of(alloc, links, indexes, *index)?)?;
    }
    Ok(Selected {
        modules: Seq::of_vec(modules),
    })
}

fn chosen_of(alloc: Global, links: &[Seq<u64>], indexes: &IndexSet<u64>, index: u64) -> Mem<Chosen>
    ensures { IfOk result (λ chosen. chosen ≡ spec.chosen_of links.now indexes.now.keys index) }
{
    Ok(Chosen {
        node: index,
        deps: deps_at(alloc, links, indexes, index)?,
    })
}

fn deps_at(alloc: Global, links: &[Seq<u64>], indexes: &IndexSet<u64>, index: u64) -> Mem<Seq<u64>>
    ensures { IfOk result (λ deps. deps ≡ spec.deps_at links.now indexes.now.keys index) }
{
    match links.get(index as usize) {
        Some(some) => Ok(Seq::of_vec(indexes_in(alloc, indexes, some.items())?)),
        None => Ok(Seq::new(alloc)),
    }
}

/// The indexes of the chosen among the selected modules.
fn indexes_in(alloc: Global, indexes: &IndexSet<u64>, chosen: &[u64]) -> Mem<Vec<u64>>
    ensures { IfOk result (λ deps. deps.items ≡ spec.indexes_in indexes.now.keys chosen.now) }
{
    let deps = chosen
        .iter()
        .filter_map(|index| index_of(indexes, *index))
        .collect(alloc)?;
    Ok(deps)
}

fn index_of(indexes: &IndexSet<u64>, index: u64) -> Option<u64>
    ensures { result ≡ position_from (nat_eq index) 0 indexes.now.keys }
{
    let position = indexes.get_index_of(&index)?;
    Some(position as u64)
}

/// The selected module of a key.
pub fn find_module(selected: &Selected, graph: &Graph, key: &Key) -> Option<u64>
    ensures { result ≡ spec.module_of selected.now graph.now key.now }
{
    let nodes = graph.nodes.items();
    match place_of(nodes, key, selected.modules.items()) {
        Some(place) => Some(place as u64),
        None => None,
    }
}

fn place_of(nodes: &[GraphNode], key: &Key, modules: &[Chosen]) -> Option<usize>
    ensures { result ≡ position (spec.is_module nodes.now key.now) modules.now }
{
    modules
        .iter()
        .position(|chosen| is_module(nodes, key, chosen))
}

fn is_module(nodes: &[GraphNode], key: &Key, chosen: &Chosen) -> bool
    ensures { result ≡ spec.is_module nodes.now key.now chosen.now }
{
    match nodes.get(chosen.node as usize) {
        Some(node) => has_key(key, node),
        None => false,
    }
}

fn has_key(key: &Key, node: &GraphNode) -> bool
    ensures { result ≡ choice_spec.has_key key.now node.now }
{
    key.name.as_str() == node.key.name.as_str() && key.version.as_str() == node.key.version.as_str()
}
