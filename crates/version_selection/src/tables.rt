//! The tables by which nodes and choices are found, each made in one pass over the nodes.
ghost use Rattle.std.specs.Prelude.{◌≡◌, ◌++◌, ◌∷◌, [], IfOk, OnOk, string_bytes};
ghost use Rattle.version_selection.specs.Choices as spec;
ghost use Rattle.version_selection.specs.Tables.{HasHighest, HasKeys, index_of_group, index_of_key};
ghost use Rattle.version_selection.specs.Tables as table_spec;
ghost use Rattle.selection.specs.Selection as order_spec;

use bz_base::{GraphNode, Key, Mem};
use bz_version::order_texts;
use indexmap::IndexMap;
use std::alloc::Global;

/// The index of each key's node.
pub(crate) fn keys(alloc: Global, nodes: &[GraphNode]) -> Mem<IndexMap<(String, String), u64>>
    ensures { IfOk result (λ table. HasKeys nodes.now table.entries) }
{
    let mut table = IndexMap::new(alloc);
    for (index, node) in nodes.iter().enumerate() {
        add_key(alloc, &mut table, &nodes[..index], node)?;
    }
    Ok(table)
}

/// Lists the next node under its key, unless a node stands there.
fn add_key(
    alloc: Global,
    table: &mut IndexMap<(String, String), u64>,
    before: &[GraphNode],
    node: &GraphNode,
) -> Mem<()>
    requires { HasKeys before.now table.old.entries }
    ensures { OnOk result (HasKeys (before.now ++ node.now ∷ []) table.new.entries) }
{
    if index_of_key(alloc, table, &node.key)?.is_some() {
        return Ok(());
    }
    table.insert(pair(alloc, &node.key)?, before.len() as u64)?;
    Ok(())
}

/// The index of a key's node.
pub(crate) fn index_of_key(
    alloc: Global,
    table: &IndexMap<(String, String), u64>,
    key: &Key,
) -> Mem<Option<u64>>
    ensures { IfOk result (λ index. index ≡ index_of_key table.now.entries key.now) }
{
    let pair = pair(alloc, key)?;
    Ok(table.get(&pair).copied())
}

/// A key as a pair of texts of its own.
fn pair(alloc: Global, key: &Key) -> Mem<(String, String)>
    ensures name { IfOk result (λ pair. string_bytes pair.0 ≡ key.now.name) }
    ensures version { IfOk result (λ pair. string_bytes pair.1 ≡ key.now.version) }
{
    let name = key.name.copy(alloc)?.into_string();
    let version = key.version.copy(alloc)?.into_string();
    Ok((name, version))
}

/// The index of the highest version of each module at each level.
pub(crate) fn highest(alloc: Global, nodes: &[GraphNode]) -> Mem<IndexMap<(String, u32), u64>>
    ensures { IfOk result (λ table. HasHighest nodes.now table.entries) }
{
    let mut table = IndexMap::new(alloc);
    for (index, node) in nodes.iter().enumerate() {
        add_highest(alloc, &mut table, &nodes[..index], node)?;
    }
    Ok(table)
}

/// Lists the next node as its group's highest, unless the one among those before it stays.
fn add_highest(
    alloc: Global,
    table: &mut IndexMap<(String, u32), u64>,
    before: &[GraphNode],
    node: &GraphNode,
) -> Mem<()>
    requires { HasHighest before.now table.old.entries }
    ensures { OnOk result (HasHighest (before.now ++ node.now ∷ []) table.new.entries) }
{
    if node.root {
        return Ok(());
    }
    let highest = index_of_group(alloc, table, node)?;
    if stays(before, node, highest) {
        return Ok(());
    }
    table.insert(group(alloc, node)?, before.len() as u64)?;
    Ok(())
}

/// The index that stands beside a node's name and level.
pub(crate) fn index_of_group(
    alloc: Global,
    table: &IndexMap<(String, u32), u64>,
    node: &GraphNode,
) -> Mem<Option<u64>>
    ensures { IfOk result (λ index. index
        ≡ index_of_group table.now.entries node.now.key.name node.now.decl.level) }
{
    let group = group(alloc, node)?;
    Ok(table.get(&group).copied())
}

/// A node's name and level.
fn group(alloc: Global, node: &GraphNode) -> Mem<(String, u32)>
    ensures name { IfOk result (λ group. string_bytes group.0 ≡ node.now.key.name) }
    ensures level { IfOk result (λ group. group.1 ≡ node.now.decl.level) }
{
    Ok((node.key.name.copy(alloc)?.into_string(), node.decl.level))
}

/// Whether there is a choice to which the node isn't superior.
fn stays(nodes: &[GraphNode], node: &GraphNode, choice: Option<u64>) -> bool
    ensures { result ≡ table_spec.stays order_spec.is_superior nodes.now node.now choice }
{
    match choice {
        Some(index) => match nodes.get(index as usize) {
            Some(other) => !is_superior(node, other),
            None => false,
        },
        None => false,
    }
}

/// Whether there is a choice to which the node isn't inferior.
pub(crate) fn stays_least(nodes: &[GraphNode], node: &GraphNode, choice: Option<u64>) -> bool
    ensures { result ≡ table_spec.stays spec.is_inferior nodes.now node.now choice }
{
    match choice {
        Some(index) => match nodes.get(index as usize) {
            Some(other) => !is_superior(other, node),
            None => false,
        },
        None => false,
    }
}

pub(crate) fn is_superior(one: &GraphNode, other: &GraphNode) -> bool
    ensures { result ≡ order_spec.is_superior one.now other.now }
{
    order_texts(one.key.version.as_str(), other.key.version.as_str()).is_gt()
}
