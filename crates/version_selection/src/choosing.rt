//! Which version stands for a needed one.
ghost use Rattle.std.specs.Prelude.{◌≡◌, ◌++◌, ◌&&◌, [], IfOk, Some, if◌then◌else◌, length, map};
ghost use Rattle.std.specs.Prelude.{not, OnOk};
ghost use Rattle.std.specs.List.{cons_option};
ghost use Rattle.std.specs.Option.{option_copied};
ghost use Rattle.version_selection.specs.Choices as spec;
ghost use Rattle.version_selection.specs.Choices.{is_inferior, listed_for};
ghost use Rattle.version_selection.specs.Tables.{HasHighest, HasKeys, stays};

use crate::tables::{index_of_group, index_of_key, is_superior, stays_least};
use bz_base::{GraphNode, Key, Mem, OverrideKind, Seq, Txt};
use indexmap::IndexMap;
use overrides::Overrides;
use std::alloc::Global;

/// The versions of a module that may stand side by side, where the root lists several.
pub(crate) fn listed<'a>(overrides: &'a Overrides, name: &str) -> Option<&'a Seq<Txt>>
    ensures { option_copied result ≡ listed_for overrides.now name.now }
{
    listed_by(overrides.kind(name))
}

fn listed_by(kind: Option<&OverrideKind>) -> Option<&Seq<Txt>>
    ensures { option_copied result ≡ spec.listed_of (option_copied kind.entry) }
{
    match kind {
        Some(OverrideKind::Multiple { versions, .. }) => Some(versions),
        Some(OverrideKind::Single { .. } | OverrideKind::Local { .. }) | None => None,
        Some(OverrideKind::Archive | OverrideKind::Git) => None,
    }
}

pub(crate) fn is_listed(versions: &[Txt], node: &GraphNode) -> bool
    ensures { result ≡ spec.is_listed versions.now node.now }
{
    versions
        .iter()
        .any(|version| node.key.version.as_str() == version.as_str())
}

/// Whether a node is another version of a node's module at its level.
fn is_fellow(node: &GraphNode, other: &GraphNode) -> bool
    ensures { result ≡ spec.is_fellow node.now.key.name node.now.decl.level other.now }
{
    !other.root
        && (node.key.name.as_str() == other.key.name.as_str()
            && node.decl.level == other.decl.level)
}

fn is_fit(versions: &[Txt], node: &GraphNode, other: &GraphNode) -> bool
    ensures { result ≡ spec.is_fit versions.now node.now other.now }
{
    is_fellow(node, other) && (is_listed(versions, other) && !is_superior(node, other))
}

/// The index of the least listed version that is at least the node's.
fn target(nodes: &[GraphNode], versions: &[Txt], node: &GraphNode) -> Option<u64>
    ensures { result ≡ spec.target versions.now node.now nodes.now }
{
    let mut least = None;
    for (index, other) in nodes.iter().enumerate() {
        least = next_target(&nodes[..index], versions, node, other, least);
    }
    least
}

/// The least so far beside one more node.
fn next_target(
    before: &[GraphNode],
    versions: &[Txt],
    node: &GraphNode,
    other: &GraphNode,
    least: Option<u64>,
) -> Option<u64>
    ensures { result ≡ (if spec.is_fit versions.now node.now other.now
        && not (stays is_inferior before.now other.now least) then Some (length before.now)
        else least) }
{
    if is_fit(versions, node, other) && !stays_least(before, other, least) {
        Some(before.len() as u64)
    } else {
        least
    }
}

#[tactic(auto, unfolding(crate::specs::Choices::picked))]
fn picked(
    alloc: Global,
    nodes: &[GraphNode],
    overrides: &Overrides,
    highest: &IndexMap<(String, u32), u64>,
    node: &GraphNode,
) -> Mem<Option<u64>>
    requires { HasHighest nodes.now highest.now.entries }
    ensures { IfOk result (λ index. index
        ≡ spec.picked (listed_for overrides.now node.now.key.name) node.now nodes.now) }
{
    match listed(overrides, node.key.name.as_str()) {
        Some(versions) => Ok(target(nodes, versions.items(), node)),
        None => index_of_group(alloc, highest, node),
    }
}

fn choice_of(
    alloc: Global,
    nodes: &[GraphNode],
    overrides: &Overrides,
    highest: &IndexMap<(String, u32), u64>,
    index: u64,
    node: &GraphNode,
) -> Mem<u64>
    requires { HasHighest nodes.now highest.now.entries }
    ensures { IfOk result (λ choice. choice
        ≡ spec.choice_of overrides.now nodes.now index node.now) }
{
    if node.root {
        return Ok(index);
    }
    match picked(alloc, nodes, overrides, highest, node)? {
        Some(other) => Ok(other),
        None => Ok(index),
    }
}

/// The choice of the node at an index.
#[tactic(auto, unfolding(crate::specs::Choices::choice_at))]
fn choice_at(
    alloc: Global,
    nodes: &[GraphNode],
    overrides: &Overrides,
    highest: &IndexMap<(String, u32), u64>,
    index: u64,
) -> Mem<u64>
    requires { HasHighest nodes.now highest.now.entries }
    ensures { IfOk result (λ choice. choice ≡ spec.choice_at overrides.now nodes.now index) }
{
    match nodes.get(index as usize) {
        Some(node) => choice_of(alloc, nodes, overrides, highest, index, node),
        None => Ok(index),
    }
}

/// The choice of a need.
fn chosen(
    alloc: Global,
    nodes: &[GraphNode],
    overrides: &Overrides,
    keys: &IndexMap<(String, String), u64>,
    highest: &IndexMap<(String, u32), u64>,
    need: &Key,
) -> Mem<Option<u64>>
    requires keys { HasKeys nodes.now keys.now.entries }
    requires highest { HasHighest nodes.now highest.now.entries }
    ensures { IfOk result (λ choice. choice ≡ spec.chosen overrides.now nodes.now need.now) }
{
    match index_of_key(alloc, keys, need)? {
        Some(index) => Ok(Some(choice_at(alloc, nodes, overrides, highest, index)?)),
        None => Ok(None),
    }
}

/// The choice of each need of a node.
fn links_of(
    alloc: Global,
    nodes: &[GraphNode],
    overrides: &Overrides,
    keys: &IndexMap<(String, String), u64>,
    highest: &IndexMap<(String, u32), u64>,
    node: &GraphNode,
) -> Mem<Seq<u64>>
    requires keys { HasKeys nodes.now keys.now.entries }
    requires highest { HasHighest nodes.now highest.now.entries }
    ensures { IfOk result (λ links. links ≡ spec.links_of overrides.now nodes.now node.now) }
{
    let mut links = Vec::new(alloc);
    for need in node.needs.items() {
        let choice = chosen(alloc, nodes, overrides, keys, highest, need)?;
        push_some(&mut links, choice)?;
    }
    Ok(Seq::of_vec(links))
}

fn push_some(links: &mut Vec<u64>, more: Option<u64>) -> Mem<()>
    ensures { OnOk result (links.new.items ≡ links.old.items ++ cons_option more []) }
{
    match more {
        Some(index) => Ok(links.push(index)?),
        None => Ok(()),
    }
}

/// The choices of the needs of each node.
pub(crate) fn links(
    alloc: Global,
    nodes: &[GraphNode],
    overrides: &Overrides,
    keys: &IndexMap<(String, String), u64>,
    highest: &IndexMap<(String, u32), u64>,
) -> Mem<Vec<Seq<u64>>>
    requires keys { HasKeys nodes.now keys.now.entries }
    requires highest { HasHighest nodes.now highest.now.entries }
    ensures { IfOk result (λ links. links.items ≡ spec.links overrides.now nodes.now) }
{
    let mut links = Vec::new(alloc);
    for node in nodes {
        links.push(links_of(alloc, nodes, overrides, keys, highest, node)?)?;
    }
    Ok(links)
}
