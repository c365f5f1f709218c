//! What selection refuses.
ghost use Rattle.std.specs.Prelude.{◌≡◌, ◌++◌, [], IfOk, List, None, OnOk, slice_get};
ghost use Rattle.std.specs.List.{cons_option};
ghost use Rattle.std.specs.Option.{option_copied, option_map_or};
ghost use Rattle.bz_base.specs.declared.module_graph.GraphNode.{GraphNode as AnyNode};
ghost use Rattle.overrides.specs.Overrides.{names_of};
ghost use Rattle.version_selection.specs.Refusals as spec;
ghost use Rattle.version_selection.specs.Tables.{HasFirsts, HasKeys, IsNoted, node_of_name};
ghost use Rattle.version_selection.specs.Tables as table_spec;
ghost use Rattle.version_selection.specs.Choices.{listed_for};

use crate::choosing::{is_listed, listed};
use crate::tables::index_of_key;
use bz_base::{Code, GraphNode, Key, Mem, Refusal, Txt};
use indexmap::IndexMap;
use overrides::Overrides;
use std::alloc::Global;

/// The first listed version that has no node.
pub(crate) fn first_absent(
    alloc: Global,
    nodes: &[GraphNode],
    overrides: &Overrides,
    keys: &IndexMap<(String, String), u64>,
) -> Mem<Option<Refusal>>
    requires { HasKeys nodes.now keys.now.entries }
    ensures { IfOk result (λ refusal. refusal
        ≡ spec.first_absent overrides.now nodes.now (names_of overrides.now)) }
{
    for index in 0..overrides.len() {
        if let Some(refusal) = absent_at(alloc, nodes, overrides, keys, index)? {
            return Ok(Some(refusal));
        }
    }
    Ok(None)
}

fn absent_at(
    alloc: Global,
    nodes: &[GraphNode],
    overrides: &Overrides,
    keys: &IndexMap<(String, String), u64>,
    index: usize,
) -> Mem<Option<Refusal>>
    requires { HasKeys nodes.now keys.now.entries }
    ensures { IfOk result (λ refusal. refusal
        ≡ option_map_or (λ name. spec.missing_of nodes.now name (listed_for overrides.now name))
        (slice_get (names_of overrides.now) index) None) }
{
    match overrides.name_at(index) {
        Some(name) => missing_of(alloc, nodes, overrides, keys, name),
        None => Ok(None),
    }
}

fn missing_of(
    alloc: Global,
    nodes: &[GraphNode],
    overrides: &Overrides,
    keys: &IndexMap<(String, String), u64>,
    name: &str,
) -> Mem<Option<Refusal>>
    requires { HasKeys nodes.now keys.now.entries }
    ensures { IfOk result (λ refusal. refusal
        ≡ spec.missing_of nodes.now name.now (listed_for overrides.now name.now)) }
{
    match listed(overrides, name) {
        Some(versions) => first_missing(alloc, nodes, keys, name, versions.items()),
        None => Ok(None),
    }
}

fn first_missing(
    alloc: Global,
    nodes: &[GraphNode],
    keys: &IndexMap<(String, String), u64>,
    name: &str,
    versions: &[Txt],
) -> Mem<Option<Refusal>>
    requires { HasKeys nodes.now keys.now.entries }
    ensures { IfOk result (λ refusal. refusal
        ≡ spec.first_missing nodes.now name.now versions.now) }
{
    for version in versions {
        let key = key_of(alloc, name, version)?;
        if !is_discovered(alloc, nodes, keys, &key)? {
            return Ok(Some(not_in_graph(alloc, &key)?));
        }
    }
    Ok(None)
}

fn is_discovered(
    alloc: Global,
    nodes: &[GraphNode],
    keys: &IndexMap<(String, String), u64>,
    key: &Key,
) -> Mem<bool>
    requires { HasKeys nodes.now keys.now.entries }
    ensures { IfOk result (λ there. there ≡ spec.is_discovered nodes.now key.now) }
{
    Ok(index_of_key(alloc, keys, key)?.is_some())
}

fn key_of(alloc: Global, name: &str, version: &Txt) -> Mem<Key>
    ensures { IfOk result (λ key. key ≡ record { name = name.now; version = version.now }) }
{
    Ok(Key {
        name: Txt::of(alloc, name)?,
        version: version.copy(alloc)?,
    })
}

fn not_in_graph(alloc: Global, key: &Key) -> Mem<Refusal>
    ensures { IfOk result (λ refusal. refusal ≡ spec.not_in_graph_refusal key.now) }
{
    let mut refusal = Refusal::of(alloc, Code::NotInGraph);
    refusal.detail = key.text(alloc)?;
    Ok(refusal)
}

fn above_allowed(alloc: Global, key: &Key) -> Mem<Refusal>
    ensures { IfOk result (λ refusal. refusal ≡ spec.above_allowed_refusal key.now) }
{
    let mut refusal = Refusal::of(alloc, Code::AboveAllowed);
    refusal.detail = key.text(alloc)?;
    Ok(refusal)
}

fn levels(alloc: Global, earlier: &Key, key: &Key) -> Mem<Refusal>
    ensures { IfOk result (λ refusal. refusal ≡ spec.levels_refusal earlier.now key.now) }
{
    let mut text = String::new(alloc);
    earlier.push_text(&mut text)?;
    text.push_str(" ")?;
    key.push_text(&mut text)?;
    let mut refusal = Refusal::of(alloc, Code::Levels);
    refusal.detail = Txt::of_string(text);
    Ok(refusal)
}

/// The first refusal of the nodes at some indexes, in order.
pub(crate) fn first_refusal(
    alloc: Global,
    nodes: &[GraphNode],
    overrides: &Overrides,
    indexes: &[u64],
) -> Mem<Option<Refusal>>
    ensures { IfOk result (λ refusal. refusal
        ≡ spec.first_refusal overrides.now nodes.now [] indexes.now) }
{
    let mut firsts = IndexMap::new(alloc);
    for index in indexes {
        if let Some(refusal) = refusal_at(alloc, nodes, overrides, &firsts, *index)? {
            return Ok(Some(refusal));
        }
        note_first(alloc, nodes, &mut firsts, *index)?;
    }
    Ok(None)
}

fn refusal_at(
    alloc: Global,
    nodes: &[GraphNode],
    overrides: &Overrides,
    firsts: &IndexMap<String, u64>,
    index: u64,
) -> Mem<Option<Refusal>>
    ensures { IfOk result (λ refusal. refusal
        ≡ option_map_or (λ node. spec.refusal_beside overrides.now
        (node_of_name nodes.now firsts.now.entries node.key.name) node) (slice_get nodes.now index)
        None) }
{
    match nodes.get(index as usize) {
        Some(node) => refusal_beside(alloc, nodes, overrides, firsts, node),
        None => Ok(None),
    }
}

fn refusal_beside(
    alloc: Global,
    nodes: &[GraphNode],
    overrides: &Overrides,
    firsts: &IndexMap<String, u64>,
    node: &GraphNode,
) -> Mem<Option<Refusal>>
    ensures { IfOk result (λ refusal. refusal
        ≡ spec.refusal_beside overrides.now
        (node_of_name nodes.now firsts.now.entries node.now.key.name) node.now) }
{
    if node.root {
        return Ok(None);
    }
    refusal_under(
        alloc,
        overrides,
        first_of_name(nodes, firsts, node.key.name.as_str()),
        node,
    )
}

#[tactic(auto, unfolding(crate::specs::Refusals::refusal_under))]
fn refusal_under(
    alloc: Global,
    overrides: &Overrides,
    other: Option<&GraphNode>,
    node: &GraphNode,
) -> Mem<Option<Refusal>>
    ensures { IfOk result (λ refusal. refusal
        ≡ spec.refusal_under (listed_for overrides.now node.now.key.name)
        (option_copied other.entry) node.now) }
{
    match listed(overrides, node.key.name.as_str()) {
        Some(versions) => unlisted(alloc, versions.items(), node),
        None => level_refusal(alloc, other, node),
    }
}

fn unlisted(alloc: Global, versions: &[Txt], node: &GraphNode) -> Mem<Option<Refusal>>
    ensures { IfOk result (λ refusal. refusal ≡ spec.unlisted_refusal versions.now node.now) }
{
    if is_listed(versions, node) {
        return Ok(None);
    }
    Ok(Some(above_allowed(alloc, &node.key)?))
}

fn level_refusal(alloc: Global, other: Option<&GraphNode>, node: &GraphNode) -> Mem<Option<Refusal>>
    ensures { IfOk result (λ refusal. refusal
        ≡ spec.level_refusal (option_copied other.entry) node.now) }
{
    match other {
        Some(other) => level_beside(alloc, other, node),
        None => Ok(None),
    }
}

fn level_beside(alloc: Global, other: &GraphNode, node: &GraphNode) -> Mem<Option<Refusal>>
    ensures { IfOk result (λ refusal. refusal ≡ spec.level_beside other.now node.now) }
{
    if other.decl.level == node.decl.level {
        return Ok(None);
    }
    Ok(Some(levels(alloc, &other.key, &node.key)?))
}

fn first_of_name<'a>(
    nodes: &'a [GraphNode],
    firsts: &IndexMap<String, u64>,
    name: &str,
) -> Option<&'a GraphNode>
    ensures { option_copied result ≡ node_of_name nodes.now firsts.now.entries name.now }
{
    let index = firsts.get(name)?;
    nodes.get(*index as usize)
}

fn index_of_name(firsts: &IndexMap<String, u64>, name: &str) -> Option<u64>
    ensures { result ≡ table_spec.index_of_name firsts.now.entries name.now }
{
    firsts.get(name).copied()
}

/// Lists the node at an index under its name, unless one stands there.
fn note_first(
    alloc: Global,
    nodes: &[GraphNode],
    firsts: &mut IndexMap<String, u64>,
    index: u64,
) -> Mem<()>
    ensures { OnOk result ((earlier : List AnyNode)
        → HasFirsts nodes.now earlier firsts.old.entries
        → HasFirsts nodes.now (earlier ++ cons_option (slice_get nodes.now index) [])
        firsts.new.entries) }
{
    match node_at(nodes, index) {
        Some(node) => {
            note_node(alloc, firsts, node, index)?;
            Ok(())
        }
        None => Ok(()),
    }
}

fn node_at(nodes: &[GraphNode], index: u64) -> Option<&GraphNode>
    ensures { option_copied result ≡ slice_get nodes.now index }
{
    nodes.get(index as usize)
}

fn note_node(
    alloc: Global,
    firsts: &mut IndexMap<String, u64>,
    node: &GraphNode,
    index: u64,
) -> Mem<()>
    ensures { OnOk result (IsNoted firsts.old.entries firsts.new.entries node.now.key.name index) }
{
    if index_of_name(firsts, node.key.name.as_str()).is_some() {
        return Ok(());
    }
    firsts.insert(node.key.name.copy(alloc)?.into_string(), index)?;
    Ok(())
}
