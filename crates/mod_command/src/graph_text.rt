//! The text of a graph.
ghost use Rattle.std.specs.Prelude.{◌≡◌, ◌++◌, flat_map, IfOk, OnOk, string_bytes, zip};
ghost use Rattle.std.specs.Option.{option_copied};
ghost use Rattle.mod_command.specs.GraphTexts.{dep_line, dep_line_of, graph_lines, module_lines};
ghost use Rattle.mod_command.specs.GraphTexts.{module_lines_of, node_at};

use bz_base::{Chosen, Dep, Graph, GraphNode, Mem, Selected, Txt};
use std::alloc::Global;

/// The lines of the selected modules, in module order.
pub(crate) fn write_graph(alloc: Global, graph: &Graph, selected: &Selected) -> Mem<Txt>
    ensures { IfOk result (λ text. text ≡ graph_lines graph.now selected.now) }
{
    let nodes = graph.nodes.items();
    let modules = selected.modules.items();
    let mut text = String::new(alloc);
    for chosen in modules {
        push_module(&mut text, nodes, modules, chosen)?;
    }
    Ok(Txt::of_string(text))
}

fn push_module(
    text: &mut String,
    nodes: &[GraphNode],
    modules: &[Chosen],
    chosen: &Chosen,
) -> Mem<()>
    ensures { OnOk result (string_bytes text.new ≡ string_bytes text.old ++ module_lines nodes.now
        modules.now chosen.now) }
{
    match nodes.get(chosen.node as usize) {
        Some(node) => push_node_lines(text, nodes, modules, chosen, node),
        None => Ok(()),
    }
}

fn push_node_lines(
    text: &mut String,
    nodes: &[GraphNode],
    modules: &[Chosen],
    chosen: &Chosen,
    node: &GraphNode,
) -> Mem<()>
    ensures { OnOk result (string_bytes text.new ≡ string_bytes text.old ++ module_lines_of nodes.now
        modules.now chosen.now node.now) }
{
    node.push_text(text)?;
    text.push_str("\n")?;
    push_deps(
        text,
        nodes,
        modules,
        node.decl.deps.items(),
        chosen.deps.items(),
    )
}

fn push_deps(
    text: &mut String,
    nodes: &[GraphNode],
    modules: &[Chosen],
    deps: &[Dep],
    indexes: &[u64],
) -> Mem<()>
    ensures { OnOk result (string_bytes text.new ≡ string_bytes text.old ++ flat_map (dep_line_of
        nodes.now modules.now) (zip deps.now indexes.now)) }
{
    for (dep, index) in deps.iter().zip(indexes) {
        push_dep(text, nodes, modules, dep, *index)?;
    }
    Ok(())
}

fn push_dep(
    text: &mut String,
    nodes: &[GraphNode],
    modules: &[Chosen],
    dep: &Dep,
    index: u64,
) -> Mem<()>
    ensures { OnOk result (string_bytes text.new ≡ string_bytes text.old ++ dep_line_of nodes.now
        modules.now (dep.now, index)) }
{
    match node_at(nodes, modules, index) {
        Some(needed) => push_dep_line(text, dep.apparent.as_str(), needed),
        None => Ok(()),
    }
}

fn push_dep_line(text: &mut String, apparent: &str, needed: &GraphNode) -> Mem<()>
    ensures { OnOk result (string_bytes text.new ≡ string_bytes text.old ++ dep_line apparent.now
        needed.now) }
{
    text.push_str("  ")?;
    text.push_str(apparent)?;
    text.push_str(" -> ")?;
    needed.push_text(text)?;
    Ok(text.push_str("\n")?)
}

/// The node of the selected module at a index in module order.
fn node_at<'a>(nodes: &'a [GraphNode], modules: &[Chosen], index: u64) -> Option<&'a GraphNode>
    ensures { option_copied result ≡ node_at nodes.now modules.now index }
{
    let chosen = modules.get(index as usize)?;
    nodes.get(chosen.node as usize)
}
