//! Graphs from lines of modules, and what is selected of them as a text.
ghost use Rattle.std.specs.Prelude.{◌≡◌, IfOk};

use bz_base::{
    Graph, GraphNode, Key, Miss, ModuleDecl, Override, OverrideKind, Selected, Seq, Txt,
};
use overrides::Overrides;
use std::alloc::Global;
use std::test::Fail;
use version_selection::{find_module, select};

/// A key from its text; the root's is empty.
fn key(alloc: Global, text: &str) -> Result<Key, Fail> {
    let (name, version) = match text.split_once('@') {
        Some((name, version)) => (name, version),
        None => ("", ""),
    };
    Ok(Key {
        name: Txt::of(alloc, name)?,
        version: Txt::of(alloc, version)?,
    })
}

/// The keys of a text, with a space between two; the root's has no `@`.
fn keys(alloc: Global, text: &str) -> Result<Seq<Key>, Fail> {
    let mut keys = Vec::new(alloc);
    for word in text.split(' ') {
        if word != "" {
            keys.push(key(alloc, word)?)?;
        }
    }
    Ok(Seq::of_vec(keys))
}

fn declaration(alloc: Global, level: u32, overrides: Seq<Override>) -> Result<ModuleDecl, Fail>
    ensures { IfOk result (λ decl. decl.overrides ≡ overrides) }
{
    Ok(ModuleDecl {
        name: Txt::of(alloc, "app")?,
        version: Txt::of(alloc, "")?,
        level,
        repo_name: Txt::of(alloc, "app")?,
        deps: Seq::new(alloc),
        nodeps: Seq::new(alloc),
        parts: Seq::new(alloc),
        overrides,
    })
}

/// A module at a level with what it needs; the module without a name is the root.
fn node(alloc: Global, text: &str, level: u32, needs: &str) -> Result<GraphNode, Fail> {
    Ok(GraphNode {
        key: key(alloc, text)?,
        root: text.is_empty(),
        decl: declaration(alloc, level, Seq::new(alloc))?,
        needs: keys(alloc, needs)?,
        nodeps: Seq::new(alloc),
        registry: Txt::of(alloc, "")?,
    })
}

/// A graph of a root and further modules.
pub(crate) fn graph(alloc: Global, lines: &[(&str, u32, &str)]) -> Result<Graph, Fail> {
    let mut nodes = Vec::new(alloc);
    for (text, level, needs) in lines {
        nodes.push(node(alloc, text, *level, needs)?)?;
    }
    Ok(Graph {
        nodes: Seq::of_vec(nodes),
    })
}

/// The words of a text, with a space between two.
fn words(alloc: Global, text: &str) -> Result<Seq<Txt>, Fail> {
    let mut words = Vec::new(alloc);
    for word in text.split(' ') {
        words.push(Txt::of(alloc, word)?)?;
    }
    Ok(Seq::of_vec(words))
}

fn several(alloc: Global, versions: &str) -> Result<Override, Fail> {
    Ok(Override {
        name: Txt::of(alloc, "d")?,
        kind: OverrideKind::Multiple {
            versions: words(alloc, versions)?,
            registry: Txt::of(alloc, "")?,
        },
        line: 2,
    })
}

/// The overrides of a root that lists several versions of `d`, or none.
fn overrides(alloc: Global, versions: &str) -> Result<Overrides, Fail> {
    if versions.is_empty() {
        let root = declaration(alloc, 0, Seq::new(alloc))?;
        return Ok(Overrides::of(alloc, &root)?);
    }
    let mut overrides = Vec::new(alloc);
    overrides.push(several(alloc, versions)?)?;
    let root = declaration(alloc, 0, Seq::of_vec(overrides))?;
    Ok(Overrides::of(alloc, &root)?)
}

fn push_node(text: &mut String, graph: &Graph, index: u64) -> Result<(), Fail> {
    match graph.nodes.items().get(index as usize) {
        Some(node) => Ok(node.push_text(text)?),
        None => Ok(text.push_str("?")?),
    }
}

fn push_dep(text: &mut String, graph: &Graph, selected: &Selected, place: u64) -> Result<(), Fail> {
    text.push_str(" ")?;
    match selected.modules.items().get(place as usize) {
        Some(chosen) => push_node(text, graph, chosen.node),
        None => Ok(text.push_str("?")?),
    }
}

fn push_deps(
    text: &mut String,
    graph: &Graph,
    selected: &Selected,
    deps: &[u64],
) -> Result<(), Fail> {
    for place in deps {
        push_dep(text, graph, selected, *place)?;
    }
    Ok(text.push_str("; ")?)
}

/// Each selected module with its dependencies.
fn selected_text(alloc: Global, graph: &Graph, selected: &Selected) -> Result<String, Fail> {
    let mut text = String::new(alloc);
    for chosen in selected.modules.items() {
        push_node(&mut text, graph, chosen.node)?;
        push_deps(&mut text, graph, selected, chosen.deps.items())?;
    }
    Ok(text)
}

/// What is selected of a graph, or why it is refused.
pub(crate) fn answer(
    alloc: Global,
    versions: &str,
    lines: &[(&str, u32, &str)],
) -> Result<String, Fail> {
    let graph = graph(alloc, lines)?;
    let overrides = overrides(alloc, versions)?;
    answer_of(alloc, &graph, &overrides)
}

fn answer_of(alloc: Global, graph: &Graph, overrides: &Overrides) -> Result<String, Fail> {
    match select(alloc, graph, overrides) {
        Ok(selected) => selected_text(alloc, graph, &selected),
        Err(Miss::OutOfMemory) => Ok(String::from_str(alloc, "out of memory")?),
        Err(Miss::Because(refusal)) => {
            Ok(format!(in alloc; "{} {}", refusal.code.name(), refusal.detail.as_str())?)
        }
    }
}

/// Where a key's module stands among those that are selected.
pub(crate) fn place_of(
    alloc: Global,
    lines: &[(&str, u32, &str)],
    text: &str,
) -> Result<Option<u64>, Fail> {
    let graph = graph(alloc, lines)?;
    let overrides = overrides(alloc, "")?;
    let wanted = key(alloc, text)?;
    place_in(alloc, &graph, &overrides, &wanted)
}

fn place_in(
    alloc: Global,
    graph: &Graph,
    overrides: &Overrides,
    wanted: &Key,
) -> Result<Option<u64>, Fail> {
    match select(alloc, graph, overrides) {
        Ok(selected) => Ok(find_module(&selected, graph, wanted)),
        Err(Miss::OutOfMemory) => Ok(None),
        Err(Miss::Because(_)) => Ok(None),
    }
}
