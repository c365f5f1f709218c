//! The module versions that are discovered, and those that are selected.
ghost use Rattle.std.specs.Prelude.{◌≡◌, ◌++◌, OnOk, string_bytes};
ghost use Rattle.bz_base.specs.Keys.{node_text};

use crate::declarations::ModuleDecl;
use crate::module_key::Key;
use bz_text::{Mem, Seq, Txt};

/// A discovered module version. Its needs are the keys that its dependencies mean, one per
/// dependency in order; `nodeps` are the keys that its other nodep dependencies mean, those of the
/// root left out; an empty `registry` is none.
#[derive(Debug, Drop)]
pub struct GraphNode {
    pub key: Key,
    pub root: bool,
    pub decl: ModuleDecl,
    pub needs: Seq<Key>,
    pub nodeps: Seq<Key>,
    pub registry: Txt,
}

impl GraphNode {
    /// Puts the node's key behind a text, or `<root>` where it is the root.
    pub fn push_text(&self, text: &mut String) -> Mem<()>
        ensures { OnOk result (string_bytes text.new ≡ string_bytes text.old ++ node_text self.now) }
    {
        if self.root {
            Ok(text.push_str("<root>")?)
        } else {
            self.key.push_text(text)
        }
    }
}

/// The discovered module versions, breadth first, the root first.
#[derive(Debug, Drop)]
pub struct Graph {
    pub nodes: Seq<GraphNode>,
}

/// A selected module: its place in the graph, and the places of its dependencies among the selected
/// ones.
#[derive(Debug, Drop)]
pub struct Chosen {
    pub node: u64,
    pub deps: Seq<u64>,
}

/// The selected modules, in module order.
#[derive(Debug, Drop)]
pub struct Selected {
    pub modules: Seq<Chosen>,
}
