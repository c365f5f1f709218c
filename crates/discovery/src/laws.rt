//! Laws of the definitions, each over all that they speak of.
ghost use Rattle.std.specs.Prelude.{◌≡◌, Ok};
ghost use Rattle.bz_base.specs.declared.declarations.ModuleDecl.{ModuleDecl};
ghost use Rattle.bz_base.specs.declared.module_graph.Graph.{Graph};
ghost use Rattle.discovery.specs.Discovery.{discovered};
ghost use Rattle.discovery.specs.DiscoveryLaws.{IsDiscovery};
ghost use Rattle.bz_tree.specs.Places.{Files};

/// What is discovered is a whole graph of what the root and the registry declare, and its keys are
/// the least set with the root and all needs of its members.
pub fn discovered_is_least()
    ensures { (look : Files) (decl : ModuleDecl) (graph : Graph)
        → discovered look decl ≡ Ok graph
        → IsDiscovery look decl graph }
{}
