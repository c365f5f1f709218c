//! Discovery: from the root on each module that is asked for is read, breadth first, and its
//! dependencies ask for further ones. What comes in is the root's declaration and the tree; what
//! goes out is the graph of all that is asked for. Kept are the requests that are known and the
//! nodes
//! to which the first of them led; the next request is that behind the last node.
ghost use Rattle.std.specs.Prelude.{◌≡◌, ◌≤◌, ◌<◌, ◌-◌, [], ◌∷◌, IfOk, Ok, false, true, length};
ghost use Rattle.std.specs.Prelude.{map};
ghost use Rattle.bz_text.specs.Answers.{Gives};
ghost use Rattle.discovery.specs.Discovery.{request_of, requests_of, declared_as, declares};
ghost use Rattle.discovery.specs.Discovery.{discovered};
ghost use Rattle.discovery.specs.Discovery.{discovery, discovery_rules, effective, file_text};
ghost use Rattle.discovery.specs.Discovery.{found_for, graph_walked, means_root, most_keys};
ghost use Rattle.discovery.specs.Discovery.{no_module_refusal, node_of, node_with, registry_decl};
ghost use Rattle.discovery.specs.Discovery.{registry_text, root_alone, root_request, root_key};
ghost use Rattle.module_file.specs.ModuleFiles.{declared_in};
ghost use Rattle.bz_tree.specs.Failures.{ReadsOver, tree_run};
ghost use Rattle.bz_walks.specs.Walks.{levels, with_requests, with_node};

use crate::reading::read_by;
use crate::requests::Request;
use crate::worklist::Worklist;
use bz_base::{Code, Dep, Graph, GraphNode, Key, May, Mem, Miss, ModuleDecl, Refusal, Seq, Txt};
use bz_tree::{Failure, Found, Tree, failure_of};
use module_file::declaring::{form, read_module};
use std::alloc::Global;

/// The module versions that the root needs, directly or through others, over the files of the
/// default registry.
#[tactic(auto, unfolding(crate::specs::Discovery::discovered))]
pub fn discover<T: Tree>(alloc: Global, root: ModuleDecl, tree: &mut T) -> Result<Graph, Failure>
    ensures { ReadsOver (λ look. discovered look root)
        (tree_run T.files T.faults T.failed tree.old tree.new) result }
{
    let key = key_of_root(alloc, &root)?;
    let node = node_of_root(alloc, &key, root)?;
    walk_from(alloc, tree, &key, node)
}

fn key_of_root(alloc: Global, root: &ModuleDecl) -> Mem<Key>
    ensures { IfOk result (λ key. key ≡ root_key root.now) }
{
    Ok(Key {
        name: root.name.copy(alloc)?,
        version: root.version.copy(alloc)?,
    })
}

fn node_of_root(alloc: Global, key: &Key, root: ModuleDecl) -> Mem<GraphNode>
    ensures { IfOk result (λ node. node ≡ node_with key.now key.now true [] root) }
{
    let own_key = key.copy(alloc)?;
    let registry = Txt::of_string(String::new(alloc));
    node(alloc, key, own_key, true, registry, root)
}

/// All levels behind that of the root.
fn walk_from<T: Tree>(
    alloc: Global,
    tree: &mut T,
    root: &Key,
    node: GraphNode,
) -> Result<Graph, Failure>
    ensures { ReadsOver (λ look. graph_walked (levels (discovery look root.now) most_keys (with_node (discovery look root.now) (root_alone root.now) (Ok node))))
        (tree_run T.files T.faults T.failed tree.old tree.new) result }
{
    let known = match first_requests(alloc, root, &node) {
        Ok(known) => known,
        Err(miss) => return Err(failure_of(miss)),
    };
    let mut nodes = Seq::new(alloc);
    match nodes.push(node) {
        Ok(()) => walk(alloc, tree, root, known, nodes),
        Err(_) => Err(Failure::OutOfMemory),
    }
}

/// The root and what it asks for.
fn first_requests(alloc: Global, root: &Key, node: &GraphNode) -> May<Worklist, Refusal>
    ensures requests { Gives (with_requests discovery_rules (Ok (root_request root.now ∷ [])) (requests_of root.now node.now))
        result }
    ensures root_known { IfOk result (λ known. 1 ≤ length known) }
    ensures room { IfOk result (λ known. length known ≤ most_keys) }
{
    let request = request_for_root(alloc, root)?;
    let known = Worklist::of(alloc, request)?;
    with_each(alloc, root, known, node)
}

/// Reads request after request until all that are known are read.
fn walk<T: Tree>(
    alloc: Global,
    tree: &mut T,
    root: &Key,
    known: Worklist,
    nodes: Seq<GraphNode>,
) -> Result<Graph, Failure>
    requires read { length nodes ≤ length known }
    requires room { length known ≤ most_keys }
    ensures { ReadsOver (λ look. graph_walked (levels (discovery look root.now) most_keys (Ok (record { known = known; nodes = nodes }))))
        (tree_run T.files T.faults T.failed tree.old tree.new) result }
{
    let mut known = known;
    let mut nodes = nodes;
    'requests: while let Some(request) = known.at(nodes.items().len()) {
        let node = match visit(alloc, tree, root, request) {
            Ok(node) => node,
            Err(failure) => return Err(failure),
        };
        known = match with_each(alloc, root, known, &node) {
            Ok(known) => known,
            Err(miss) => return Err(failure_of(miss)),
        };
        match nodes.push(node) {
            Ok(()) => {}
            Err(_) => return Err(Failure::OutOfMemory),
        }
    }
    Ok(Graph { nodes })
}

/// The module for which a request asks.
fn visit<T: Tree>(
    alloc: Global,
    tree: &mut T,
    root: &Key,
    request: &Request,
) -> Result<GraphNode, Failure>
    ensures { ReadsOver (λ look. node_of root.now request.now (found_for look request.now.key))
        (tree_run T.files T.faults T.failed tree.old tree.new) result }
{
    let found = read_file(alloc, tree, &request.key)?;
    Ok(read_node(alloc, root, request, &found)?)
}

/// What stands where the default registry has a module's file.
#[tactic(auto, unfolding(crate::specs::Discovery::found_for))]
fn read_file<T: Tree>(alloc: Global, tree: &mut T, key: &Key) -> Result<Found, Failure>
    ensures { ReadsOver (λ look. Ok (found_for look key.now))
        (tree_run T.files T.faults T.failed tree.old tree.new) result }
{
    let text = registry_file(alloc, key)?;
    read_by(alloc, tree, text.as_str())
}

/// Where the default registry has a module's file.
fn registry_file(alloc: Global, key: &Key) -> Mem<Txt>
    ensures { IfOk result (λ text. text ≡ registry_text key.now) }
{
    let mut text = String::from_str(alloc, "registry/modules/")?;
    text.push_str(key.name.as_str())?;
    text.push_str("/")?;
    text.push_str(key.version.as_str())?;
    text.push_str("/MODULE.bazel")?;
    Ok(Txt::of_string(text))
}

fn read_node(alloc: Global, root: &Key, request: &Request, found: &Found) -> May<GraphNode, Refusal>
    ensures { Gives (node_of root.now request.now found.now) result }
{
    let decl = match read_decl(alloc, request, found) {
        Ok(decl) => decl,
        Err(miss) => return Err(miss),
    };
    let key = request.key.copy(alloc)?;
    let registry = Txt::of(alloc, "file://%workspace%/registry")?;
    Ok(node(alloc, root, key, false, registry, decl)?)
}

/// What a registry's file declares for a request.
fn read_decl(alloc: Global, request: &Request, found: &Found) -> May<ModuleDecl, Refusal>
    ensures { Gives (registry_decl request.now found.now) result }
{
    match found {
        Found::Bytes(bytes) => read_declared(alloc, &request.key, bytes.items()),
        Found::Large => Err(Miss::Because(form(alloc))),
        Found::Listing(_) | Found::Absent => Err(Miss::Because(no_module(alloc, request)?)),
    }
}

fn read_declared(alloc: Global, key: &Key, bytes: &[u8]) -> May<ModuleDecl, Refusal>
    ensures { Gives (declared_as key.now (declared_in bytes.now)) result }
{
    let decl = match read_module(alloc, bytes) {
        Ok(decl) => decl,
        Err(miss) => return Err(miss),
    };
    if !declares_key(key, &decl) {
        return Err(Miss::Because(form(alloc)));
    }
    Ok(decl)
}

fn declares_key(key: &Key, decl: &ModuleDecl) -> bool
    ensures { result ≡ declares key.now decl.now }
{
    decl.name.as_str() == key.name.as_str() && decl.version.as_str() == key.version.as_str()
}

/// A module with what its dependencies mean.
fn node(
    alloc: Global,
    root_key: &Key,
    key: Key,
    root: bool,
    registry: Txt,
    decl: ModuleDecl,
) -> Mem<GraphNode>
    ensures { IfOk result (λ node. node ≡ node_with root_key.now key root registry decl) }
{
    let needs = needs(alloc, root_key, decl.deps.items())?;
    Ok(GraphNode {
        key,
        root,
        decl,
        needs,
        nodeps: Seq::new(alloc),
        registry,
    })
}

fn needs(alloc: Global, root: &Key, deps: &[Dep]) -> Mem<Seq<Key>>
    ensures { IfOk result (λ keys. keys ≡ map (effective root.now) deps.now) }
{
    let mut keys = Vec::new(alloc);
    for dep in deps {
        keys.push(effective_key(alloc, root, dep)?)?;
    }
    Ok(Seq::of_vec(keys))
}

/// The key that a dependency means.
fn effective_key(alloc: Global, root: &Key, dep: &Dep) -> Mem<Key>
    ensures { IfOk result (λ key. key ≡ effective root.now dep.now) }
{
    if is_on_root(root, dep) {
        return root.copy(alloc);
    }
    Ok(Key {
        name: dep.name.copy(alloc)?,
        version: dep.version.copy(alloc)?,
    })
}

fn is_on_root(root: &Key, dep: &Dep) -> bool
    ensures { result ≡ means_root root.now dep.now }
{
    !root.name.as_str().is_empty() && dep.name.as_str() == root.name.as_str()
}

/// The requests that are known and what a module asks for.
fn with_each(alloc: Global, root: &Key, known: Worklist, node: &GraphNode) -> May<Worklist, Refusal>
    ensures { Gives (with_requests discovery_rules (Ok known) (requests_of root.now node.now)) result }
{
    let file = file_name(alloc, node)?;
    let mut known = known;
    for dep in node.decl.deps.items() {
        known = match known.with(alloc, request(alloc, root, file.as_str(), dep)?) {
            Ok(known) => known,
            Err(miss) => return Err(miss),
        };
    }
    Ok(known)
}

fn request(alloc: Global, root: &Key, file: &str, dep: &Dep) -> Mem<Request>
    ensures { IfOk result (λ request. request ≡ request_of root.now file.now dep.now) }
{
    Ok(Request {
        key: effective_key(alloc, root, dep)?,
        file: Txt::of(alloc, file)?,
        line: dep.line,
    })
}

/// Level 0.
fn request_for_root(alloc: Global, root: &Key) -> Mem<Request>
    ensures { IfOk result (λ request. request ≡ root_request root.now) }
{
    Ok(Request {
        key: root.copy(alloc)?,
        file: Txt::of_string(String::new(alloc)),
        line: 0,
    })
}

/// The printed name of a module's file.
fn file_name(alloc: Global, node: &GraphNode) -> Mem<Txt>
    ensures { IfOk result (λ text. text ≡ file_text node.now) }
{
    let mut text = String::new(alloc);
    node.push_text(&mut text)?;
    text.push_str("/MODULE.bazel")?;
    Ok(Txt::of_string(text))
}

fn no_module(alloc: Global, request: &Request) -> Mem<Refusal>
    ensures { IfOk result (λ refusal. refusal ≡ no_module_refusal request.now) }
{
    let mut refusal = Refusal::of(alloc, Code::NoModule);
    refusal.file = request.file.copy(alloc)?;
    refusal.line = request.line;
    refusal.detail = request.key.text(alloc)?;
    Ok(refusal)
}
