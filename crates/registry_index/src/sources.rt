//! The source of a module: the base directory of its registry, and then the module's `source.json`.
ghost use Rattle.std.specs.Prelude.{◌≡◌, IfOk};
ghost use Rattle.bz_text.specs.Answers.{Gives};
ghost use Rattle.bz_base.specs.Paths.{joined};
ghost use Rattle.bz_tree.specs.Failures.{tree_run};
ghost use Rattle.registry_index.specs.AskedFiles.{AsksOver};
ghost use Rattle.registry_index.specs.Sources as spec;
ghost use Rattle.registry_index.specs.Sources.{bad_source_refusal, base_from, base_read, base_said};
ghost use Rattle.registry_index.specs.Sources.{directory_at, kept_or_read, local_at, source_of};
ghost use Rattle.registry_index.specs.Sources.{source_read};
ghost use Rattle.source_files.specs.SourceFiles.{base_in, source_in};

use crate::asked_files::AskedFiles;
use crate::finding::too_large;
use crate::registries::Source;
use crate::registry_text::{base_name, below_modules, directory, url};
use bz_base::{Code, Key, May, Mem, Miss, Refusal, TreePath};
use bz_tree::{Failure, Found, Tree, failure_of};
use source_files::{SourceFile, read_base, read_source};
use std::alloc::Global;

/// The source of a module in a registry.
#[tactic(auto, unfolding(crate::specs::Sources::source_of))]
pub(crate) fn source<T: Tree>(
    alloc: Global,
    tree: &mut T,
    asked: &mut AskedFiles,
    registry: &str,
    key: &Key,
) -> Result<Source, Failure>
    ensures { AsksOver (λ look. source_of look registry.now key.now asked.old.bases)
        (tree_run T.files T.faults T.failed tree.old tree.new)
        asked.old
        asked.new
        result }
{
    let base = match base_directory(alloc, tree, asked, registry, key) {
        Ok(base) => base,
        Err(failure) => return Err(failure),
    };
    source_below(alloc, tree, asked, registry, key, &base)
}

/// The base directory of a registry, which is read once.
fn base_directory<T: Tree>(
    alloc: Global,
    tree: &mut T,
    asked: &mut AskedFiles,
    registry: &str,
    key: &Key,
) -> Result<TreePath, Failure>
    ensures { AsksOver (λ look. kept_or_read look registry.now key.now asked.old.bases)
        (tree_run T.files T.faults T.failed tree.old tree.new)
        asked.old
        asked.new
        result }
{
    match asked.base(registry) {
        Some(base) => Ok(base.copy(alloc)?),
        None => read_directory(alloc, tree, asked, registry, key),
    }
}

#[tactic(auto, unfolding(crate::specs::Sources::base_read))]
fn read_directory<T: Tree>(
    alloc: Global,
    tree: &mut T,
    asked: &mut AskedFiles,
    registry: &str,
    key: &Key,
) -> Result<TreePath, Failure>
    ensures { AsksOver (λ look. base_read look registry.now key.now)
        (tree_run T.files T.faults T.failed tree.old tree.new)
        asked.old
        asked.new
        result }
{
    let found = match asked.ask(alloc, tree, registry, base_name()) {
        Ok(found) => found,
        Err(failure) => return Err(failure),
    };
    let base = match base_of(alloc, registry, key, &found) {
        Ok(base) => base,
        Err(miss) => return Err(failure_of(miss)),
    };
    asked.keep(alloc, registry, &base)?;
    Ok(base)
}

/// The base directory by what stands where `bazel_registry.json` is.
#[tactic(auto, unfolding(crate::specs::Sources::base_said))]
fn base_of(alloc: Global, registry: &str, key: &Key, found: &Found) -> May<TreePath, Refusal>
    ensures { Gives (base_said registry.now key.now found.now) result }
{
    let own = match directory_from(alloc, key, &TreePath::workspace(alloc), directory(registry)) {
        Ok(own) => own,
        Err(miss) => return Err(miss),
    };
    base_found(alloc, registry, key, own, found)
}

fn base_found(
    alloc: Global,
    registry: &str,
    key: &Key,
    own: TreePath,
    found: &Found,
) -> May<TreePath, Refusal>
    ensures { Gives (spec.base_found registry.now key.now own found.now) result }
{
    match found {
        Found::Bytes(bytes) => base_by_file(alloc, key, own, bytes.items()),
        Found::Large => {
            let name = url(alloc, registry, base_name())?;
            Err(Miss::Because(too_large(alloc, &name)?))
        }
        Found::Listing(_) | Found::Absent => Ok(own),
    }
}

fn base_by_file(alloc: Global, key: &Key, own: TreePath, bytes: &[u8]) -> May<TreePath, Refusal>
    ensures { Gives (base_from key.now own (base_in bytes.now)) result }
{
    match read_base(alloc, bytes) {
        Ok(None) => Ok(own),
        Ok(Some(base)) => directory_from(alloc, key, &own, base.as_str()),
        Err(Miss::Because(_)) => Err(Miss::Because(bad_source(alloc, key)?)),
        Err(Miss::OutOfMemory) => Err(Miss::OutOfMemory),
    }
}

/// The directory to which a text leads from another.
fn directory_from(alloc: Global, key: &Key, from: &TreePath, text: &str) -> May<TreePath, Refusal>
    ensures { Gives (directory_at key.now (joined from.now text.now)) result }
{
    match from.join(alloc, text) {
        Ok(path) => Ok(path),
        Err(Miss::Because(_)) => Err(Miss::Because(bad_source(alloc, key)?)),
        Err(Miss::OutOfMemory) => Err(Miss::OutOfMemory),
    }
}

/// The source from a base directory on.
#[tactic(auto, unfolding(crate::specs::Sources::source_read))]
fn source_below<T: Tree>(
    alloc: Global,
    tree: &mut T,
    asked: &mut AskedFiles,
    registry: &str,
    key: &Key,
    base: &TreePath,
) -> Result<Source, Failure>
    ensures { AsksOver (λ look. source_read look registry.now key.now base.now)
        (tree_run T.files T.faults T.failed tree.old tree.new)
        asked.old
        asked.new
        result }
{
    let below = below_modules(alloc, key, "source.json")?;
    let found = match asked.ask(alloc, tree, registry, below.as_str()) {
        Ok(found) => found,
        Err(failure) => return Err(failure),
    };
    match source_found(alloc, registry, key, base, &found) {
        Ok(source) => Ok(source),
        Err(miss) => Err(failure_of(miss)),
    }
}

fn source_found(
    alloc: Global,
    registry: &str,
    key: &Key,
    base: &TreePath,
    found: &Found,
) -> May<Source, Refusal>
    ensures { Gives (spec.source_found registry.now key.now base.now found.now) result }
{
    match found {
        Found::Bytes(bytes) => source_by_file(alloc, key, base, bytes.items()),
        Found::Large => {
            let below = below_modules(alloc, key, "source.json")?;
            let name = url(alloc, registry, below.as_str())?;
            Err(Miss::Because(too_large(alloc, &name)?))
        }
        Found::Listing(_) | Found::Absent => Err(Miss::Because(bad_source(alloc, key)?)),
    }
}

fn source_by_file(alloc: Global, key: &Key, base: &TreePath, bytes: &[u8]) -> May<Source, Refusal>
    ensures { Gives (spec.source_from key.now base.now (source_in bytes.now)) result }
{
    match read_source(alloc, bytes) {
        Ok(SourceFile::Remote) => Ok(Source::Remote),
        Ok(SourceFile::Local(path)) => local(alloc, key, base, path.as_str()),
        Err(Miss::Because(_)) => Err(Miss::Because(bad_source(alloc, key)?)),
        Err(Miss::OutOfMemory) => Err(Miss::OutOfMemory),
    }
}

fn local(alloc: Global, key: &Key, base: &TreePath, path: &str) -> May<Source, Refusal>
    ensures { Gives (local_at key.now base.now path.now) result }
{
    match directory_from(alloc, key, base, path) {
        Ok(path) => Ok(Source::Dir(path)),
        Err(miss) => Err(miss),
    }
}

fn bad_source(alloc: Global, key: &Key) -> Mem<Refusal>
    ensures { IfOk result (λ refusal. refusal ≡ bad_source_refusal key.now) }
{
    let mut refusal = Refusal::of(alloc, Code::BadSource);
    refusal.detail = key.text(alloc)?;
    Ok(refusal)
}
