//! The file of a module: registry after registry is asked, up to the first that has it.
ghost use Rattle.bz_text.specs.Answers.{Gives};
ghost use Rattle.std.specs.Prelude.{◌≡◌, IfOk};
ghost use Rattle.bz_tree.specs.Failures.{tree_run};
ghost use Rattle.registry_index.specs.AskedFiles.{AsksOver};
ghost use Rattle.registry_index.specs.Finding as spec;
ghost use Rattle.registry_index.specs.Finding.{no_module_refusal, too_large_refusal};

use crate::asked_files::AskedFiles;
use crate::registries::RegistryFile;
use crate::registry_text::{below_modules, printed_file};
use bz_base::{Code, Key, May, Mem, Miss, Refusal, Txt};
use bz_tree::{Failure, Found, Tree, failure_of};
use std::alloc::Global;

/// The file of the first registry that has one.
pub(crate) fn first_file<T: Tree>(
    alloc: Global,
    tree: &mut T,
    asked: &mut AskedFiles,
    key: &Key,
    registries: &[Txt],
) -> Result<RegistryFile, Failure>
    ensures { AsksOver (λ look. spec.first_file look key.now registries.now)
        (tree_run T.files T.faults T.failed tree.old tree.new)
        asked.old
        asked.new
        result }
{
    'asking: for registry in registries {
        match file_in(alloc, tree, asked, registry.as_str(), key) {
            Ok(Some(file)) => return Ok(file),
            Ok(None) => {}
            Err(failure) => return Err(failure),
        }
    }
    Err(Failure::Refused(no_module(alloc, key)?))
}

/// The file of one registry, where it has one.
#[tactic(auto, unfolding(crate::specs::Finding::file_in))]
fn file_in<T: Tree>(
    alloc: Global,
    tree: &mut T,
    asked: &mut AskedFiles,
    registry: &str,
    key: &Key,
) -> Result<Option<RegistryFile>, Failure>
    ensures { AsksOver (λ look. spec.file_in look registry.now key.now)
        (tree_run T.files T.faults T.failed tree.old tree.new)
        asked.old
        asked.new
        result }
{
    let below = below_modules(alloc, key, "MODULE.bazel")?;
    let found = match asked.ask(alloc, tree, registry, below.as_str()) {
        Ok(found) => found,
        Err(failure) => return Err(failure),
    };
    match file_found(alloc, registry, key, found) {
        Ok(file) => Ok(file),
        Err(miss) => Err(failure_of(miss)),
    }
}

fn file_found(
    alloc: Global,
    registry: &str,
    key: &Key,
    found: Found,
) -> May<Option<RegistryFile>, Refusal>
    ensures { Gives (spec.file_found registry.now key.now found) result }
{
    match found {
        Found::Bytes(bytes) => Ok(Some(RegistryFile {
            bytes,
            registry: Txt::of(alloc, registry)?,
        })),
        Found::Large => Err(Miss::Because(too_large(alloc, &printed_file(alloc, key)?)?)),
        Found::Listing(_) | Found::Absent => Ok(None),
    }
}

pub(crate) fn too_large(alloc: Global, name: &Txt) -> Mem<Refusal>
    ensures { IfOk result (λ refusal. refusal ≡ too_large_refusal name.now) }
{
    let mut refusal = Refusal::of(alloc, Code::TooLarge);
    refusal.file = name.copy(alloc)?;
    refusal.detail = name.copy(alloc)?;
    Ok(refusal)
}

fn no_module(alloc: Global, key: &Key) -> Mem<Refusal>
    ensures { IfOk result (λ refusal. refusal ≡ no_module_refusal key.now) }
{
    let mut refusal = Refusal::of(alloc, Code::NoModule);
    refusal.detail = key.text(alloc)?;
    Ok(refusal)
}
