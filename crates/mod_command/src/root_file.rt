//! The root file.
ghost use Rattle.std.specs.Prelude.{◌≡◌, IfOk, codes};
ghost use Rattle.bz_text.specs.Answers.{Gives};
ghost use Rattle.mod_command.specs.RootFiles.{no_root_refusal, root_of};

use bz_base::{Code, May, Mem, Miss, ModuleDecl, OutOfMemory, Refusal, TreePath, Txt};
use bz_tree::Found;
use module_file::declaring::{form, read_module};
use std::alloc::Global;

/// The path of the root file.
pub(crate) fn root_path(alloc: Global) -> Mem<TreePath>
    ensures { IfOk result (λ path. path ≡ codes "MODULE.bazel") }
{
    match TreePath::workspace(alloc).join(alloc, "MODULE.bazel") {
        Ok(path) => Ok(path),
        Err(Miss::OutOfMemory) => Err(OutOfMemory),
        Err(Miss::Because(_)) => unreachable!(),
    }
}

/// What the root file declares.
pub(crate) fn read_root(alloc: Global, found: Found) -> May<ModuleDecl, Refusal>
    ensures { Gives (root_of found) result }
{
    match found {
        Found::Bytes(bytes) => read_module(alloc, bytes.items()),
        Found::Large => Err(Miss::Because(form(alloc))),
        Found::Listing(_) | Found::Absent => Err(Miss::Because(no_root(alloc)?)),
    }
}

fn no_root(alloc: Global) -> Mem<Refusal>
    ensures { IfOk result (λ refusal. refusal ≡ no_root_refusal) }
{
    let mut refusal = Refusal::of(alloc, Code::NoRoot);
    refusal.file = Txt::of(alloc, "<root>/MODULE.bazel")?;
    Ok(refusal)
}
