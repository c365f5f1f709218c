//! Calls on paths.
use crate::calls::both;
use bz_base::{BadPath, May, Mem, Miss, OutOfMemory, TreePath, Txt};
use std::alloc::Global;

/// The path to which a text leads from the workspace.
pub(crate) fn path(alloc: Global, text: &str) -> May<TreePath, BadPath> {
    TreePath::workspace(alloc).join(alloc, text)
}

fn behind(alloc: Global, first: &str, text: &str) -> May<TreePath, BadPath> {
    let first = path(alloc, first)?;
    let second = first.join(alloc, text)?;
    Ok(second.copy(alloc)?)
}

/// The path to which a text leads from another, copied.
pub(crate) fn joined(alloc: Global, given: &str) -> Mem<Txt> {
    let (first, text) = both(given);
    match behind(alloc, first, text) {
        Ok(path) => Txt::of(alloc, path.as_str()),
        Err(Miss::Because(_)) => Txt::of(alloc, "BadPath"),
        Err(Miss::OutOfMemory) => Err(OutOfMemory),
    }
}
