//! The globals of a file.
use bz_text::{Mem, Seq, Txt};
use star_names::Names;
use star_trees::{File, StmtKind, Target};
use std::alloc::Global;

/// The names that the statements of a file bind, each once, in the order in which the text first
/// binds them, which is that of their slots.
pub fn globals(alloc: Global, file: &File) -> Mem<Seq<Txt>> {
    let mut names = Names::new(alloc);
    for stmt in file.body.as_slice() {
        names = bound(alloc, &stmt.kind, names)?;
    }
    names.texts(alloc)
}

fn bound(alloc: Global, kind: &StmtKind, names: Names) -> Mem<Names> {
    match kind {
        StmtKind::Def { function: _, to } => names.with(alloc, &to.name),
        StmtKind::Assign { to, value: _ } => bound_target(alloc, to, names),
        _ => Ok(names),
    }
}

#[cycle(binding)]
fn bound_target(alloc: Global, to: &Target, names: Names) -> Mem<Names> {
    match to {
        Target::Name(variable) => names.with(alloc, &variable.name),
        Target::Index { of: _, at: _ } => Ok(names),
        Target::Many(targets) => bound_targets(alloc, targets.as_slice(), names),
    }
}

#[cycle(binding)]
fn bound_targets(alloc: Global, targets: &[Target], names: Names) -> Mem<Names> {
    let mut names = names;
    for target in targets {
        names = bound_target(alloc, target, names)?;
    }
    Ok(names)
}
