//! Copies of an override.
ghost use Rattle.std.specs.Prelude.{◌≡◌, IfOk};
ghost use Rattle.bz_base.specs.declared.declarations.OverrideKind.TheVariants.{Single, Multiple};

use bz_base::{Mem, OverrideKind, Seq, Txt};
use std::alloc::Global;

pub(crate) fn copy_of_kind(alloc: Global, kind: &OverrideKind) -> Mem<OverrideKind>
    ensures { IfOk result (λ copy. copy ≡ kind.now) }
{
    match kind {
        OverrideKind::Single {
            version,
            registry,
            patched,
        } => copy_of_single(alloc, version, registry, *patched),
        OverrideKind::Multiple { versions, registry } => {
            copy_of_multiple(alloc, versions.items(), registry)
        }
        OverrideKind::Local { path } => Ok(OverrideKind::Local {
            path: path.copy(alloc)?,
        }),
        OverrideKind::Archive => Ok(OverrideKind::Archive),
        OverrideKind::Git => Ok(OverrideKind::Git),
    }
}

fn copy_of_single(alloc: Global, version: &Txt, registry: &Txt, patched: bool) -> Mem<OverrideKind>
    ensures { IfOk result (λ copy. copy ≡ Single version.now registry.now patched) }
{
    Ok(OverrideKind::Single {
        version: version.copy(alloc)?,
        registry: registry.copy(alloc)?,
        patched,
    })
}

fn copy_of_multiple(alloc: Global, versions: &[Txt], registry: &Txt) -> Mem<OverrideKind>
    ensures { IfOk result (λ copy. copy ≡ Multiple versions.now registry.now) }
{
    Ok(OverrideKind::Multiple {
        versions: copy_of_texts(alloc, versions)?,
        registry: registry.copy(alloc)?,
    })
}

fn copy_of_texts(alloc: Global, texts: &[Txt]) -> Mem<Seq<Txt>>
    ensures { IfOk result (λ copy. copy ≡ texts.now) }
{
    let mut copies = Vec::new(alloc);
    for text in texts {
        copies.push(text.copy(alloc)?)?;
    }
    Ok(Seq::of_vec(copies))
}
