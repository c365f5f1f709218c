//! The overrides of the root, in a map by name.
ghost use Rattle.std.specs.Prelude.{◌≡◌, ◌++◌, [], ◌∷◌, None, IfOk, OnOk, length, map};
ghost use Rattle.std.specs.Prelude.{slice_get};
ghost use Rattle.std.specs.Option.{option_copied};
ghost use Rattle.bz_text.specs.Answers.{Gives};
ghost use Rattle.overrides.specs.Overrides as spec;
ghost use Rattle.overrides.specs.Overrides.{NamesDiffer, effective_of};
ghost use Rattle.overrides.specs.Overrides.{kind_of, kinds_of};
ghost use Rattle.overrides.specs.Overrides.{named_kind, names_of, overrides_of};

use crate::effective::{Effective, module, version_under};
use crate::kind_copies::copy_of_kind;
use bz_base::{Dep, May, Mem, ModuleDecl, OutOfMemory, Override, OverrideKind, Refusal, Txt};
use indexmap::IndexMap;
use std::alloc::Global;
use std::marker::Model;

/// What the root's file overrides. Contracts see the root's name and the list of overrides.
#[derive(Drop)]
pub struct Overrides {
    root: Txt,
    kinds: IndexMap<String, OverrideKind>,
}

impl Model for Overrides {
    ghost use Rattle.overrides.specs.Overrides.{RootOverrides, kinds_of};

    ghost Value = { RootOverrides };

    ghost view = { λ o. record { root = o.root; kinds = kinds_of o.kinds.entries } };
}

impl Overrides {
    /// The overrides of a root's file.
    pub fn of(alloc: Global, root: &ModuleDecl) -> Mem<Overrides>
        requires { NamesDiffer root.now.overrides }
        ensures { IfOk result (λ overrides. overrides ≡ overrides_of root.now) }
    {
        Ok(Overrides {
            root: root.name.copy(alloc)?,
            kinds: kinds(alloc, root.overrides.items())?,
        })
    }

    /// The module that a dependency means.
    #[tactic(auto, unfolding(crate::specs::Overrides::effective_of))]
    pub fn effective(&self, alloc: Global, dep: &Dep) -> May<Effective, Refusal>
        ensures { Gives (effective_of self.now dep.now) result }
    {
        if self.is_root(dep.name.as_str()) {
            return Ok(Effective::Root);
        }
        let version = version_under(self.kind(dep.name.as_str()), dep.version.as_str());
        module(alloc, dep.name.as_str(), version)
    }

    /// By what a module is overridden.
    pub fn kind(&self, name: &str) -> Option<&OverrideKind>
        ensures { option_copied result ≡ kind_of name.now self.now.kinds }
    {
        self.kinds.get(name)
    }

    /// How many modules are overridden.
    pub fn len(&self) -> usize
        ensures { result ≡ length self.now.kinds }
    {
        self.kinds.len()
    }

    /// The name of the module of the override at an index, in the order of the root's file.
    pub fn name_at(&self, index: usize) -> Option<&str>
        ensures { option_copied result ≡ slice_get (names_of self.now) index }
    {
        let (name, _) = self.kinds.get_index(index)?;
        Some(name.as_str())
    }

    fn is_root(&self, name: &str) -> bool
        ensures { result ≡ spec.means_root self.now.root name.now }
    {
        !self.root.as_str().is_empty() && name == self.root.as_str()
    }
}

fn kinds(alloc: Global, overrides: &[Override]) -> Mem<IndexMap<String, OverrideKind>>
    requires { NamesDiffer overrides.now }
    ensures { IfOk result (λ kinds. kinds_of kinds.entries ≡ map named_kind overrides.now) }
{
    let mut kinds = IndexMap::new(alloc);
    for one in overrides {
        let name = one.name.copy(alloc)?;
        let kind = copy_of_kind(alloc, &one.kind)?;
        add(&mut kinds, name, kind)?;
    }
    Ok(kinds)
}

/// Puts an override of a further module behind the others.
fn add(kinds: &mut IndexMap<String, OverrideKind>, name: Txt, kind: OverrideKind) -> Mem<()>
    requires { kind_of name (kinds_of kinds.old.entries) ≡ None }
    ensures { OnOk result (kinds_of kinds.new.entries
        ≡ kinds_of kinds.old.entries ++ (name, kind) ∷ []) }
{
    match kinds.insert(name.into_string(), kind) {
        Ok(_) => Ok(()),
        Err(_) => Err(OutOfMemory),
    }
}
