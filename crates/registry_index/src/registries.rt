//! The registries of a run, and what was asked of them.
ghost use Rattle.std.specs.Prelude.{◌≡◌, [], ◌∷◌};
ghost use Rattle.bz_text.specs.Answers.{Gives};
ghost use Rattle.bz_tree.specs.Failures.{tree_run};
ghost use Rattle.registry_index.specs.AskedFiles.{AsksOver};
ghost use Rattle.registry_index.specs.Finding.{file_of};
ghost use Rattle.registry_index.specs.RegistryLists.{registries_of, registries_named};
ghost use Rattle.registry_index.specs.Sources.{source_of};

use crate::asked_files::{AskedFiles, FileHash};
use crate::finding::first_file;
use crate::registry_text::{BadRegistry, is_registry};
use crate::sources::source;
use bz_base::{Key, May, Miss, Seq, TreePath, Txt};
use bz_tree::{Failure, Tree};
use std::alloc::Global;
use std::marker::Model;

/// A module's file, and the registry that has it.
#[derive(Debug, Drop)]
pub struct RegistryFile {
    pub bytes: Seq<u8>,
    pub registry: Txt,
}

/// Where the source of a module is: in a directory of the tree, or elsewhere.
#[derive(Debug, Drop)]
pub enum Source {
    Dir(TreePath),
    Remote,
}

/// Registries in order. Contracts see their texts and what was asked of them.
#[derive(Drop)]
pub struct Registries {
    texts: Seq<Txt>,
    asked: AskedFiles,
}

impl Model for Registries {
    ghost use Rattle.registry_index.specs.RegistryLists.{RegistryList};

    ghost Value = { RegistryList };

    ghost view = { λ r. record { texts = r.texts; asked = r.asked } };
}

impl Registries {
    /// The registries that texts name, of which nothing was asked.
    pub fn of(alloc: Global, texts: &[Txt]) -> May<Registries, BadRegistry>
        ensures { Gives (registries_of texts.now) result }
    {
        let copies = match copied(alloc, texts) {
            Ok(copies) => copies,
            Err(miss) => return Err(miss),
        };
        Ok(Registries {
            texts: copies,
            asked: AskedFiles::new(alloc),
        })
    }

    /// The file of a module: that of the registry `only`, or where this is empty of the first
    /// registry that has one.
    pub fn find<T: Tree>(
        &mut self,
        alloc: Global,
        key: &Key,
        only: &str,
        tree: &mut T,
    ) -> Result<RegistryFile, Failure>
        ensures found { AsksOver (λ look. file_of look key.now only.now self.old.texts)
            (tree_run T.files T.faults T.failed tree.old tree.new)
            self.old.asked
            self.new.asked
            result }
        ensures registries_kept { self.new.texts ≡ self.old.texts }
    {
        if only.is_empty() {
            return first_file(alloc, tree, &mut self.asked, key, self.texts.items());
        }
        match Txt::of(alloc, only) {
            Ok(only) => first_file(alloc, tree, &mut self.asked, key, &[only]),
            Err(_) => Err(Failure::OutOfMemory),
        }
    }

    /// The source of a module that a registry gave.
    pub fn source<T: Tree>(
        &mut self,
        alloc: Global,
        key: &Key,
        registry: &str,
        tree: &mut T,
    ) -> Result<Source, Failure>
        ensures found { AsksOver (λ look. source_of look registry.now key.now self.old.asked.bases)
            (tree_run T.files T.faults T.failed tree.old tree.new)
            self.old.asked
            self.new.asked
            result }
        ensures registries_kept { self.new.texts ≡ self.old.texts }
    {
        source(alloc, tree, &mut self.asked, registry, key)
    }

    /// The files that were asked, each once and in order of asking.
    pub fn hashes(&self) -> &[FileHash]
        ensures { result.now ≡ self.now.asked.hashes }
    {
        self.asked.hashes()
    }
}

/// The texts, where each names a registry.
fn copied(alloc: Global, texts: &[Txt]) -> May<Seq<Txt>, BadRegistry>
    ensures { Gives (registries_named texts.now) result }
{
    let mut copies = Vec::new(alloc);
    for text in texts {
        if !is_registry(alloc, text.as_str())? {
            return Err(Miss::Because(BadRegistry));
        }
        copies.push(text.copy(alloc)?)?;
    }
    Ok(Seq::of_vec(copies))
}
