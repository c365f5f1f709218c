//! What was asked of registries: their files with the hashes of their bytes, each once, and the
//! base directories that they were read to have. A set of the names finds a file at once.
ghost use Rattle.std.specs.Prelude.{◌≡◌, [], ◌∷◌, ◌++◌, OnOk, OnErr};
ghost use Rattle.std.specs.Option.{option_copied};
ghost use Rattle.bz_tree.specs.Failures.{tree_run};
ghost use Rattle.registry_index.specs.AskedFiles as spec;
ghost use Rattle.registry_index.specs.AskedFiles.{AsksOver, hashes_with, nothing_asked, with_hash};
ghost use Rattle.registry_index.specs.Sources.{kept_base};

use crate::reading::read_by;
use crate::registry_text::{path, url};
use bz_base::{Mem, OutOfMemory, TreePath, Txt, digest_hex};
use bz_tree::{Failure, Found, Tree};
use indexmap::IndexSet;
use std::alloc::Global;
use std::marker::Model;

/// A registry's file that was asked: its name, and the SHA-256 of its bytes, none where it is
/// absent.
#[derive(Debug, Drop)]
pub struct FileHash {
    pub url: Txt,
    pub hash: Option<Txt>,
}

/// A registry, and the directory from which its local paths begin.
#[derive(Debug, Drop)]
pub struct RegistryBase {
    registry: Txt,
    directory: TreePath,
}

/// What was asked. Contracts see the lists.
#[derive(Drop)]
pub struct AskedFiles {
    urls: IndexSet<String>,
    hashes: Vec<FileHash>,
    bases: Vec<RegistryBase>,
}

impl Model for AskedFiles {
    ghost use Rattle.std.specs.Prelude.{◌≡◌, map, string_bytes};
    ghost use Rattle.registry_index.specs.AskedFiles.{Asked, urls_of};

    ghost Value = { Asked };

    ghost view = { λ a. record { hashes = a.hashes.items; bases = a.bases.items } };

    ghost invariant = { λ a. map string_bytes a.urls.keys ≡ urls_of a.hashes.items };
}

impl AskedFiles {
    pub fn new(alloc: Global) -> AskedFiles
        ensures { result ≡ nothing_asked }
    {
        AskedFiles {
            urls: IndexSet::new(alloc),
            hashes: Vec::new(alloc),
            bases: Vec::new(alloc),
        }
    }

    pub fn hashes(&self) -> &[FileHash]
        ensures { result.now ≡ self.now.hashes }
    {
        self.hashes.as_slice()
    }

    /// What stands where a registry's file is, which is remembered.
    #[tactic(auto, unfolding(crate::specs::AskedFiles::found_for))]
    pub fn ask<T: Tree>(
        &mut self,
        alloc: Global,
        tree: &mut T,
        registry: &str,
        below: &str,
    ) -> Result<Found, Failure>
        ensures { AsksOver (λ look. spec.ask look (record {
          registry = registry.now;
          below = below.now;
        }))
            (tree_run T.files T.faults T.failed tree.old tree.new)
            self.old
            self.new
            result }
    {
        let url = url(alloc, registry, below)?;
        let path = path(alloc, registry, below)?;
        let found = read_by(alloc, tree, path.as_str())?;
        self.note(alloc, url, &found)?;
        Ok(found)
    }

    /// Remembers a file by what was found.
    fn note(&mut self, alloc: Global, url: Txt, found: &Found) -> Mem<()>
        ensures noted { OnOk result (self.new ≡ record self.old {
          hashes = hashes_with url found.now self.old.hashes;
        }) }
        ensures unchanged { OnErr result (self.new ≡ self.old) }
    {
        match found {
            Found::Large => Ok(()),
            Found::Bytes(bytes) => {
                let hash = digest_hex(alloc, bytes.items())?;
                self.add(alloc, url, Some(hash))
            }
            Found::Listing(_) | Found::Absent => self.add(alloc, url, None),
        }
    }

    /// Puts a file behind the others, unless it is among them.
    fn add(&mut self, alloc: Global, url: Txt, hash: Option<Txt>) -> Mem<()>
        ensures added { OnOk result (self.new ≡ record self.old {
          hashes = with_hash url hash self.old.hashes;
        }) }
        ensures unchanged { OnErr result (self.new ≡ self.old) }
    {
        let text = url.copy(alloc)?.into_string();
        self.hashes.reserve(1)?;
        let (_, is_new) = self.urls.insert_full(text)?;
        if is_new {
            self.hashes.push(FileHash { url, hash })?;
        }
        Ok(())
    }

    /// The base directory that was kept of a registry.
    pub fn base(&self, registry: &str) -> Option<&TreePath>
        ensures { option_copied result ≡ kept_base registry.now self.now.bases }
    {
        kept(self.bases.as_slice(), registry)
    }

    /// Keeps the base directory of a registry.
    pub fn keep(&mut self, alloc: Global, registry: &str, directory: &TreePath) -> Mem<()>
        ensures kept { OnOk result (self.new ≡ record self.old {
          bases = self.old.bases ++ record {
            registry = registry.now;
            directory = directory.now;
          } ∷ [];
        }) }
        ensures unchanged { OnErr result (self.new ≡ self.old) }
    {
        let base = RegistryBase {
            registry: Txt::of(alloc, registry)?,
            directory: directory.copy(alloc)?,
        };
        self.bases.push(base)?;
        Ok(())
    }
}

fn kept<'a>(bases: &'a [RegistryBase], registry: &str) -> Option<&'a TreePath>
    ensures { option_copied result ≡ kept_base registry.now bases.now }
{
    for base in bases {
        if registry == base.registry.as_str() {
            return Some(&base.directory);
        }
    }
    None
}
