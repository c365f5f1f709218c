//! The real tree: the trusted edge to the file system.
ghost use Rattle.std.specs.Prelude.{◌≡◌, [], None, IfOk, IsTrue, map, string_bytes};
ghost use Rattle.bz_tree.specs.Reads.{IsReadable, are_ascending};

use crate::faults::OutsideFault;
use crate::tree::{Found, LARGEST_FILE, Tree};
use bz_base::{Mem, Seq, TreePath, Txt};
use std::alloc::Global;
use std::fs::File;
use std::io::{ErrorKind, Read};
use std::rt::Files;
use std::{fs, io};

/// The file system, from the working directory on. It tells no content. Links are followed; what is
/// neither a file nor a directory fails and is never opened, so that no run waits for a pipe, and
/// so does a directory with a name that isn't UTF-8.
#[derive(Drop)]
pub struct DirTree<'a, R: Files + AllocGlobal + Clone + Drop> {
    rt: &'a R,
    faults: u64,
    failed: TreePath,
    failed_places: u64,
    spare: u64,
}

impl<'a, R: Files + AllocGlobal + Clone + Drop> DirTree<'a, R> {
    /// The tree of the working directory, of which nothing failed yet.
    pub fn here(rt: &'a R) -> DirTree<'a, R>
        ensures no_faults { result.faults ≡ 0 }
        ensures no_failed_path { result.failed ≡ [] }
        ensures no_failed_places { result.failed_places ≡ 0 }
    {
        DirTree {
            rt,
            faults: 0,
            failed: TreePath::workspace(rt.alloc()),
            failed_places: 0,
            spare: 0,
        }
    }
}

impl<'a, R: Files + AllocGlobal + Clone + Drop> Tree for DirTree<'a, R> {
    ghost files = { λ _. None };

    ghost faults = { λ t. t.faults };

    ghost failed = { λ t. t.failed };

    ghost failed_places = { λ t. t.failed_places };

    ghost spare = { λ t. t.spare };

    fn read(&mut self, alloc: Global, path: &TreePath) -> Result<Found, OutsideFault> {
        let error = match find(self.rt, alloc, path.as_str()) {
            Ok(found) => return Ok(found),
            Err(error) => error,
        };
        match error.kind() {
            ErrorKind::NotFound | ErrorKind::NotADirectory | ErrorKind::InvalidFilename => {
                Ok(Found::Absent)
            }
            ErrorKind::OutOfMemory => Err(OutsideFault::OutOfMemory),
            _ => {
                self.failed = path.copy(alloc)?;
                self.faults = self.faults.saturating_add(1);
                Err(OutsideFault::Failed)
            }
        }
    }

    fn room(&mut self, _alloc: Global, places: u64) -> Mem<()> {
        self.spare = self.spare.max(places);
        Ok(())
    }

    fn place(&mut self, path: TreePath, bytes: Seq<u8>) -> Result<(), TreePath> {
        self.spare -= 1;
        match write_file(self.rt, path.as_str(), bytes.items()) {
            Ok(()) => Ok(()),
            Err(_) => {
                self.failed_places = self.failed_places.saturating_add(1);
                Err(path)
            }
        }
    }
}

/// What stands at a path of the file system.
fn find<R: Files + AllocGlobal + Clone + Drop>(
    rt: &R,
    alloc: Global,
    path: &str,
) -> io::Result<Found>
    ensures { IfOk result IsReadable }
{
    let path = if path.is_empty() { "." } else { path };
    let about = fs::metadata(rt, path)?;
    if about.is_dir() {
        return list(rt, alloc, path);
    }
    if !about.is_file() {
        return Err(io::Error::from(ErrorKind::Unsupported));
    }
    read_file(rt, alloc, path, about.len())
}

/// A file's bytes, read into room of the size that it has.
fn read_file<R: Files>(rt: &R, alloc: Global, path: &str, size: u64) -> io::Result<Found>
    ensures { IfOk result IsReadable }
{
    let most = LARGEST_FILE as u64 + 1;
    let mut bytes = Vec::with_capacity(alloc, size.saturating_add(1).min(most) as usize)?;
    let mut front = File::open(rt, path)?.take(most);
    front.read_to_end(&mut bytes)?;
    if bytes.len() > LARGEST_FILE {
        return Ok(Found::Large);
    }
    Ok(Found::Bytes(Seq::of_vec(bytes)))
}

fn list<R: Files + AllocGlobal + Clone + Drop>(
    rt: &R,
    alloc: Global,
    path: &str,
) -> io::Result<Found>
    ensures { IfOk result IsReadable }
{
    let mut names = Vec::new(alloc);
    for entry in fs::read_dir(rt, path)? {
        names.push(String::from_str(alloc, entry?.file_name())?)?;
    }
    names.sort()?;
    Ok(Found::Listing(texts_of(alloc, names)?))
}

fn texts_of(alloc: Global, names: Vec<String>) -> io::Result<Seq<Txt>>
    ensures { IfOk result (λ texts. texts ≡ map string_bytes names.items) }
{
    let mut texts = Vec::new(alloc);
    for name in names {
        texts.push(Txt::of_string(name))?;
    }
    Ok(Seq::of_vec(texts))
}

/// Writes a file, with the directories above it.
fn write_file<R: Files>(rt: &R, path: &str, bytes: &[u8]) -> io::Result<()> {
    if let Some((directory, _)) = path.rsplit_once('/') {
        if !directory.is_empty() {
            fs::create_dir_all(rt, directory)?;
        }
    }
    fs::write(rt, path, bytes)
}
