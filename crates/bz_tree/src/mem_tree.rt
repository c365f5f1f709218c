//! A tree in memory.
ghost use Rattle.std.specs.Prelude.{◌≡◌, ◌≤◌, ◌<◌, ◌+◌, ◌-◌, ◌++◌, ◌↔◌, ◌||◌, [], ◌∷◌, ℕ, List};
ghost use Rattle.std.specs.Prelude.{Option, Some, IfErr, IfOk, IfSome, IsErr, IsTrue};
ghost use Rattle.std.specs.Prelude.{OnErr, OnOk, bytes_eq, is_some, length, max, option_copied};
ghost use Rattle.std.specs.List.{list_any};
ghost use Rattle.bz_base.specs.Counts.{Rose, counted};
ghost use Rattle.bz_tree.specs.MemTrees as spec;
ghost use Rattle.bz_tree.specs.MemTrees.{after_failed_place, after_place, after_put, after_puts};
ghost use Rattle.bz_tree.specs.MemTrees.{HasPut, after_read, empty_tree, files_of, found_in};
ghost use Rattle.bz_tree.specs.MemTrees.{put_of, read_of, refuses, with_failing_place};
ghost use Rattle.bz_tree.specs.MemTrees.{with_failing_read, with_put, with_room};
ghost use Rattle.bz_tree.specs.Plans.{with_failing};
ghost use Rattle.bz_tree.specs.Outcomes.{Fails, IsOutcome};
ghost use Rattle.bz_tree.specs.Places.{IsPlaced, IsPlacedInPart, after_file, file_of, first_name};
ghost use Rattle.bz_tree.specs.Places.{index_of, next_name, path_behind, stripped, with_name};
ghost use Rattle.bz_tree.specs.Places.{with_next};
ghost use Rattle.bz_tree.specs.Reads as reads;
ghost use Rattle.bz_tree.specs.Reads.{IsReadable, failed_path_after, largest_file};

use crate::faults::OutsideFault;
use crate::plan::Plan;
use crate::tree::{Found, LARGEST_FILE, Tree};
use bz_base::{Mem, OutOfMemory, Seq, TreePath, Txt};
use std::alloc::Global;
use std::marker::Model;

/// A file that was put at a path.
#[derive(Debug, Drop)]
pub(crate) struct Put {
    path: TreePath,
    bytes: Seq<u8>,
}

/// A tree in memory, whose reads and placings fail only as planned, and placings besides where a
/// directory stands in the file's place or a file in a directory's.
#[derive(Debug, Drop)]
pub struct MemTree {
    puts: Vec<Put>,
    reads: Plan,
    placings: Plan,
    faults: u64,
    failed: TreePath,
    failed_places: u64,
    spare: usize,
}

impl Model for MemTree {
    ghost use Rattle.std.specs.Prelude.{◌+◌, ◌≤◌, vec_capacity, vec_len};
    ghost use Rattle.bz_tree.specs.MemTrees.{MemTreeState};

    ghost Value = { MemTreeState };

    ghost view = { λ t. record {
      puts = t.puts.items;
      reads = t.reads;
      placings = t.placings;
      faults = t.faults;
      failed = t.failed;
      failed_places = t.failed_places;
      spare = t.spare;
    } };

    ghost invariant = { λ t. vec_len t.puts + t.spare ≤ vec_capacity t.puts };
}

impl MemTree {
    /// The empty tree, of which no call fails.
    pub fn new(alloc: Global) -> MemTree
        ensures { result ≡ empty_tree }
    {
        MemTree {
            puts: Vec::new(alloc),
            reads: Plan::new(alloc),
            placings: Plan::new(alloc),
            faults: 0,
            failed: TreePath::workspace(alloc),
            failed_places: 0,
            spare: 0,
        }
    }

    /// Plans that the nth read from now fails too, the next one being the first.
    pub fn fail_read(&mut self, nth: u64) -> Mem<()>
        ensures planned { OnOk result (self.new ≡ with_failing_read self.old nth) }
        ensures unchanged { OnErr result (self.new ≡ self.old) }
    {
        self.reads.fail(nth)
    }

    /// Plans that the nth placing from now fails too, the next one being the first.
    pub fn fail_place(&mut self, nth: u64) -> Mem<()>
        ensures planned { OnOk result (self.new ≡ with_failing_place self.old nth) }
        ensures unchanged { OnErr result (self.new ≡ self.old) }
    {
        self.placings.fail(nth)
    }

    /// Puts a file, whatever stood at its path, and the directories above it.
    pub fn put(&mut self, alloc: Global, path: TreePath, bytes: &[u8]) -> Mem<()>
        ensures put { OnOk result (self.new ≡ with_put self.old (put_of path bytes.now)) }
        ensures stands { OnOk result (HasPut (put_of path bytes.now) self.old self.new) }
        ensures unchanged { OnErr result (self.new ≡ self.old) }
    {
        let bytes = copied(alloc, bytes)?;
        self.add(Put { path, bytes })
    }

    /// Puts a file and leaves the room that there is.
    fn add(&mut self, put: Put) -> Mem<()>
        ensures put { OnOk result (self.new ≡ with_put self.old put) }
        ensures unchanged { OnErr result (self.new ≡ self.old) }
    {
        let Some(room) = self.spare.checked_add(1) else {
            return Err(OutOfMemory);
        };
        self.puts.reserve(room)?;
        self.puts.push(put)?;
        Ok(())
    }

    /// Whether the next placing of a file at a path fails.
    fn refuses(&self, path: &str) -> bool
        ensures { result ≡ refuses self.now path.now }
    {
        self.placings.fails_next() || is_blocked(&self.puts, path)
    }
}

impl Tree for MemTree {
    ghost files = { λ t. Some (found_in t) };

    ghost faults = { λ t. t.faults };

    ghost failed = { λ t. t.failed };

    ghost failed_places = { λ t. t.failed_places };

    ghost spare = { λ t. t.spare };

    fn read(&mut self, alloc: Global, path: &TreePath) -> Result<Found, OutsideFault>
        ensures told { IfSome (files_of self.old) (λ look. IfOk result (λ it. it ≡ look path.now)) }
        ensures readable { IfOk result IsReadable }
        ensures files_kept { Some (found_in self.new) ≡ Some (found_in self.old) }
        ensures count_never_falls { self.old.faults ≤ self.new.faults }
        ensures counted { Fails result → Rose self.old.faults self.new.faults }
        ensures path { self.new.failed ≡ failed_path_after result path.now self.old.failed }
        ensures failed_places_kept { self.new.failed_places ≡ self.old.failed_places }
        ensures spare_kept { self.new.spare ≡ self.old.spare }

        // As planned, and in no other way.
        ensures planned { IsOutcome (read_of self.old path.now)
            (after_read self.old path.now) self.old result self.new }
    {
        if self.reads.fails_next() {
            self.failed = path.copy(alloc)?;
            self.reads.make();
            self.faults = self.faults.saturating_add(1);
            return Err(OutsideFault::Failed);
        }
        let found = find(alloc, &self.puts, path.as_str())?;
        self.reads.make();
        Ok(found)
    }

    fn room(&mut self, _alloc: Global, places: u64) -> Mem<()>
        ensures enough { OnOk result (places ≤ self.new.spare) }
        ensures unchanged { OnErr result (self.new.spare ≡ self.old.spare) }
        ensures files_kept { Some (found_in self.new) ≡ Some (found_in self.old) }
        ensures faults_kept { self.new.faults ≡ self.old.faults }
        ensures failed_kept { self.new.failed ≡ self.old.failed }
        ensures failed_places_kept { self.new.failed_places ≡ self.old.failed_places }

        // Never less room than there was.
        ensures exact { OnOk result (self.new ≡ with_room self.old places) }
    {
        let places = self.spare.max(places as usize);
        self.puts.reserve(places)?;
        self.spare = places;
        Ok(())
    }

    fn place(&mut self, path: TreePath, bytes: Seq<u8>) -> Result<(), TreePath>
        requires small { length bytes ≤ largest_file }
        requires room { 0 < self.old.spare }
        ensures placed { OnOk result (IsPlaced (files_of self.old) path bytes (files_of self.new)) }
        ensures part { OnErr result (IsPlacedInPart (files_of self.old) path bytes (Some (found_in
            self.new))) }
        ensures handed_back { IfErr result (λ back. back ≡ path) }
        ensures count_never_falls { self.old.failed_places ≤ self.new.failed_places }
        ensures counted { OnErr result (Rose self.old.failed_places self.new.failed_places) }
        ensures spare_lowered { self.old.spare ≤ self.new.spare + 1 }
        ensures faults_kept { self.new.faults ≡ self.old.faults }
        ensures failed_kept { self.new.failed ≡ self.old.failed }

        // As planned or blocked, and in no other way.
        ensures failing { IsErr result ↔ IsTrue (refuses self.old path) }
        ensures after { OnOk result (self.new ≡ after_place self.old (put_of path bytes)) }
        ensures after_failed { OnErr result (self.new ≡ after_failed_place self.old) }
    {
        let refused = self.refuses(path.as_str());
        self.placings.make();
        if refused {
            self.failed_places = self.failed_places.saturating_add(1);
            return Err(path);
        }
        self.spare -= 1;
        match self.puts.push(Put { path, bytes }) {
            Ok(()) => Ok(()),
            Err(_) => unreachable!(),
        }
    }
}

fn copied(alloc: Global, bytes: &[u8]) -> Mem<Seq<u8>>
    ensures { IfOk result (λ copy. copy ≡ bytes.now) }
{
    Ok(Seq::of_vec(Vec::from_slice(alloc, bytes)?))
}

/// What stands at a path after each put in turn.
fn find(alloc: Global, puts: &[Put], path: &str) -> Mem<Found>
    ensures exact { IfOk result (λ found. found ≡ after_puts puts.now path.now Found.Absent) }
    ensures readable { IfOk result IsReadable }
{
    let mut found = Found::Absent;
    for put in puts {
        found = find_after(alloc, put, path, found)?;
    }
    Ok(found)
}

fn find_after(alloc: Global, put: &Put, path: &str, before: Found) -> Mem<Found>
    ensures { IfOk result (λ found. found ≡ after_put put.now path.now before) }
{
    if path == put.path.as_str() {
        return file(alloc, put.bytes.items());
    }
    match next(path, put.path.as_str()) {
        None => Ok(before),
        Some(name) => list(alloc, before, name),
    }
}

fn file(alloc: Global, bytes: &[u8]) -> Mem<Found>
    ensures { IfOk result (λ found. found ≡ file_of bytes.now) }
{
    if bytes.len() <= LARGEST_FILE {
        Ok(Found::Bytes(copied(alloc, bytes)?))
    } else {
        Ok(Found::Large)
    }
}

/// The name in a directory by which a path leads on.
fn next<'a>(directory: &str, path: &'a str) -> Option<&'a str>
    ensures { option_copied result ≡ next_name directory.now path.now }
{
    let name = first(behind(directory, path)?);
    if name == "" || name == ".." {
        return None;
    }
    Some(name)
}

fn behind<'a>(directory: &str, path: &'a str) -> Option<&'a str>
    ensures { option_copied result ≡ path_behind directory.now path.now }
{
    let rest = strip(directory, path)?;
    if directory == "" || directory == "/" {
        return Some(rest);
    }
    strip("/", rest)
}

fn strip<'a>(front: &str, text: &'a str) -> Option<&'a str>
    ensures { option_copied result ≡ stripped front.now text.now }
{
    text.strip_prefix(front)
}

fn first(path: &str) -> &str
    ensures { result.now ≡ first_name path.now }
{
    match path.split_once('/') {
        None => path,
        Some((name, _)) => name,
    }
}

fn list(alloc: Global, before: Found, name: &str) -> Mem<Found>
    ensures { IfOk result (λ found. found ≡ with_next (Some name.now) before) }
{
    let names = match before {
        Found::Listing(names) => names,
        _ => Seq::new(alloc),
    };
    Ok(Found::Listing(add_name(alloc, names, name)?))
}

fn add_name(alloc: Global, names: Seq<Txt>, name: &str) -> Mem<Seq<Txt>>
    ensures { IfOk result (λ longer. longer ≡ with_name name.now names) }
{
    if has_name(names.items(), name) {
        return Ok(names);
    }
    let index = index_among(names.items(), name);
    let mut names = names.into_vec();
    names.insert(index, Txt::of(alloc, name)?)?;
    Ok(Seq::of_vec(names))
}

fn has_name(names: &[Txt], name: &str) -> bool
    ensures { result ≡ list_any (λ other. bytes_eq other name.now) names.now }
{
    names.iter().any(|other| other.as_str() == name)
}

fn index_among(names: &[Txt], name: &str) -> usize
    ensures exact { result ≡ index_of name.now names.now }
    ensures within { result ≤ length names.now }
{
    names
        .iter()
        .take_while(|other| is_below(other.as_str(), name))
        .count()
}

fn is_below(text: &str, other: &str) -> bool
    ensures { result ≡ reads.is_below text.now other.now }
{
    text < other
}

/// Whether a directory stands in the file's place, or a file in a directory's.
fn is_blocked(puts: &[Put], path: &str) -> bool
    ensures { result ≡ spec.is_blocked_by puts.now path.now }
{
    is_directory_at(puts, path) || has_file_above(puts, path)
}

/// Whether a file stands somewhere above a path.
fn has_file_above(puts: &[Put], path: &str) -> bool
    ensures { result ≡ list_any (spec.is_file_above puts.now path.now) puts.now }
{
    puts.iter().any(|put| is_file_above(puts, path, put))
}

/// Whether a put's path leads on to the other path, and a file stands there now.
fn is_file_above(puts: &[Put], path: &str, put: &Put) -> bool
    ensures { result ≡ spec.is_file_above puts.now path.now put.now }
{
    next(put.path.as_str(), path).is_some() && is_file_at(puts, put.path.as_str())
}

/// Whether a file stands at a path.
fn is_file_at(puts: &[Put], path: &str) -> bool
    ensures { result ≡ spec.is_file (after_puts puts.now path.now Found.Absent) }
{
    let mut stands = false;
    for put in puts {
        stands = file_after(put, path, stands);
    }
    stands
}

fn file_after(put: &Put, path: &str, before: bool) -> bool
    ensures { result ≡ spec.file_after put.now path.now before }
{
    if path == put.path.as_str() {
        true
    } else if next(path, put.path.as_str()).is_some() {
        false
    } else {
        before
    }
}

/// Whether a directory stands at a path.
fn is_directory_at(puts: &[Put], path: &str) -> bool
    ensures { result ≡ spec.is_directory (after_puts puts.now path.now Found.Absent) }
{
    let mut stands = false;
    for put in puts {
        stands = directory_after(put, path, stands);
    }
    stands
}

fn directory_after(put: &Put, path: &str, before: bool) -> bool
    ensures { result ≡ spec.directory_after put.now path.now before }
{
    if path == put.path.as_str() {
        false
    } else if next(path, put.path.as_str()).is_some() {
        true
    } else {
        before
    }
}
