//! Steps on a tree and a sink in memory.
use crate::calls::{both, tell, word};
use crate::path_calls::path;
use bz_base::{BadPath, May, Mem, Miss, OutOfMemory, Seq, TreePath, Txt};
use bz_tree::{Found, MemSink, MemTree, OutsideFault, Sink, Tree};
use std::alloc::Global;

fn listing(alloc: Global, names: &[Txt]) -> Mem<Txt> {
    let mut line = String::from_str(alloc, "lists")?;
    for name in names {
        line.push_str(" ")?;
        line.push_str(name.as_str())?;
    }
    Ok(Txt::of_string(line))
}

fn found(alloc: Global, found: &Found) -> Mem<Txt> {
    match found {
        Found::Bytes(bytes) => {
            let count = bytes.items().len();
            Ok(Txt::of_string(format!(in alloc; "{count} bytes")?))
        }
        Found::Large => Txt::of(alloc, "large"),
        Found::Absent => Txt::of(alloc, "absent"),
        Found::Listing(names) => listing(alloc, names.items()),
    }
}

/// What a tree has at a path.
fn read<T: Tree>(alloc: Global, tree: &mut T, path: &TreePath) -> Mem<Txt> {
    match tree.read(alloc, path) {
        Ok(what) => found(alloc, &what),
        Err(OutsideFault::Failed) => Txt::of(alloc, "failed"),
        Err(OutsideFault::OutOfMemory) => Err(OutOfMemory),
    }
}

/// A file of one byte is placed, with room made for it.
fn place<T: Tree>(alloc: Global, tree: &mut T, path: TreePath) -> Mem<Txt> {
    let bytes = Seq::of_vec(vec![in alloc; 97u8]?);
    tree.room(alloc, 1)?;
    match tree.place(path, bytes) {
        Ok(()) => Txt::of(alloc, "placed"),
        Err(_) => Txt::of(alloc, "refused"),
    }
}

fn put(alloc: Global, tree: &mut MemTree, given: &str) -> May<Txt, BadPath> {
    let (text, bytes) = word(given);
    let path = path(alloc, text)?;
    tree.put(alloc, path, bytes.as_bytes())?;
    Ok(Txt::of(alloc, "")?)
}

fn number(text: &str) -> u64 {
    match text.parse::<u64>() {
        Ok(number) => number,
        Err(_) => 0,
    }
}

fn fail_read(alloc: Global, tree: &mut MemTree, given: &str) -> May<Txt, BadPath> {
    tree.fail_read(number(given))?;
    Ok(Txt::of(alloc, "")?)
}

fn fail_place(alloc: Global, tree: &mut MemTree, given: &str) -> May<Txt, BadPath> {
    tree.fail_place(number(given))?;
    Ok(Txt::of(alloc, "")?)
}

/// What a tree has at the path to which a text leads.
pub(crate) fn read_at<T: Tree>(alloc: Global, tree: &mut T, text: &str) -> May<Txt, BadPath> {
    let path = path(alloc, text)?;
    Ok(read(alloc, tree, &path)?)
}

/// A file of one byte is placed at the path to which a text leads.
pub(crate) fn place_at<T: Tree>(alloc: Global, tree: &mut T, text: &str) -> May<Txt, BadPath> {
    let path = path(alloc, text)?;
    Ok(place(alloc, tree, path)?)
}

/// Plans and puts tell nothing.
fn step(alloc: Global, tree: &mut MemTree, step: &str) -> May<Txt, BadPath> {
    let (call, given) = word(step);
    match call {
        "put" => put(alloc, tree, given),
        "fail_read" => fail_read(alloc, tree, given),
        "fail_place" => fail_place(alloc, tree, given),
        "read" => read_at(alloc, tree, given),
        "place" => place_at(alloc, tree, given),
        _ => Ok(Txt::of(alloc, "no step")?),
    }
}

fn step_told(alloc: Global, tree: &mut MemTree, one: &str) -> Mem<Txt> {
    match step(alloc, tree, one) {
        Ok(told) => Ok(told),
        Err(Miss::Because(_)) => Txt::of(alloc, "BadPath"),
        Err(Miss::OutOfMemory) => Err(OutOfMemory),
    }
}

fn steps(alloc: Global, tree: &mut MemTree, given: &str, told: &mut String) -> Mem<()> {
    for one in given.split(';') {
        let answer = step_told(alloc, tree, one)?;
        tell(told, &answer)?;
    }
    Ok(())
}

/// What each step on an empty tree gives.
pub(crate) fn tree(alloc: Global, given: &str) -> Mem<Txt> {
    let mut tree = MemTree::new(alloc);
    let mut told = String::new(alloc);
    steps(alloc, &mut tree, given, &mut told)?;
    Ok(Txt::of_string(told))
}

fn write(alloc: Global, sink: &mut MemSink, text: &str) -> Mem<Txt> {
    match sink.write(text.as_bytes()) {
        Ok(count) => Ok(Txt::of_string(format!(in alloc; "{count}")?)),
        Err(_) => Txt::of(alloc, "failed"),
    }
}

fn writes(alloc: Global, sink: &mut MemSink, given: &str, told: &mut String) -> Mem<()> {
    for text in given.split(' ') {
        let answer = write(alloc, sink, text)?;
        tell(told, &answer)?;
    }
    Ok(())
}

fn is_written(sink: &MemSink, told: &mut String) -> Mem<()> {
    match str::from_utf8(sink.bytes()) {
        Ok(text) => told.push_str(text)?,
        Err(_) => told.push_str("no text")?,
    }
    Ok(())
}

/// What each write to a sink with some room takes, and what is written at last.
pub(crate) fn sink(alloc: Global, given: &str) -> Mem<Txt> {
    let (room, texts) = both(given);
    let mut told = String::new(alloc);
    let mut sink = MemSink::new(alloc, number(room))?;
    writes(alloc, &mut sink, texts, &mut told)?;
    is_written(&sink, &mut told)?;
    Ok(Txt::of_string(told))
}
