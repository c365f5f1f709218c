//! Steps on a keeper of the lockfile in memory.
use crate::calls::{tell, word};
use bz_base::{Mem, OutOfMemory, Seq, Txt};
use bz_tree::{Loaded, LockKeeper, MemLock, OutsideFault};
use std::alloc::Global;

fn content(alloc: Global, loaded: &Loaded) -> Mem<Txt> {
    match loaded {
        Loaded::Bytes(bytes) => match str::from_utf8(bytes.items()) {
            Ok(text) => Txt::of(alloc, text),
            Err(_) => Txt::of(alloc, "no text"),
        },
        Loaded::Absent => Txt::of(alloc, "absent"),
        Loaded::Large => Txt::of(alloc, "large"),
    }
}

fn load(alloc: Global, lock: &mut MemLock) -> Mem<Txt> {
    match lock.load(alloc) {
        Ok(loaded) => content(alloc, &loaded),
        Err(OutsideFault::Failed) => Txt::of(alloc, "failed"),
        Err(OutsideFault::OutOfMemory) => Err(OutOfMemory),
    }
}

fn replace(alloc: Global, lock: &mut MemLock, text: &str) -> Mem<Txt> {
    let bytes = Seq::of_vec(String::from_str(alloc, text)?.into_bytes());
    match lock.replace(bytes) {
        Ok(()) => Txt::of(alloc, "replaced"),
        Err(_) => Txt::of(alloc, "failed"),
    }
}

fn step(alloc: Global, lock: &mut MemLock, step: &str) -> Mem<Txt> {
    let (call, given) = word(step);
    match call {
        "load" => load(alloc, lock),
        "replace" => replace(alloc, lock, given),
        "fail_load" => {
            lock.fail_load();
            Txt::of(alloc, "planned")
        }
        "fail_replace" => {
            lock.fail_replace(given == "keeping");
            Txt::of(alloc, "planned")
        }
        _ => Txt::of(alloc, "no step"),
    }
}

fn steps(alloc: Global, lock: &mut MemLock, given: &str, told: &mut String) -> Mem<()> {
    for one in given.split(';') {
        let answer = step(alloc, lock, one)?;
        tell(told, &answer)?;
    }
    Ok(())
}

/// What each step on a keeper of no lockfile gives.
pub(crate) fn lock(alloc: Global, given: &str) -> Mem<Txt> {
    let mut lock = MemLock::new(None);
    let mut told = String::new(alloc);
    steps(alloc, &mut lock, given, &mut told)?;
    Ok(Txt::of_string(told))
}
