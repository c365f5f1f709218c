//! Calls on texts, digests and keys.
use crate::calls::{both, truth};
use bz_base::{Key, Mem, Txt, cut_at, digest_base64, digest_hex, same_bytes};
use std::alloc::Global;

/// Whether a text, copied and handed over, is the same as another.
pub(crate) fn same(alloc: Global, given: &str) -> Mem<Txt> {
    let (first, second) = both(given);
    let first = Txt::of(alloc, first)?;
    let copy = Txt::of_string(first.copy(alloc)?.into_string());
    let second = Txt::of(alloc, second)?;
    truth(alloc, copy.same(&second))
}

/// The two texts around the first `=`.
pub(crate) fn cut(alloc: Global, given: &str) -> Mem<Txt> {
    match cut_at(given, '=') {
        Some((front, behind)) => Ok(Txt::of_string(format!(in alloc; "{front} | {behind}")?)),
        None => Txt::of(alloc, "uncut"),
    }
}

pub(crate) fn bytes(alloc: Global, given: &str) -> Mem<Txt> {
    let (first, second) = both(given);
    truth(alloc, same_bytes(first.as_bytes(), second.as_bytes()))
}

pub(crate) fn hex(alloc: Global, given: &str) -> Mem<Txt> {
    digest_hex(alloc, given.as_bytes())
}

pub(crate) fn base64(alloc: Global, given: &str) -> Mem<Txt> {
    digest_base64(alloc, given.as_bytes())
}

fn key_of(alloc: Global, name: &str, version: &str) -> Mem<Key> {
    Ok(Key {
        name: Txt::of(alloc, name)?,
        version: Txt::of(alloc, version)?,
    })
}

/// The text of a key's copy, which is the same key.
pub(crate) fn key(alloc: Global, given: &str) -> Mem<Txt> {
    let (name, version) = both(given);
    let key = key_of(alloc, name, version)?;
    let copy = key.copy(alloc)?;
    if !key.same(&copy) {
        return Txt::of(alloc, "another key");
    }
    copy.text(alloc)
}
