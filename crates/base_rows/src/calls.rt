//! A row is `CALL GIVEN => WANT`: the call's name, what it is given, with a bar between two texts,
//! and what comes of it as one text. An empty text is nothing.
use crate::label_calls::{label_copy, mapping, resolved};
use crate::lock_calls::lock;
use crate::outside_calls::{sink, tree};
use crate::path_calls::joined;
use crate::text_calls::{base64, bytes, cut, hex, key, same};
use crate::value_calls::{equal, is_pair, kind, pair, reread};
use crate::version_calls::{kept, order, text_order, version};
use bz_base::{Mem, Txt};
use std::alloc::Global;

/// The texts on both sides of the first bar.
pub(crate) fn both(given: &str) -> (&str, &str) {
    match given.split_once(" | ") {
        Some(both) => both,
        None => (given, ""),
    }
}

/// The first word, and what stands behind its space.
pub(crate) fn word(text: &str) -> (&str, &str) {
    match text.split_once(' ') {
        Some(both) => both,
        None => (text, ""),
    }
}

pub(crate) fn truth(alloc: Global, holds: bool) -> Mem<Txt> {
    Txt::of(alloc, if holds { "true" } else { "false" })
}

fn answer(alloc: Global, call: &str, given: &str) -> Mem<Txt> {
    match call {
        "same" => same(alloc, given),
        "cut" => cut(alloc, given),
        "bytes" => bytes(alloc, given),
        "hex" => hex(alloc, given),
        "base64" => base64(alloc, given),
        "key" => key(alloc, given),
        "join" => joined(alloc, given),
        _ => answer_of_names(alloc, call, given),
    }
}

fn answer_of_names(alloc: Global, call: &str, given: &str) -> Mem<Txt> {
    match call {
        "version" => version(alloc, given),
        "kept" => kept(alloc, given),
        "order" => order(alloc, given),
        "text_order" => text_order(alloc, given),
        "resolve" => resolved(alloc, given),
        "mapping" => mapping(alloc, given),
        "label_copy" => label_copy(alloc, given),
        _ => answer_of_values(alloc, call, given),
    }
}

fn answer_of_values(alloc: Global, call: &str, given: &str) -> Mem<Txt> {
    match call {
        "kind" => kind(alloc, given),
        "equal" => equal(alloc, given),
        "pair" => pair(alloc, given),
        "is_pair" => is_pair(alloc, given),
        "reread" => reread(alloc, given),
        "tree" => tree(alloc, given),
        "lock" => lock(alloc, given),
        "sink" => sink(alloc, given),
        _ => Txt::of(alloc, "no call"),
    }
}

/// What comes of the call on the left of a line.
fn outcome(alloc: Global, row: &str) -> Mem<Txt> {
    let (call, given) = word(row);
    answer(alloc, call, given)
}

/// An answer is told behind the others; one that is empty isn't.
pub(crate) fn tell(told: &mut String, answer: &Txt) -> Mem<()> {
    if answer.as_str() != "" {
        told.push_str(answer.as_str())?;
        told.push_str(";")?;
    }
    Ok(())
}

fn compared(alloc: Global, row: &str, want: &str) -> Mem<Option<Txt>> {
    let got = outcome(alloc, row)?;
    let got = got.as_str();
    if got == want {
        return Ok(None);
    }
    Ok(Some(Txt::of_string(format!(in alloc; "{row} => {got}")?)))
}

/// A line that doesn't give what stands beside it, with what it gives.
fn wrong(alloc: Global, line: &str) -> Mem<Option<Txt>> {
    match line.split_once(" => ") {
        Some((row, want)) => compared(alloc, row, want),
        None => Ok(Some(Txt::of(alloc, line)?)),
    }
}

/// The first line of a table that doesn't give what stands beside it, with what it gives.
pub(crate) fn first_wrong(alloc: Global, table: &str) -> Mem<Option<Txt>> {
    for line in table.split('\n') {
        let wrong = wrong(alloc, line)?;
        if wrong.is_some() {
            return Ok(wrong);
        }
    }
    Ok(None)
}
