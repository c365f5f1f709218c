//! Calls on versions.
use crate::calls::both;
use bz_base::{May, Mem, Miss, OutOfMemory, Txt};
use bz_version::{BadVersion, Version, order_texts};
use std::alloc::Global;
use std::cmp::Ordering;

fn order_word(order: Ordering) -> &'static str {
    match order {
        Ordering::Less => "below",
        Ordering::Equal => "equal",
        Ordering::Greater => "above",
    }
}

/// What comes of a text that is none, or wants memory.
fn fault(alloc: Global, miss: Miss<BadVersion>) -> Mem<Txt> {
    match miss {
        Miss::Because(fault) => {
            let place = fault.place;
            Ok(Txt::of_string(format!(in alloc; "fault {place}")?))
        }
        Miss::OutOfMemory => Err(OutOfMemory),
    }
}

/// The text of a version's copy between quotes, and whether it is the empty version.
fn shown(alloc: Global, version: &Version) -> Mem<Txt> {
    let copy = version.copy(alloc)?;
    let text = copy.text();
    let front = if version.is_empty() { "empty " } else { "" };
    Ok(Txt::of_string(format!(in alloc; "{front}\"{text}\"")?))
}

pub(crate) fn version(alloc: Global, text: &str) -> Mem<Txt> {
    match Version::parse(alloc, text) {
        Ok(version) => shown(alloc, &version),
        Err(miss) => fault(alloc, miss),
    }
}

/// The text that a version hands over.
pub(crate) fn kept(alloc: Global, text: &str) -> Mem<Txt> {
    match Version::parse(alloc, text) {
        Ok(version) => Ok(version.into_text()),
        Err(miss) => fault(alloc, miss),
    }
}

fn order_words(alloc: Global, first: &Version, second: &Version) -> Mem<Txt> {
    let there = order_word(first.order(second));
    let back = order_word(second.order(first));
    Ok(Txt::of_string(format!(in alloc; "{there} {back}")?))
}

/// The order of two versions, each beside the other.
fn both_orders(alloc: Global, first: &str, second: &str) -> May<Txt, BadVersion> {
    let first = Version::parse(alloc, first)?;
    let second = Version::parse(alloc, second)?;
    Ok(order_words(alloc, &first, &second)?)
}

/// How a version stands to another, and the other to it.
pub(crate) fn orders(alloc: Global, first: &str, second: &str) -> Mem<Txt> {
    match both_orders(alloc, first, second) {
        Ok(words) => Ok(words),
        Err(miss) => fault(alloc, miss),
    }
}

pub(crate) fn order(alloc: Global, given: &str) -> Mem<Txt> {
    let (first, second) = both(given);
    orders(alloc, first, second)
}

pub(crate) fn text_order(alloc: Global, given: &str) -> Mem<Txt> {
    let (first, second) = both(given);
    Txt::of(alloc, order_word(order_texts(first, second)))
}
