//! Calls on labels and repository mappings.
use crate::calls::{both, tell, truth, word};
use bz_base::{
    Label, May, Mem, Miss, NotPlain, OutOfMemory, Txt, is_apparent, is_canonical, read_label,
};
use bz_label::{LabelMiss, Mapping, Taken, resolve};
use std::alloc::Global;

/// A pair `APPARENT CANONICAL` is put behind the others of a mapping.
fn add(alloc: Global, map: &mut Mapping, pair: &str) -> May<(), Taken> {
    let (apparent, canonical) = word(pair);
    if !is_apparent(apparent) || !is_canonical(canonical) {
        return Err(Miss::Because(Taken));
    }
    map.add(alloc, Txt::of(alloc, apparent)?, Txt::of(alloc, canonical)?)
}

fn add_told(alloc: Global, map: &mut Mapping, pair: &str) -> Mem<Txt> {
    match add(alloc, map, pair) {
        Ok(()) => Txt::of(alloc, "added"),
        Err(Miss::Because(Taken)) => Txt::of(alloc, "Taken"),
        Err(Miss::OutOfMemory) => Err(OutOfMemory),
    }
}

fn set(alloc: Global, map: &mut Mapping, pair: &str) -> Mem<Txt> {
    let (apparent, canonical) = word(pair);
    if !is_apparent(apparent) || !is_canonical(canonical) {
        return Txt::of(alloc, "no names");
    }
    map.set(alloc, Txt::of(alloc, apparent)?, Txt::of(alloc, canonical)?)?;
    Txt::of(alloc, "set")
}

fn get(alloc: Global, map: &Mapping, apparent: &str) -> Mem<Txt> {
    match map.get(apparent) {
        Some(canonical) => canonical.copy(alloc),
        None => Txt::of(alloc, "none"),
    }
}

/// The first pair, and how many there are.
fn first(alloc: Global, map: &Mapping) -> Mem<Txt> {
    let count = map.len();
    if count == 0 {
        return Txt::of(alloc, "empty");
    }
    let (apparent, canonical) = map.at(0);
    let canonical = canonical.as_str();
    Ok(Txt::of_string(format!(in alloc; "{apparent} {canonical} of {count}")?))
}

fn step(alloc: Global, map: &mut Mapping, step: &str) -> Mem<Txt> {
    let (call, given) = word(step);
    match call {
        "add" => add_told(alloc, map, given),
        "set" => set(alloc, map, given),
        "get" => get(alloc, map, given),
        "first" => first(alloc, map),
        _ => Txt::of(alloc, "no step"),
    }
}

fn steps(alloc: Global, map: &mut Mapping, given: &str, told: &mut String) -> Mem<()> {
    for one in given.split(';') {
        let answer = step(alloc, map, one)?;
        tell(told, &answer)?;
    }
    Ok(())
}

/// What each step on an empty mapping gives.
pub(crate) fn mapping(alloc: Global, given: &str) -> Mem<Txt> {
    let mut map = Mapping::new(alloc);
    let mut told = String::new(alloc);
    steps(alloc, &mut map, given, &mut told)?;
    Ok(Txt::of_string(told))
}

fn home_file(alloc: Global) -> Mem<Label> {
    Ok(Label {
        repo: Txt::of(alloc, "h+")?,
        package: Txt::of(alloc, "p")?,
        name: Txt::of(alloc, "f")?,
    })
}

fn parts(alloc: Global, label: &Label) -> Mem<Txt> {
    let (repo, package) = (label.repo.as_str(), label.package.as_str());
    let name = label.name.as_str();
    Ok(Txt::of_string(format!(in alloc; "{repo} | {package} | {name}")?))
}

fn meaning_told(alloc: Global, meaning: May<Label, LabelMiss>) -> Mem<Txt> {
    match meaning {
        Ok(label) => parts(alloc, &label),
        Err(Miss::Because(LabelMiss::BadLabel)) => Txt::of(alloc, "BadLabel"),
        Err(Miss::Because(LabelMiss::NotVisible { .. })) => Txt::of(alloc, "NotVisible"),
        Err(Miss::OutOfMemory) => Err(OutOfMemory),
    }
}

fn meaning(alloc: Global, map: &Mapping, text: &str) -> Mem<Txt> {
    let home = home_file(alloc)?;
    let meaning = resolve(alloc, map, &home, text);
    meaning_told(alloc, meaning)
}

/// The parts of the label that a text means in the file `@@h+//p:f`, under one pair or none.
pub(crate) fn resolved(alloc: Global, given: &str) -> Mem<Txt> {
    let (pair, text) = both(given);
    let mut map = Mapping::new(alloc);
    if pair != "" {
        add_told(alloc, &mut map, pair)?;
    }
    meaning(alloc, &map, text)
}

fn is_copied(alloc: Global, text: &str) -> May<bool, NotPlain> {
    let label = read_label(alloc, text)?;
    let copy = label.copy(alloc)?;
    Ok(label.same(&copy))
}

/// Whether a label's copy is the same label.
pub(crate) fn label_copy(alloc: Global, text: &str) -> Mem<Txt> {
    match is_copied(alloc, text) {
        Ok(holds) => truth(alloc, holds),
        Err(Miss::Because(NotPlain)) => Txt::of(alloc, "NotPlain"),
        Err(Miss::OutOfMemory) => Err(OutOfMemory),
    }
}
