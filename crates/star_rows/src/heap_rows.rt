//! The heap: sizes, what is frozen or walked, and what a refusal leaves. A cell that is given is
//! dropped in a function of its own.
use bz_text::{May, Miss, Seq, Txt};
use star_core::{Cell, Dict, Fault, Heap, Pair, Val};
use std::alloc::Global;
use std::process::Abort;
use std::test::Fail;

/// A cell is made, or the fault that refuses it.
fn made(heap: &mut Heap, cell: Cell) -> Result<Val, Fault> {
    match heap.make(cell) {
        Ok(val) => Ok(val),
        Err(Miss::Because(fault)) => Err(fault),
        Err(Miss::OutOfMemory) => Err(Fault::Unbound),
    }
}

fn empty_list(heap: &mut Heap, alloc: Global) -> Result<Val, Fault> {
    made(heap, Cell::List(Seq::new(alloc)))
}

/// Why a content isn't taken.
fn refusal_of_taking(heap: &mut Heap, val: Val) -> Option<Fault> {
    match heap.take(&val) {
        Ok(_) => None,
        Err(fault) => Some(fault),
    }
}

/// Why an empty list with so much added isn't put back.
fn refusal_of_giving(heap: &mut Heap, alloc: Global, val: Val, added: u64) -> Option<Fault> {
    match heap.give(&val, Cell::List(Seq::new(alloc)), added) {
        Ok(()) => None,
        Err(fault) => Some(fault),
    }
}

#[test]
fn a_cell_is_what_was_made(rt: HostRuntime) -> Result<(), Fail> {
    let alloc = rt.alloc();
    let mut heap = Heap::new(alloc);
    let range = Cell::Range {
        first: 0,
        stop: 3,
        step: 1,
    };
    assert_eq!(rt; made(&mut heap, range), Ok(Val::Cell(0)));
    assert!(rt; matches!(heap.cell(&Val::Cell(0)), Some(Cell::Range { stop: 3, .. })));
    assert!(rt; heap.cell(&Val::Int(0)).is_none());
    assert!(rt; heap.cell(&Val::Bool(true)).is_none());
    assert!(rt; heap.cell(&Val::None).is_none());
    Ok(())
}

fn literal(heap: &mut Heap, text: Txt) -> May<Val, Fault> {
    heap.literal(text)
}

#[test]
fn a_literal_costs_nothing(rt: HostRuntime) -> Result<(), Fail> {
    let alloc = rt.alloc();
    let text = Txt::of(alloc, "b")?;
    let mut heap = Heap::new(alloc);
    let list = empty_list(&mut heap, alloc);
    assert_eq!(rt; list, Ok(Val::Cell(0)));
    assert_eq!(rt;
        refusal_of_giving(&mut heap, alloc, Val::Cell(0), 67_108_848),
        None
    );
    assert!(rt; matches!(literal(&mut heap, text), Ok(Val::Cell(1))));
    assert_eq!(rt; empty_list(&mut heap, alloc), Err(Fault::Size));
    Ok(())
}

#[test]
fn what_is_frozen_or_walked_stays(rt: HostRuntime) -> Result<(), Fail> {
    let alloc = rt.alloc();
    let mut heap = Heap::new(alloc);
    let old = Val::Cell(0);
    let list = Val::Cell(1);
    assert_eq!(rt; empty_list(&mut heap, alloc), Ok(old));
    heap.freeze();
    assert_eq!(rt; empty_list(&mut heap, alloc), Ok(list));
    heap.walk(&old);
    heap.walk(&list);
    assert_eq!(rt; refusal_of_taking(&mut heap, old), Some(Fault::Frozen));
    assert_eq!(rt; refusal_of_taking(&mut heap, list), Some(Fault::Iterating));
    heap.unwalk(&list);
    assert_eq!(rt; refusal_of_taking(&mut heap, list), None);
    assert_eq!(rt; refusal_of_taking(&mut heap, Val::None), Some(Fault::Kind));
    Ok(())
}

#[test]
fn sixty_four_mebibytes_and_a_byte_more(rt: HostRuntime) -> Result<(), Fail> {
    let alloc = rt.alloc();
    let mut heap = Heap::new(alloc);
    let list = Val::Cell(0);
    assert_eq!(rt; empty_list(&mut heap, alloc), Ok(list));
    // Making the list took 16 bytes of the 67,108,864.
    assert_eq!(rt;
        refusal_of_giving(&mut heap, alloc, list, 67_108_849),
        Some(Fault::Size)
    );
    assert_eq!(rt; refusal_of_giving(&mut heap, alloc, list, 67_108_848), None);
    assert_eq!(rt; empty_list(&mut heap, alloc), Err(Fault::Size));
    heap.restart();
    assert_eq!(rt; empty_list(&mut heap, alloc), Ok(Val::Cell(1)));
    Ok(())
}

/// A tuple of so many values is made, or the fault that refuses it.
fn made_tuple(alloc: Global, count: usize) -> Result<Result<Val, Fault>, Fail> {
    let mut items = Vec::new(alloc);
    for _ in 0..count {
        items.push(Val::None)?;
    }
    let mut heap = Heap::new(alloc);
    Ok(made(&mut heap, Cell::Tuple(Seq::of_vec(items))))
}

#[test]
fn the_largest_containers(rt: HostRuntime) -> Result<(), Fail> {
    let alloc = rt.alloc();
    assert_eq!(rt; made_tuple(alloc, 1_048_576)?, Ok(Val::Cell(0)));
    assert_eq!(rt; made_tuple(alloc, 1_048_577)?, Err(Fault::Size));
    Ok(())
}

/// A text of 2^24 bytes and the rest is made, or the fault that refuses it.
fn made_text(alloc: Global, rest: &str) -> Result<Result<Val, Fault>, Fail> {
    let mut text = String::from_str(alloc, "x")?;
    for _ in 0..24 {
        let copy = text.clone()?;
        text.push_str(copy.as_str())?;
    }
    text.push_str(rest)?;
    let mut heap = Heap::new(alloc);
    Ok(made(&mut heap, Cell::Text(Txt::of_string(text))))
}

#[test]
fn the_largest_texts(rt: HostRuntime) -> Result<(), Fail> {
    let alloc = rt.alloc();
    assert_eq!(rt; made_text(alloc, "")?, Ok(Val::Cell(0)));
    assert_eq!(rt; made_text(alloc, "x")?, Err(Fault::Size));
    Ok(())
}

fn put(dict: &mut Dict, content: Txt, key: i64, value: i64) -> Result<(), Fail> {
    let pair = Pair {
        key: Val::Int(key),
        value: Val::Int(value),
    };
    Ok(dict.put(content, pair)?)
}

fn two_keys(alloc: Global) -> Result<Dict, Fail> {
    let mut dict = Dict::new(alloc);
    for (content, key, value) in [("b", 1, 10), ("a", 2, 20), ("b", 3, 30)] {
        put(&mut dict, Txt::of(alloc, content)?, key, value)?;
    }
    Ok(dict)
}

#[test]
fn keys_keep_their_places(rt: HostRuntime) -> Result<(), Fail> {
    let alloc = rt.alloc();
    let mut dict = two_keys(alloc)?;
    assert_eq!(rt; dict.len(), 2);
    assert!(rt;
        matches!(
            dict.at(0),
            Some(Pair {
                value: Val::Int(30),
                ..
            })
        )
    );
    assert!(rt;
        matches!(
            dict.get("a"),
            Some(Pair {
                key: Val::Int(2),
                ..
            })
        )
    );
    assert!(rt; dict.remove("b").is_some());
    assert!(rt; dict.get("b").is_none());
    assert!(rt; dict.at(1).is_none());
    Ok(())
}
