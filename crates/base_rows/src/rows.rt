//! The tables hold, and what no table says.
use crate::calls::first_wrong;
use crate::tables::{LABELS, MAPPINGS, ORDERED, PATHS, TEXTS, TREES, VALUES, VERSIONS};
use crate::version_calls::orders;
use bz_base::{Code, Mem, OutOfMemory, Seq, Txt};
use std::alloc::Global;
use std::process::Abort;
use std::test::Fail;

fn hold<R: AllocGlobal + Abort>(rt: &R, table: &str) -> Result<(), Fail> {
    if let Some(line) = first_wrong(rt.alloc(), table)? {
        assert_eq!(rt; line.as_str(), "");
    }
    Ok(())
}

#[test]
fn texts_paths_and_values(rt: HostRuntime) -> Result<(), Fail> {
    hold(&rt, TEXTS)?;
    hold(&rt, PATHS)?;
    hold(&rt, VALUES)
}

#[test]
fn versions_and_labels(rt: HostRuntime) -> Result<(), Fail> {
    hold(&rt, ORDERED)?;
    hold(&rt, VERSIONS)?;
    hold(&rt, LABELS)?;
    hold(&rt, MAPPINGS)
}

#[test]
fn trees_and_sinks_in_memory(rt: HostRuntime) -> Result<(), Fail> {
    hold(&rt, TREES)
}

/// A text, and then one digit four hundred times.
fn digits(alloc: Global, front: &str, digit: &str) -> Mem<String> {
    let mut text = String::from_str(alloc, front)?;
    for _ in 0..400 {
        text.push_str(digit)?;
    }
    Ok(text)
}

fn order_of_digits(alloc: Global) -> Mem<Txt> {
    let shorter = digits(alloc, "", "9")?;
    let longer = digits(alloc, "1", "0")?;
    orders(alloc, shorter.as_str(), longer.as_str())
}

#[test]
fn numbers_of_hundreds_of_digits_compare_by_number(rt: HostRuntime) -> Result<(), Fail> {
    let order = order_of_digits(rt.alloc())?;
    assert_eq!(rt; order.as_str(), "below above");
    Ok(())
}

fn two_numbers(alloc: Global) -> Mem<Seq<u64>> {
    let mut numbers: Seq<u64> = Seq::new(alloc);
    if numbers.push(7).is_err() || numbers.push(8).is_err() {
        return Err(OutOfMemory);
    }
    Ok(Seq::of_vec(numbers.into_vec()))
}

#[test]
fn keeps_what_is_pushed(rt: HostRuntime) -> Result<(), Fail> {
    let numbers = two_numbers(rt.alloc())?;
    assert_eq!(rt; numbers.items(), [7, 8].as_slice());
    Ok(())
}

#[test]
fn prints_its_name(rt: HostRuntime) {
    assert_eq!(rt; Code::SourceNotLocal.name(), "SourceNotLocal");
}
