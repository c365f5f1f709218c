//! Calls of string methods on texts and small values.
use bz_text::{May, Mem, Miss, Seq, Txt};
use star_core::{Args, Cell, Fault, Heap, Val};
use star_format::percent;
use star_print::to_repr;
use star_text::{TextMethod, text_call};
use std::alloc::Global;

/// An argument of a row.
#[derive(Clone, Copy)]
pub enum Arg<'a> {
    Text(&'a str),
    Number(i64),
    Flag(bool),
    Pair(&'a str, &'a str),
    None,
}

/// A row: a method's name, the receiver, up to three arguments, and what comes of them.
#[derive(Clone, Copy)]
pub struct Row<'a> {
    pub method: &'a str,
    pub text: &'a str,
    pub args: &'a [Arg<'a>],
    pub gives: &'a str,
}

/// A new string.
pub fn text(heap: &mut Heap, alloc: Global, text: &str) -> May<Val, Fault> {
    heap.make(Cell::Text(Txt::of(alloc, text)?))
}

fn pair(heap: &mut Heap, alloc: Global, one: &str, other: &str) -> May<Val, Fault> {
    let one = text(heap, alloc, one)?;
    let other = text(heap, alloc, other)?;
    let mut items = Vec::new(alloc);
    items.push(one)?;
    items.push(other)?;
    heap.make(Cell::Tuple(Seq::of_vec(items)))
}

fn value(heap: &mut Heap, alloc: Global, arg: Arg<'_>) -> May<Val, Fault> {
    match arg {
        Arg::Text(one) => text(heap, alloc, one),
        Arg::Number(number) => Ok(Val::Int(number)),
        Arg::Flag(flag) => Ok(Val::Bool(flag)),
        Arg::Pair(one, other) => pair(heap, alloc, one, other),
        Arg::None => Ok(Val::None),
    }
}

fn arguments(heap: &mut Heap, alloc: Global, args: &[Arg<'_>]) -> May<Args, Fault> {
    let mut positional = Vec::new(alloc);
    for arg in args {
        positional.push(value(heap, alloc, *arg)?)?;
    }
    Ok(Args {
        positional: Seq::of_vec(positional),
        named: Seq::new(alloc),
    })
}

fn given(heap: &mut Heap, alloc: Global, method: TextMethod, row: &Row<'_>) -> May<Val, Fault> {
    let receiver = text(heap, alloc, row.text)?;
    let args = arguments(heap, alloc, row.args)?;
    text_call(heap, method, &receiver, &args)
}

/// A pattern is filled with the argument of a row.
fn filled(heap: &mut Heap, alloc: Global, row: &Row<'_>) -> May<Val, Fault> {
    let Some(arg) = row.args.first() else {
        return Err(Miss::Because(Fault::Arity));
    };
    let pattern = text(heap, alloc, row.text)?;
    let arg = value(heap, alloc, *arg)?;
    percent(heap, &pattern, &arg)
}

fn made(heap: &mut Heap, alloc: Global, row: &Row<'_>) -> May<Val, Fault> {
    if row.method == "%" {
        return filled(heap, alloc, row);
    }
    match TextMethod::of(row.method) {
        Some(method) => given(heap, alloc, method, row),
        None => Err(Miss::Because(Fault::Attr)),
    }
}

fn called(alloc: Global, row: &Row<'_>) -> May<Txt, Fault> {
    let mut heap = Heap::new(alloc);
    match made(&mut heap, alloc, row) {
        Ok(value) => to_repr(&heap, &value),
        Err(miss) => Err(miss),
    }
}

/// A kind of fault in a row.
pub fn fault_text(fault: Fault) -> &'static str {
    match fault {
        Fault::Kind => "!type",
        Fault::Value => "!value",
        Fault::Arity => "!arity",
        Fault::Attr => "!attr",
        Fault::Index => "!index",
        Fault::Key => "!key",
        _ => "!other",
    }
}

/// What comes of a row.
pub fn outcome(alloc: Global, row: &Row<'_>) -> Mem<Txt> {
    match called(alloc, row) {
        Ok(text) => Ok(text),
        Err(Miss::Because(fault)) => Txt::of(alloc, fault_text(fault)),
        Err(Miss::OutOfMemory) => Txt::of(alloc, "!memory"),
    }
}

/// The first row of which something else comes.
pub fn first_wrong<'r, 'a>(alloc: Global, rows: &'r [Row<'a>]) -> Mem<Option<&'r Row<'a>>> {
    for row in rows {
        if outcome(alloc, row)?.as_str() != row.gives {
            return Ok(Some(row));
        }
    }
    Ok(None)
}
