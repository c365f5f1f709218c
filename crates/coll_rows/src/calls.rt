//! The call of a row, and what comes of it.
use crate::tables::{FROZEN, FUNCTIONS, METHODS, WALKED};
use crate::words::Words;
use bz_text::{May, Mem, Miss, Seq, Txt};
use star_coll::{CollFn, coll_call};
use star_core::{Args, Fault, Heap, NamedVal, Val};
use star_print::to_repr;
use std::alloc::Global;
use std::process::Abort;
use std::test::Fail;

/// How the containers of a row stand when it is called.
#[derive(Clone, Copy)]
enum Standing {
    Open,
    Frozen,
    Walked,
}

/// The arguments that were read, and the name of the next one, where it has one.
#[derive(Drop)]
struct Given<'w> {
    positional: Vec<Val>,
    named: Vec<NamedVal>,
    name: Option<&'w str>,
}

impl<'w> Given<'w> {
    fn new(alloc: Global) -> Given<'w> {
        Given {
            positional: Vec::new(alloc),
            named: Vec::new(alloc),
            name: None,
        }
    }

    fn add(&mut self, alloc: Global, val: Val) -> Mem<()> {
        match self.name {
            None => self.positional.push(val)?,
            Some(name) => {
                let name = Txt::of(alloc, name)?;
                self.named.push(NamedVal { name, val })?;
            }
        }
        self.name = None;
        Ok(())
    }

    fn into_args(self) -> Args {
        Args {
            positional: Seq::of_vec(self.positional),
            named: Seq::of_vec(self.named),
        }
    }
}

/// The arguments of a row's words.
fn arguments(heap: &mut Heap, text: &str) -> May<Args, Fault> {
    let alloc = heap.alloc();
    let mut words = Words::new(alloc);
    let mut given = Given::new(alloc);
    for word in text.split(' ') {
        if let Some((name, _)) = word.split_once('=') {
            given.name = Some(name);
        } else if !word.is_empty() {
            words.read(heap, word)?;
        }
        if let Some(value) = words.whole() {
            given.add(alloc, value)?;
        }
    }
    Ok(given.into_args())
}

fn stand(heap: &mut Heap, standing: Standing, receiver: Option<&Val>) {
    match standing {
        Standing::Open => {}
        Standing::Frozen => heap.freeze(),
        Standing::Walked => {
            if let Some(receiver) = receiver {
                heap.walk(receiver);
            }
        }
    }
}

fn function_in(heap: &Heap, receiver: Option<&Val>, name: &str) -> Result<CollFn, Fault> {
    let found = match receiver {
        None => CollFn::function(name),
        Some(receiver) => CollFn::method(heap, receiver, name),
    };
    match found {
        Some(function) => Ok(function),
        None => Err(Fault::Attr),
    }
}

/// Calls what stands first among some words with the others.
fn called(
    heap: &mut Heap,
    standing: Standing,
    receiver: Option<&Val>,
    call: &str,
) -> May<Val, Fault> {
    let (name, words) = call.split_once(' ').unwrap_or((call, ""));
    let function = match function_in(heap, receiver, name) {
        Ok(function) => function,
        Err(reason) => return Err(Miss::Because(reason)),
    };
    let args = arguments(heap, words)?;
    stand(heap, standing, receiver);
    coll_call(heap, function, receiver, &args)
}

/// The receiver of a row, of a method alone.
fn receiver_of(heap: &mut Heap, text: &str) -> May<Option<Val>, Fault> {
    let args = arguments(heap, text)?;
    Ok(args.positional.items().first().copied())
}

fn method_told(heap: &mut Heap, standing: Standing, of: &str, call: &str) -> May<Txt, Fault> {
    let receiver = receiver_of(heap, of)?;
    let value = called(heap, standing, receiver.as_ref(), call)?;
    let left = match receiver {
        Some(receiver) => to_repr(heap, &receiver)?,
        None => Txt::of(heap.alloc(), "")?,
    };
    let answer = to_repr(heap, &value)?;
    let (answer, left) = (answer.as_str(), left.as_str());
    Ok(Txt::of_string(format!(in heap.alloc(); "{answer}; {left}")?))
}

fn function_told(heap: &mut Heap, standing: Standing, call: &str) -> May<Txt, Fault> {
    let value = called(heap, standing, None, call)?;
    to_repr(heap, &value)
}

fn row_told(alloc: Global, standing: Standing, row: &str) -> May<Txt, Fault> {
    let mut heap = Heap::new(alloc);
    match row.split_once(" . ") {
        Some((of, call)) => method_told(&mut heap, standing, of, call),
        None => function_told(&mut heap, standing, row),
    }
}

fn fault_text(fault: Fault) -> &'static str {
    match fault {
        Fault::Kind => "!type",
        Fault::Value => "!value",
        Fault::Arity => "!arity",
        Fault::Attr => "!attr",
        Fault::Index => "!index",
        Fault::Key => "!key",
        Fault::Frozen => "!frozen",
        Fault::Iterating => "!iterating",
        _ => "!other",
    }
}

fn outcome(alloc: Global, standing: Standing, row: &str) -> Mem<Txt> {
    match row_told(alloc, standing, row) {
        Ok(text) => Ok(text),
        Err(Miss::Because(fault)) => Txt::of(alloc, fault_text(fault)),
        Err(Miss::OutOfMemory) => Txt::of(alloc, "!memory"),
    }
}

/// The first line of a table of which something else comes, with what comes.
fn first_wrong(alloc: Global, standing: Standing, table: &str) -> Mem<Option<Txt>> {
    for line in table.split('\n') {
        let (row, want) = line.split_once(" => ").unwrap_or((line, ""));
        let got = outcome(alloc, standing, row)?;
        let got = got.as_str();
        if got != want {
            return Ok(Some(Txt::of_string(format!(in alloc; "{row} => {got}")?)));
        }
    }
    Ok(None)
}

fn hold<R: AllocGlobal + Abort>(rt: &R, standing: Standing, table: &str) -> Result<(), Fail> {
    if let Some(line) = first_wrong(rt.alloc(), standing, table)? {
        assert_eq!(rt; line.as_str(), "");
    }
    Ok(())
}

#[test]
fn arguments_have_names(rt: HostRuntime) -> Result<(), Fail> {
    hold(&rt, Standing::Open, FUNCTIONS)?;
    hold(&rt, Standing::Open, METHODS)
}

#[test]
fn frozen_and_walked_containers_are_read_alone(rt: HostRuntime) -> Result<(), Fail> {
    hold(&rt, Standing::Frozen, FROZEN)?;
    hold(&rt, Standing::Walked, WALKED)
}
