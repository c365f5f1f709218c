//! The calls of a row, and what comes of them.
use crate::tables::{DECLARED, ELSEWHERE, IGNORED, REFUSED};
use crate::texts::{declared_text, refused_text};
use crate::words::{Words, value_given};
use bz_text::{May, Mem, Miss, OutOfMemory, Seq, Txt};
use module_arguments::Directive;
use module_directives::Role;
use module_host::{ModuleHost, make_directive};
use star_core::{Answers, Args, Fault, Heap, Host, HostStep, NamedVal, Val};
use std::alloc::Global;
use std::process::Abort;
use std::test::Fail;

/// The arguments that were read, and the name of the next one, where it has one.
#[derive(Drop)]
struct Given<'w> {
    positional: Vec<Val>,
    named: Vec<NamedVal>,
    name: Option<&'w str>,
}

impl<'w> Given<'w> {
    fn new(alloc: Global) -> Given<'w> {
        Given {
            positional: Vec::new(alloc),
            named: Vec::new(alloc),
            name: None,
        }
    }

    fn add(&mut self, alloc: Global, val: Val) -> Mem<()> {
        match self.name {
            None => self.positional.push(val)?,
            Some(name) => {
                let name = Txt::of(alloc, name)?;
                self.named.push(NamedVal { name, val })?;
            }
        }
        self.name = None;
        Ok(())
    }

    fn into_args(self) -> Args {
        Args {
            positional: Seq::of_vec(self.positional),
            named: Seq::of_vec(self.named),
        }
    }
}

/// The arguments of a call's words.
fn arguments(heap: &mut Heap, values: &[Val], text: &str) -> May<Args, Fault> {
    let alloc = heap.alloc();
    let mut words = Words::new(alloc);
    let mut given = Given::new(alloc);
    for word in text.split(' ') {
        if let Some((name, _)) = word.split_once('=') {
            given.name = Some(name);
        } else if !word.is_empty() {
            words.read(heap, values, word)?;
        }
        if let Some(value) = words.whole() {
            given.add(alloc, value)?;
        }
    }
    Ok(given.into_args())
}

/// A file that is read: its host, its heap, what each call gave, and the line of the next call.
#[derive(Drop)]
struct Reading {
    host: ModuleHost,
    heap: Heap,
    given: Vec<Val>,
    line: u64,
}

/// How a reading goes on: with the next call, or with an end that is told.
#[derive(Drop)]
enum Turn {
    On(Val),
    Ended(Txt),
}

impl Reading {
    fn begin(alloc: Global, role: Role) -> Mem<Reading> {
        Ok(Reading {
            host: ModuleHost::begin(alloc, Txt::of(alloc, "f")?, role),
            heap: Heap::new(alloc),
            given: Vec::new(alloc),
            line: 1,
        })
    }

    /// The object that is called, and the name of its method.
    fn callee<'t>(&mut self, alloc: Global, name: &'t str) -> May<(Val, &'t str), Fault> {
        if let Some((_, number)) = name.split_once('$') {
            let (number, method) = number.split_once('.').unwrap_or((number, ""));
            return Ok((value_given(self.given.as_slice(), number), method));
        }
        match Directive::of(name) {
            Some(directive) => Ok((make_directive(alloc, &mut self.heap, directive)?, "")),
            None => Err(Miss::Because(Fault::Unbound)),
        }
    }

    /// Makes a call.
    fn call(&mut self, alloc: Global, call: &str) -> May<Turn, Fault> {
        let (name, words) = call.split_once(' ').unwrap_or((call, ""));
        let (object, method) = self.callee(alloc, name)?;
        let args = arguments(&mut self.heap, self.given.as_slice(), words)?;
        let step = self.step(alloc, object, method, &args)?;
        self.line = self.line.saturating_add(1);
        Ok(turn_of(alloc, step)?)
    }

    fn step(&mut self, alloc: Global, object: Val, method: &str, args: &Args) -> Mem<HostStep> {
        let Val::Cell(number) = object else {
            return Ok(HostStep::NoAttribute);
        };
        let answers = Answers::new(alloc);
        self.host.call(
            alloc,
            &mut self.heap,
            number,
            method,
            args,
            self.line,
            &answers,
        )
    }

    /// Makes all calls of a row; what ends it before they are all made.
    fn run(&mut self, alloc: Global, row: &str) -> May<Option<Txt>, Fault> {
        for call in row.split(';') {
            match self.call(alloc, call.trim())? {
                Turn::On(value) => self.given.push(value)?,
                Turn::Ended(text) => return Ok(Some(text)),
            }
        }
        Ok(None)
    }
}

fn turn_of(alloc: Global, step: HostStep) -> Mem<Turn> {
    match step {
        HostStep::Value(value) => Ok(Turn::On(value)),
        HostStep::Refused(refusal) => Ok(Turn::Ended(refused_text(alloc, &refusal)?)),
        HostStep::Asks(_) => Ok(Turn::Ended(Txt::of(alloc, "!asks")?)),
        HostStep::NoAttribute => Ok(Turn::Ended(Txt::of(alloc, "!lacks")?)),
    }
}

fn row_told(alloc: Global, role: Role, row: &str) -> May<Txt, Fault> {
    let mut reading = Reading::begin(alloc, role)?;
    match reading.run(alloc, row)? {
        Some(text) => Ok(text),
        None => Ok(declared_text(alloc, &reading.host.declared())?),
    }
}

fn outcome(alloc: Global, role: Role, row: &str) -> Mem<Txt> {
    match row_told(alloc, role, row) {
        Ok(text) => Ok(text),
        Err(Miss::Because(_)) => Txt::of(alloc, "!fault"),
        Err(Miss::OutOfMemory) => Err(OutOfMemory),
    }
}

/// The first line of a table of which something else comes, with what comes.
fn first_wrong(alloc: Global, role: Role, table: &str) -> Mem<Option<Txt>> {
    for line in table.split('\n') {
        let (row, want) = line.split_once(" => ").unwrap_or((line, ""));
        let got = outcome(alloc, role, row)?;
        let got = got.as_str();
        if got != want {
            return Ok(Some(Txt::of_string(format!(in alloc; "{row} => {got}")?)));
        }
    }
    Ok(None)
}

fn hold<R: AllocGlobal + Abort>(rt: &R, role: Role, table: &str) -> Result<(), Fail> {
    if let Some(line) = first_wrong(rt.alloc(), role, table)? {
        assert_eq!(rt; line.as_str(), "");
    }
    Ok(())
}

#[test]
fn each_directive_declares(rt: HostRuntime) -> Result<(), Fail> {
    hold(&rt, Role::Root { ignore_dev: false }, DECLARED)
}

#[test]
fn directives_are_refused(rt: HostRuntime) -> Result<(), Fail> {
    hold(&rt, Role::Root { ignore_dev: false }, REFUSED)
}

#[test]
fn what_does_not_count_is_dropped(rt: HostRuntime) -> Result<(), Fail> {
    hold(&rt, Role::Root { ignore_dev: true }, IGNORED)?;
    hold(&rt, Role::Other, ELSEWHERE)
}
