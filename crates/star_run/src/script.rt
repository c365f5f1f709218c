//! The run of a text, and what is printed of it.
ghost use Rattle.std.specs.Prelude.{◌≡◌};

use crate::globals::globals;
use bz_base::{Refusal, Steps};
use bz_text::{May, Mem, Miss, OutOfMemory, Seq, Txt};
use star_core::{Answers, Cell, Fault, Heap, MemHost, Scopes, Val};
use star_eval::{Evaluation, Files, SharedFile, Store, TurnEnd, begin_file, turn};
use star_parse::{ParseFault, parse_bzl};
use star_print::to_repr;
use star_standard::Standard;
use star_trees::File;
use std::alloc::Global;
use std::marker::Brand;
use std::sync::ledger::{Blank, Ledger};

/// How many steps a text may make.
const LIMIT: u64 = 100_000_000;

/// What is printed of a run, and the program's status.
#[derive(Drop)]
pub struct Ran {
    pub text: Txt,
    pub status: u8,
}

/// Runs a text.
pub fn run_text(alloc: Global, text: &str) -> Mem<Ran> {
    match parse_bzl(alloc, text) {
        Ok(file) => run_file(alloc, file),
        Err(Miss::OutOfMemory) => Err(OutOfMemory),
        Err(Miss::Because(fault)) => refused(fault_text(alloc, &fault)?),
    }
}

fn refused(text: Txt) -> Mem<Ran> {
    Ok(Ran { text, status: 1 })
}

fn fault_text(alloc: Global, fault: &ParseFault) -> Mem<Txt> {
    let text = match fault {
        ParseFault::Lex { hint } => format!(in alloc; "refused Lex at line {hint}\n")?,
        ParseFault::Syntax { hint } => format!(in alloc; "refused Syntax at line {hint}\n")?,
        ParseFault::Dialect { line, form } => {
            let form = form.as_str();
            format!(in alloc; "refused Dialect {form} at line {line}\n")?
        }
        ParseFault::Unbound { line, name } => {
            let name = name.as_str();
            format!(in alloc; "refused Unbound {name} at line {line}\n")?
        }
    };
    Ok(Txt::of_string(text))
}

fn run_file(alloc: Global, file: File) -> Mem<Ran> {
    if !file.loads.items().is_empty() {
        return refused(Txt::of(alloc, "refused Unsupported load\n")?);
    }
    let names = globals(alloc, &file)?;
    run_counted::<Brand>(
        Blank::new(1),
        alloc,
        SharedFile::new(alloc, file)?,
        names.items(),
    )
}

fn run_counted<C: Ledger>(ledger: Blank, alloc: Global, file: SharedFile, names: &[Txt]) -> Mem<Ran>
    requires name { ledger.name ≡ C.name }
    requires parts { ledger.parts ≡ C.parts }
{
    let mut steps: Steps<C> = Steps::of(ledger);
    let mut evaluation = begun(alloc, file)?;
    let mut host = MemHost { calls: 0 };
    let end = turn(
        &mut evaluation,
        &Standard,
        &mut host,
        &Answers::new(alloc),
        &mut steps,
    )?;
    told(alloc, &evaluation, &end, names)
}

/// The value of a free name: a constant, or a function of the library.
fn free_value(heap: &mut Heap, alloc: Global, name: &Txt) -> May<Val, Fault> {
    match name.as_str() {
        "None" => Ok(Val::None),
        "True" => Ok(Val::Bool(true)),
        "False" => Ok(Val::Bool(false)),
        _ => heap.make(Cell::Builtin(name.copy(alloc)?)),
    }
}

fn free_values(heap: &mut Heap, alloc: Global, names: &[Txt]) -> May<Seq<Val>, Fault> {
    let mut values = Vec::new(alloc);
    for name in names {
        values.push(free_value(heap, alloc, name)?)?;
    }
    Ok(Seq::of_vec(values))
}

fn begun(alloc: Global, file: SharedFile) -> Mem<Evaluation> {
    let mut heap = Heap::new(alloc);
    let Ok(values) = free_values(&mut heap, alloc, file.get().free.items()) else {
        return Err(OutOfMemory);
    };
    let store = Store {
        files: Files::new(alloc)?,
        scopes: Scopes::new(alloc),
        heap,
    };
    let name = Txt::of(alloc, "stdin")?;
    begin_file(alloc, store, file, name, values.items(), LIMIT)
}

/// What is printed of an evaluation that ended.
fn told(alloc: Global, evaluation: &Evaluation, end: &TurnEnd, names: &[Txt]) -> Mem<Ran> {
    let count = evaluation.count();
    match end {
        TurnEnd::Done(_) => {
            let text = globals_text(alloc, evaluation, names)?;
            let text = text.as_str();
            Ok(Ran {
                text: Txt::of_string(format!(in alloc; "{text}steps {count}\n")?),
                status: 0,
            })
        }
        TurnEnd::Refused(refusal) => refused(refusal_text(alloc, refusal, count)?),
        TurnEnd::Asks(_) => refused(Txt::of(alloc, "refused Unsupported\n")?),
    }
}

fn refusal_text(alloc: Global, refusal: &Refusal, count: u64) -> Mem<Txt> {
    let code = refusal.code.name();
    let space = if refusal.detail.as_str().is_empty() {
        ""
    } else {
        " "
    };
    let detail = refusal.detail.as_str();
    let line = refusal.line;
    let text = format!(in alloc; "refused {code}{space}{detail} at line {line}\nsteps {count}\n")?;
    Ok(Txt::of_string(text))
}

/// The globals that are set, each on a line.
fn globals_text(alloc: Global, evaluation: &Evaluation, names: &[Txt]) -> Mem<Txt> {
    let mut text = Txt::of(alloc, "")?;
    for (slot, name) in names.iter().enumerate() {
        text = with_global(alloc, evaluation, slot, name, text)?;
    }
    Ok(text)
}

fn with_global(
    alloc: Global,
    evaluation: &Evaluation,
    slot: usize,
    name: &Txt,
    text: Txt,
) -> Mem<Txt> {
    let machine = &evaluation.machine;
    let Ok(slot) = u32::try_from(slot) else {
        return Ok(text);
    };
    let Some(value) = machine.scopes.get(machine.task.scope, slot) else {
        return Ok(text);
    };
    let Ok(value) = to_repr(&machine.heap, &value) else {
        return Err(OutOfMemory);
    };
    let (text, name, value) = (text.as_str(), name.as_str(), value.as_str());
    Ok(Txt::of_string(format!(in alloc; "{text}{name} = {value}\n")?))
}
