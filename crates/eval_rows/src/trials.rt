//! A trial: a text is run, its function is called, and its questions are answered.
ghost use Rattle.std.specs.Prelude.{◌≡◌};

use bz_base::{Refusal, Steps};
use bz_text::{May, Mem, Miss, OutOfMemory, Seq, Txt};
use star_core::{Answer, Answers, Args, Cell, Fault, Heap, Question, Scopes, Val};
use star_eval::{Evaluation, Files, SharedFile, Store, TurnEnd, begin_call, begin_file, turn};
use star_fakes::MethodHost;
use star_parse::parse_bzl;
use star_print::to_repr;
use star_standard::Standard;
use std::alloc::Global;
use std::marker::Brand;
use std::sync::ledger::{Blank, Ledger};

/// How many steps the run of a file may make.
const FILE_LIMIT: u64 = 1_000_000;

/// The value of a free name: a constant, or a function of the library.
fn free_value(heap: &mut Heap, alloc: Global, name: &Txt) -> May<Val, Fault> {
    match name.as_str() {
        "None" => Ok(Val::None),
        "True" => Ok(Val::Bool(true)),
        "False" => Ok(Val::Bool(false)),
        _ => heap.make(Cell::Builtin(name.copy(alloc)?)),
    }
}

fn free_values(heap: &mut Heap, alloc: Global, names: &[Txt]) -> May<Vec<Val>, Fault> {
    let mut values = Vec::new(alloc);
    for name in names {
        values.push(free_value(heap, alloc, name)?)?;
    }
    Ok(values)
}

/// The run of a text, at its beginning; None where the text is no file.
fn begun(alloc: Global, text: &str) -> Mem<Option<Evaluation>> {
    match parse_bzl(alloc, text) {
        Ok(file) => Ok(Some(begun_file(alloc, SharedFile::new(alloc, file)?)?)),
        Err(Miss::OutOfMemory) => Err(OutOfMemory),
        Err(Miss::Because(_)) => Ok(None),
    }
}

fn begun_file(alloc: Global, file: SharedFile) -> Mem<Evaluation> {
    let mut heap = Heap::new(alloc);
    let values = match free_values(&mut heap, alloc, file.get().free.items()) {
        Ok(values) => values,
        Err(_) => return Err(OutOfMemory),
    };
    let store = Store {
        files: Files::new(alloc)?,
        scopes: Scopes::new(alloc),
        heap,
    };
    let name = Txt::of(alloc, "t.bzl")?;
    begin_file(alloc, store, file, name, values.as_slice(), FILE_LIMIT)
}

/// A call of the first global with an object of the host, at its beginning.
fn called(alloc: Global, store: Store, limit: u64) -> Mem<Option<Evaluation>> {
    let Some(f) = store.scopes.get(1, 0) else {
        return Ok(None);
    };
    let mut store = store;
    let object = Cell::Host {
        kind: Txt::of(alloc, "object")?,
        fields: Seq::new(alloc),
    };
    match store.heap.make(object) {
        Ok(object) => Ok(Some(begin_call(alloc, store, f, &[object], limit)?)),
        Err(_) => Err(OutOfMemory),
    }
}

fn told(alloc: Global, refusal: &Refusal) -> Mem<Txt> {
    let code = refusal.code.name();
    let detail = refusal.detail.as_str();
    let file = refusal.file.as_str();
    let line = refusal.line;
    Ok(Txt::of_string(format!(in alloc; "{code} {detail} {file}:{line}")?))
}

fn printed(heap: &Heap, value: &Val) -> Mem<Txt> {
    match to_repr(heap, value) {
        Ok(text) => Ok(text),
        Err(_) => Err(OutOfMemory),
    }
}

/// What a turn ended with, in a word or as the value's text.
fn ended(alloc: Global, evaluation: &Evaluation, end: &TurnEnd) -> Mem<Txt> {
    match end {
        TurnEnd::Done(value) => printed(&evaluation.machine.heap, value),
        TurnEnd::Refused(refusal) => told(alloc, refusal),
        TurnEnd::Asks(_) => Txt::of(alloc, "asks"),
    }
}

/// Turns an evaluation once.
fn turned<C: Ledger>(
    alloc: Global,
    evaluation: &mut Evaluation,
    host: &mut MethodHost,
    answers: &Answers,
    steps: &mut Steps<C>,
) -> Mem<Txt> {
    let end = turn(evaluation, &Standard, host, answers, steps)?;
    ended(alloc, evaluation, &end)
}

fn answer(alloc: Global, answers: &mut Answers) -> Mem<()> {
    let question = Question::Env(Txt::of(alloc, "P")?);
    answers.add(question, Answer::Text(Txt::of(alloc, "1")?))
}

/// Two turns of an evaluation, between which the host's question is answered: what each ended with,
/// and the steps of both.
fn two_turns<C: Ledger>(
    alloc: Global,
    evaluation: &mut Evaluation,
    steps: &mut Steps<C>,
) -> Mem<Txt> {
    let mut host = MethodHost { calls: 0 };
    let mut answers = Answers::new(alloc);
    let first = turned(alloc, evaluation, &mut host, &answers, steps)?;
    let mut last = Txt::of(alloc, "")?;
    if first.as_str() == "asks" {
        answer(alloc, &mut answers)?;
        last = turned(alloc, evaluation, &mut host, &answers, steps)?;
    }
    let (first, last) = (first.as_str(), last.as_str());
    let (count, spent) = (evaluation.count(), steps.spent());
    Ok(Txt::of_string(format!(in alloc; "{first} {last} {count} {spent}")?))
}

fn run<C: Ledger>(alloc: Global, text: &str, limit: u64, steps: &mut Steps<C>) -> Mem<Txt> {
    let Some(mut file) = begun(alloc, text)? else {
        return Txt::of(alloc, "no file");
    };
    let mut host = MethodHost { calls: 0 };
    let end = turned(alloc, &mut file, &mut host, &Answers::new(alloc), steps)?;
    if end.as_str() != "None" {
        return Ok(end);
    }
    match called(alloc, file.into_store(), limit)? {
        None => Txt::of(alloc, "no function"),
        Some(mut call) => two_turns(alloc, &mut call, steps),
    }
}

fn outcome_on<C: Ledger>(ledger: Blank, alloc: Global, text: &Txt, limit: u64) -> Mem<Txt>
    requires name { ledger.name ≡ C.name }
    requires parts { ledger.parts ≡ C.parts }
{
    let mut steps: Steps<C> = Steps::of(ledger);
    run(alloc, text.as_str(), limit, &mut steps)
}

/// What comes of a text whose first global is called, which may make so many steps: what the turns
/// of the call ended with, its steps, and those of the file and the call.
pub fn outcome(alloc: Global, text: &str, limit: u64) -> Mem<Txt> {
    let text = Txt::of(alloc, text)?;
    outcome_on::<Brand>(Blank::new(1), alloc, &text, limit)
}

/// The text of a function that gives an expression, or what a change leaves of a value.
fn text_of(alloc: Global, row: &str) -> Mem<Txt> {
    let text = match row.split_once(" :: ") {
        None => format!(in alloc; "def f(o):\n    return {row}\n")?,
        Some((value, change)) => {
            format!(in alloc; "def f(o):\n    x = {value}\n    {change}\n    return x\n")?
        }
    };
    Ok(Txt::of_string(text))
}

/// Whether an outcome begins with a value's text, or with a fault.
fn begins(alloc: Global, outcome: &str, want: &str) -> Mem<bool> {
    let behind = if want.starts_with("Fault ") {
        " "
    } else {
        "  "
    };
    let front = format!(in alloc; "{want}{behind}")?;
    Ok(outcome.starts_with(front.as_str()))
}

/// The first line of a table that doesn't give what stands beside it, with what it gives.
pub fn first_wrong(alloc: Global, table: &str, limit: u64) -> Mem<Option<Txt>> {
    for line in table.split('\n') {
        let Some((row, want)) = line.split_once(" => ") else {
            return Ok(Some(Txt::of(alloc, line)?));
        };
        let text = text_of(alloc, row)?;
        let got = outcome(alloc, text.as_str(), limit)?;
        if !begins(alloc, got.as_str(), want)? {
            let got = got.as_str();
            return Ok(Some(Txt::of_string(format!(in alloc; "{row} => {got}")?)));
        }
    }
    Ok(None)
}
