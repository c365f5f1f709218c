//! An evaluation: it is begun, turned, and turned again.
ghost use Rattle.std.specs.Prelude.{◌≡◌, ◌-◌, IfOk};
ghost use Rattle.star_core.specs.Tables.{Table};
ghost use Rattle.star_eval.specs.Evaluations as spec;
ghost use Rattle.star_core.specs.Heaps.{restarted};
ghost use Rattle.star_eval.specs.Evaluations.{AnswersFor, AsksOnly, IsBegun, IsCallBegun, IsEnd};
ghost use Rattle.star_eval.specs.Evaluations.{IsFileBegun, Stands, ticked};
ghost use Rattle.star_eval.specs.Loaded.{IsAdded};
ghost use Rattle.star_meaning.specs.Results.{Outcome};

use crate::files::Files;
use crate::reasons::{placed, refusal};
use crate::shared_file::SharedFile;
use bz_base::{Refusal, Steps};
use bz_text::{May, Mem, Miss, OutOfMemory, Txt};
use sqlite_items::Items;
use star_core::{Answers, Heap, Host, Question, Scopes, Stack, Val};
use star_machine::{Machine, Task, no_args};
use star_meaning::{Library, Place, Reason};
use star_turn::{Came, turn as run};
use std::alloc::Global;
use std::sync::ledger::Ledger;

/// The files so far, their variables and their heap.
#[derive(Drop)]
pub struct Store {
    pub files: Files,
    pub scopes: Scopes,
    pub heap: Heap,
}

/// The run of a file or of a call.
#[derive(Drop)]
pub struct Evaluation {
    pub files: Files,
    pub machine: Machine,
}

/// How a turn ends: with the value of the whole, with its refusal, or with a question of the host.
#[derive(Debug, Drop)]
pub enum TurnEnd {
    Done(Val),
    Refused(Refusal),
    Asks(Question),
}

/// Values as variables.
fn variables(alloc: Global, values: &[Val]) -> Mem<Items<Option<Val>>>
    ensures { IfOk result (λ slots. slots ≡ spec.set_slots values.now) }
{
    let mut slots = Items::new(alloc);
    for value in values {
        slots.push(Some(*value))?;
    }
    Ok(slots)
}

/// The run of a file, with the values of its free names, which is refused at so many steps.
pub fn begin_file(
    alloc: Global,
    store: Store,
    file: SharedFile,
    name: Txt,
    free: &[Val],
    limit: u64,
) -> Mem<Evaluation>
    ensures { IfOk result (IsFileBegun store file name free.now limit) }
{
    let Store {
        files,
        scopes,
        heap,
    } = store;
    let number = files.len();
    let (files, heap) = added(alloc, files, file, name, heap)?;
    begun(alloc, files, number, free, scopes, heap, limit)
}

/// One file more, in a heap whose sum of sizes begins anew.
fn added(alloc: Global, files: Files, file: SharedFile, name: Txt, heap: Heap) -> Mem<(Files, Heap)>
    ensures { IfOk result (λ added. IsAdded file name (restarted heap) files added.0 added.1) }
{
    let mut heap = heap;
    heap.restart();
    files.add(alloc, file, name, heap)
}

/// The run of a file that is there.
fn begun(
    alloc: Global,
    files: Files,
    number: usize,
    free: &[Val],
    scopes: Scopes,
    heap: Heap,
    limit: u64,
) -> Mem<Evaluation>
    ensures { IfOk result (IsBegun files number free.now scopes heap limit) }
{
    let (scopes, scope) = file_scope(alloc, scopes, free)?;
    let block = top(&files, number);
    let task = beginning(alloc, number, block, scope, Stack::new(alloc));
    Ok(Evaluation {
        files,
        machine: standing(alloc, task, scopes, heap, limit),
    })
}

/// The scopes with one for the free names of a file and the file's own within it, and its number.
fn file_scope(alloc: Global, scopes: Scopes, free: &[Val]) -> Mem<(Scopes, usize)>
    ensures { IfOk result (λ opened. (opened.0 ≡ spec.file_scopes free.now scopes)
        × (opened.1 ≡ spec.file_scope free.now scopes)) }
{
    let slots = variables(alloc, free)?;
    let mut scopes = scopes;
    let outermost = scopes.len();
    let around = scopes.open(outermost, slots)?;
    let scope = scopes.open(around, Items::new(alloc))?;
    Ok((scopes, scope))
}

/// The block of a file's statements.
fn top(files: &Files, number: usize) -> usize
    ensures { result ≡ spec.top_of files.now.codes number }
{
    match files.codes().get(number) {
        None => 0,
        Some(code) => code.top,
    }
}

/// The run of a call of a value, which is refused at so many steps.
pub fn begin_call(
    alloc: Global,
    store: Store,
    f: Val,
    values: &[Val],
    limit: u64,
) -> Mem<Evaluation>
    ensures { IfOk result (IsCallBegun store f values.now limit) }
{
    let stack = operands(alloc, f, values)?;
    let Store {
        files,
        scopes,
        mut heap,
    } = store;
    let files = files.with_call(alloc, values.len())?;
    heap.restart();
    let task = beginning(alloc, 0, 1, 0, stack);
    Ok(Evaluation {
        files,
        machine: standing(alloc, task, scopes, heap, limit),
    })
}

/// A value to be called, below its arguments.
fn operands(alloc: Global, f: Val, values: &[Val]) -> Mem<Stack<Val>>
    ensures { IfOk result (λ stack. stack ≡ spec.operands f values.now) }
{
    let mut items = Vec::new(alloc);
    items.push(f)?;
    items.extend_from_slice(values)?;
    Ok(Stack::of_reversed(items))
}

fn beginning(alloc: Global, file: usize, block: usize, scope: usize, stack: Stack<Val>) -> Task
    ensures { result ≡ spec.beginning file block scope stack }
{
    Task {
        file,
        block,
        next: 0,
        stack,
        later: Stack::new(alloc),
        scope,
        place: None,
    }
}

fn standing(alloc: Global, task: Task, scopes: Scopes, heap: Heap, limit: u64) -> Machine
    ensures { spec.IsStanding task scopes heap limit result }
{
    Machine {
        task,
        gathered: no_args(alloc),
        callers: Stack::new(alloc),
        leaving: None,
        running: Stack::new(alloc),
        heap,
        scopes,
        count: 0,
        limit,
        alloc,
    }
}

impl Evaluation {
    /// How many steps were made.
    pub fn count(&self) -> u64
        ensures { result ≡ self.now.machine.count }
    {
        self.machine.count
    }

    /// The files, the variables and the heap.
    pub fn into_store(self) -> Store
        ensures { result ≡ spec.store_of self }
    {
        let Evaluation { files, machine } = self;
        Store {
            files,
            scopes: machine.scopes,
            heap: machine.heap,
        }
    }
}

/// Goes on until the evaluation ends, is refused or asks. The steps that it makes are counted.
pub fn turn<H: Host, L: Library, C: Ledger>(
    evaluation: &mut Evaluation,
    library: &L,
    host: &mut H,
    answers: &Answers,
    steps: &mut Steps<C>,
) -> Mem<TurnEnd>
    ensures tells { (meaning : Table → Outcome H)
        → Stands H.meaning L.rows meaning answers.now evaluation.old host.old
        → AnswersFor (meaning answers.now) result evaluation.new host.new }
    ensures parks { (meaning : Table → Outcome H)
        → Stands H.meaning L.rows meaning answers.now evaluation.old host.old
        → AsksOnly result
        (Stands H.meaning L.rows meaning answers.now evaluation.new host.new) }
    ensures files { evaluation.new.files ≡ evaluation.old.files }
    ensures steps { steps.new
        ≡ ticked (evaluation.new.machine.count - evaluation.old.machine.count) steps.old }
{
    let before = evaluation.machine.count;
    let came = run(
        evaluation.files.codes(),
        library,
        &mut evaluation.machine,
        host,
        answers,
    );
    count_steps(steps, before, evaluation.machine.count);
    let machine = &evaluation.machine;
    end(
        machine.alloc,
        evaluation.files.names(),
        machine.task.place,
        came,
    )
}

/// Counts the steps from one count to another.
fn count_steps<C: Ledger>(steps: &mut Steps<C>, before: u64, after: u64)
    ensures { steps.new ≡ ticked (after - before) steps.old }
{
    for step in 0..after.saturating_sub(before) {
        steps.tick();
    }
}

/// What a turn answers of what its machine came to.
fn end(alloc: Global, names: &[Txt], place: Option<Place>, came: May<Came, Reason>) -> Mem<TurnEnd>
    ensures { IsEnd names.now place came result }
{
    match came {
        Ok(Came::Done(value)) => Ok(TurnEnd::Done(value)),
        Ok(Came::Asks(question)) => Ok(TurnEnd::Asks(question)),
        Ok(Came::Denied(denied)) => Ok(TurnEnd::Refused(placed(alloc, names, denied, place)?)),
        Err(Miss::Because(why)) => Ok(TurnEnd::Refused(refusal(alloc, names, why, place)?)),
        Ok(Came::On) | Err(Miss::OutOfMemory) => Err(OutOfMemory),
    }
}
