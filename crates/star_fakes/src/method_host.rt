//! A host whose objects have methods.
ghost use Rattle.std.specs.Prelude.{◌≡◌, Ok};
ghost use Rattle.star_core.specs.Heaps.{HeapState, made};
ghost use Rattle.star_core.specs.Hosts.{Replied};
ghost use Rattle.star_core.specs.declared.cells.Cell.TheVariants as cells;
ghost use Rattle.star_fakes.specs.Methods.{counted_call, given, variable_text};
ghost use Rattle.star_fakes.specs.declared.method_host.MethodHost.{MethodHost};

use bz_base::{Code, Refusal};
use bz_text::{Mem, Miss, OutOfMemory, Txt};
use star_core::{Answer, Answers, Args, Cell, Heap, Host, HostStep, Question, Val};
use std::alloc::Global;

/// A host each of whose objects counts the calls of its method `count`, and gives the environment
/// variable `P` by every other method, which asks for it first. Its fields are its methods.
#[derive(Debug, Drop)]
pub struct MethodHost {
    pub calls: u32,
}

impl MethodHost {
    fn count(&mut self) -> HostStep
        ensures { (heap : HeapState) → Replied (counted_call self.old heap) (Ok result) self.old
            self.new heap heap }
    {
        self.calls = self.calls.saturating_add(1);
        HostStep::Value(Val::Int(i64::from(self.calls)))
    }

    fn variable(&self, alloc: Global, heap: &mut Heap, answers: &Answers) -> Mem<HostStep>
        ensures { Replied (variable_text self.now heap.old answers.now) result self.now self.now
            heap.old heap.new }
    {
        let question = Question::Env(Txt::of(alloc, "P")?);
        match answers.get(&question) {
            None => Ok(HostStep::Asks(question)),
            Some(Answer::Text(text)) => give(alloc, heap, Cell::Text(text.copy(alloc)?)),
            Some(_) => Ok(HostStep::Value(Val::None)),
        }
    }
}

impl Host for MethodHost {
    ghost use Rattle.star_fakes.specs.Lawful.{methods_lawful};
    ghost use Rattle.star_fakes.specs.Methods.{methods_meaning};

    ghost meaning = { methods_meaning };

    fn call(
        &mut self,
        alloc: Global,
        heap: &mut Heap,
        _object: u32,
        method: &str,
        _args: &Args,
        _line: u64,
        answers: &Answers,
    ) -> Mem<HostStep> {
        if method == "count" {
            return Ok(self.count());
        }
        self.variable(alloc, heap, answers)
    }

    fn field(
        &mut self,
        alloc: Global,
        heap: &mut Heap,
        object: u32,
        name: &str,
        _answers: &Answers,
    ) -> Mem<HostStep> {
        let method = Txt::of(alloc, name)?;
        let receiver = Val::Cell(object);
        give(alloc, heap, Cell::Bound { receiver, method })
    }

    ghost lawful = { methods_lawful };
}

/// Gives a cell of its own.
fn give(alloc: Global, heap: &mut Heap, cell: Cell) -> Mem<HostStep>
    ensures { (host : MethodHost) → Replied (given (made cell heap.old) host) result host host
        heap.old heap.new }
{
    match heap.make(cell) {
        Ok(value) => Ok(HostStep::Value(value)),
        Err(Miss::OutOfMemory) => Err(OutOfMemory),
        Err(Miss::Because(_)) => Ok(HostStep::Refused(Refusal::of(alloc, Code::Size))),
    }
}
