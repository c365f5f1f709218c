//! A host in memory, for trying what calls one.
ghost use Rattle.std.specs.Prelude.{◌≡◌, Ok};
ghost use Rattle.star_core.specs.Heaps.{HeapState, made};
ghost use Rattle.star_core.specs.Hosts.{Replied};
ghost use Rattle.star_core.specs.MemHosts.{counted_call, given_text, system_name};
ghost use Rattle.star_core.specs.declared.cells.Cell.TheVariants as cells;
ghost use Rattle.star_core.specs.declared.mem_host.MemHost.{MemHost};

use crate::answers::Answers;
use crate::cells::Cell;
use crate::heap::Heap;
use crate::host::{Host, HostStep};
use crate::questions::{Answer, Question};
use crate::values::{Args, Val};
use bz_base::{Code, Refusal};
use bz_text::{Mem, Miss, OutOfMemory, Txt};
use std::alloc::Global;

/// A host each of whose objects counts the calls of its method `count`, and tells the name of the
/// system by every other method and field, which it asks first.
#[derive(Debug, Drop)]
pub struct MemHost {
    pub calls: u32,
}

impl MemHost {
    fn count(&mut self) -> HostStep
        ensures { (heap : HeapState) → Replied (counted_call self.old heap) (Ok result) self.old
            self.new heap heap }
    {
        self.calls = self.calls.saturating_add(1);
        HostStep::Value(Val::Int(i64::from(self.calls)))
    }

    fn system(&self, alloc: Global, heap: &mut Heap, answers: &Answers) -> Mem<HostStep>
        ensures { Replied (system_name self.now heap.old answers.now) result self.now self.now
            heap.old heap.new }
    {
        match answers.get(&Question::OsName) {
            None => Ok(HostStep::Asks(Question::OsName)),
            Some(Answer::Text(name)) => told(alloc, heap, name.copy(alloc)?),
            Some(_) => Ok(HostStep::Value(Val::None)),
        }
    }
}

impl Host for MemHost {
    ghost use Rattle.star_core.specs.MemHosts.{mem_meaning};
    ghost use Rattle.star_core.specs.MemHostLaws.{mem_lawful};

    ghost meaning = { mem_meaning };

    fn call(
        &mut self,
        alloc: Global,
        heap: &mut Heap,
        _object: u32,
        method: &str,
        _args: &Args,
        _line: u64,
        answers: &Answers,
    ) -> Mem<HostStep> {
        if method == "count" {
            return Ok(self.count());
        }
        self.system(alloc, heap, answers)
    }

    fn field(
        &mut self,
        alloc: Global,
        heap: &mut Heap,
        _object: u32,
        _name: &str,
        answers: &Answers,
    ) -> Mem<HostStep> {
        self.system(alloc, heap, answers)
    }

    ghost lawful = { mem_lawful };
}

/// Gives a text in a cell of its own.
fn told(alloc: Global, heap: &mut Heap, text: Txt) -> Mem<HostStep>
    ensures { (host : MemHost) → Replied (given_text (made (cells.Text text) heap.old) host) result
        host host heap.old heap.new }
{
    match heap.make(Cell::Text(text)) {
        Ok(value) => Ok(HostStep::Value(value)),
        Err(Miss::OutOfMemory) => Err(OutOfMemory),
        Err(Miss::Because(_)) => Ok(HostStep::Refused(Refusal::of(alloc, Code::Size))),
    }
}
