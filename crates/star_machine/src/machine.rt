//! Where a machine stands.
ghost use Rattle.std.specs.Prelude.{◌≡◌, IfOk, OnErr, OnOk};
ghost use Rattle.star_machine.specs.Configs.{config_of};
ghost use Rattle.star_machine.specs.Outcomes.{Acted, by_fault};
ghost use Rattle.star_machine.specs.Steps as steps;
ghost use Rattle.star_meaning.specs.Arguments as arguments;

use bz_text::{May, Mem, Miss, Seq};
use star_code::Code;
use star_core::{Args, Fault, Heap, Scopes, Stack, Val};
use star_meaning::{Exit, Place, Reason, Running};
use std::alloc::Global;

/// What goes on where a block ends: the block behind it, the same in the scope round it, or the turns
/// of a loop.
#[derive(Drop)]
pub enum Later {
    Behind {
        block: usize,
        next: usize,
    },
    Outwards {
        scope: usize,
        block: usize,
        next: usize,
    },
    Turns(Turns),
}

/// The turns of a loop that are left: the items, the container over which it walks, the block that
/// is run for each, where the loop's statement begins, and what comes behind the loop.
#[derive(Drop)]
pub struct Turns {
    pub items: Stack<Val>,
    pub over: Val,
    pub body: usize,
    pub place: Option<Place>,
    pub block: usize,
    pub next: usize,
}

/// The run of a function or of a file.
#[derive(Drop)]
pub struct Task {
    pub file: usize,
    pub block: usize,
    pub next: usize,
    pub stack: Stack<Val>,
    pub later: Stack<Later>,
    pub scope: usize,
    pub place: Option<Place>,
}

/// An evaluation that stopped between two steps. `gathered` holds arguments between two
/// instructions alone: the one that gathers them, and the call.
#[derive(Drop)]
pub struct Machine {
    pub task: Task,
    pub gathered: Args,
    pub callers: Stack<Task>,
    pub leaving: Option<Exit>,
    pub running: Stack<Running>,
    pub heap: Heap,
    pub scopes: Scopes,
    pub count: u64,
    pub limit: u64,
    pub alloc: Global,
}

/// What a step leads to: the next one, or the value of the whole.
#[derive(Clone, Copy, Debug, PartialEq, Eq)]
pub enum Next {
    On,
    Done(Val),
}

/// No arguments.
pub fn no_args(alloc: Global) -> Args
    ensures { result ≡ arguments.no_args }
{
    Args {
        positional: Seq::new(alloc),
        named: Seq::new(alloc),
    }
}

/// The same answer with its fault as a reason.
pub fn of_fault<T: Drop>(given: May<T, Fault>) -> May<T, Reason>
    ensures { result ≡ by_fault given }
{
    match given {
        Ok(value) => Ok(value),
        Err(Miss::Because(kind)) => Err(Miss::Because(Reason::Fault(kind))),
        Err(Miss::OutOfMemory) => Err(Miss::OutOfMemory),
    }
}

/// A fault as an answer.
pub fn fault<T>(kind: Fault) -> May<T, Reason>
    ensures { result ≡ Err (Miss.Because (Reason.Fault kind)) }
{
    Err(Miss::Because(Reason::Fault(kind)))
}
