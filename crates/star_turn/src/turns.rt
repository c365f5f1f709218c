//! One step with a host, and a turn.
ghost use Rattle.std.specs.Prelude.{◌≡◌, ◌∷◌, [], IfOk, MatchOption, None};
ghost use Rattle.star_machine.specs.Configs.{block_of, config_of, left_of};
ghost use Rattle.star_runs.specs.Runs.{act, instructed, wanted};
ghost use Rattle.star_turn.specs.Calls.{Found, moved};
ghost use Rattle.star_turn.specs.Asking.{wanted_by};
ghost use Rattle.star_turn.specs.Turns as spec;
ghost use Rattle.star_turn.specs.Turns.{ParksAt, Tells, WentTo};

use crate::asking::{Asking, how_asked};
use crate::calls::{Call, ask, field_call, gathered_call, method_call};
use bz_base::Refusal;
use bz_text::{May, Mem, Miss};
use star_code::{Code, Instr};
use star_core::{Answers, Host, Question, Val};
use star_machine::{Machine, Next};
use star_meaning::{Library, Reason};

/// What a step or a turn comes to: the next step, the value of the whole, a question of the host,
/// or the host's refusal.
#[derive(Drop)]
pub enum Came {
    On,
    Done(Val),
    Asks(Question),
    Denied(Refusal),
}

/// A block of a file's code; nothing where there is none.
#[tactic(auto, unfolding(star_machine::specs::Configs::block_of))]
fn block_at(codes: &[Code], file: usize, block: usize) -> &[Instr]
    ensures { result.now ≡ block_of codes.now file block }
{
    match codes.get(file) {
        None => &[],
        Some(code) => match code.blocks.as_slice().get(block) {
            None => &[],
            Some(instrs) => instrs.as_slice(),
        },
    }
}

/// The instruction at a place and the place behind it; None at the block's end.
#[tactic(auto, unfolding(star_machine::specs::Configs::left_of))]
fn fetch(codes: &[Code], file: usize, block: usize, place: usize) -> Option<(Instr, usize)>
    ensures { MatchOption result (left_of codes.now file block place ≡ [])
        (λ found. left_of codes.now file block place
        ≡ found.0 ∷ left_of codes.now file block found.1) }
{
    let instrs = block_at(codes, file, block);
    if place < instrs.len() {
        Some((instrs[place], place + 1))
    } else {
        None
    }
}

/// The call of a host that an instruction makes.
fn call_of(codes: &[Code], machine: &Machine, how: Asking) -> Mem<Option<Call>>
    ensures { IfOk result (λ call. Found call
        (wanted_by codes.now how (config_of codes.now machine.now)) machine.now.task.stack) }
{
    match how {
        Asking::Never => Ok(None),
        Asking::Field(index) => field_call(codes, machine, index),
        Asking::Method(count) => method_call(codes, machine, count),
        Asking::Gathered => gathered_call(codes, machine),
    }
}

fn as_came(given: May<Next, Reason>) -> May<Came, Reason>
    ensures { result ≡ spec.came_of given }
{
    match given {
        Ok(Next::On) => Ok(Came::On),
        Ok(Next::Done(value)) => Ok(Came::Done(value)),
        Err(Miss::Because(why)) => Err(Miss::Because(why)),
        Err(Miss::OutOfMemory) => Err(Miss::OutOfMemory),
    }
}

/// One step.
pub fn step<H: Host, L: Library>(
    codes: &[Code],
    library: &L,
    machine: &mut Machine,
    host: &mut H,
    answers: &Answers,
) -> May<Came, Reason>
    ensures { WentTo (act H.meaning L.rows codes.now answers.now (config_of codes.now machine.old)
        host.old) result (config_of codes.now machine.old) (config_of codes.now machine.new)
        host.old host.new }
{
    if let Some(exit) = machine.leaving {
        return as_came(machine.leave(codes, exit));
    }
    let task = &machine.task;
    match fetch(codes, task.file, task.block, task.next) {
        None => as_came(machine.end_block(codes)),
        Some((instr, next)) => run(codes, library, machine, host, answers, instr, next),
    }
}

/// Runs the instruction before which a machine stands.
fn run<H: Host, L: Library>(
    codes: &[Code],
    library: &L,
    machine: &mut Machine,
    host: &mut H,
    answers: &Answers,
    instr: Instr,
    next: usize,
) -> May<Came, Reason>
    requires { machine.old.leaving ≡ None }
    ensures { WentTo (instructed H.meaning L.rows codes.now answers.now
        (wanted codes.now instr (config_of codes.now (moved next machine.old))) instr
        (config_of codes.now (moved next machine.old)) host.old) result
        (config_of codes.now machine.old) (config_of codes.now machine.new) host.old host.new }
{
    match call_of(codes, machine, how_asked(instr))? {
        Some(call) => ask(codes, machine, host, answers, &call, next),
        None => {
            machine.task.next = next;
            as_came(machine.perform(codes, library, instr))
        }
    }
}

/// Whether a step leads on.
fn goes_on(answer: &May<Came, Reason>) -> bool
    ensures { result ≡ spec.leads_on answer.now }
{
    match answer {
        Ok(Came::On) => true,
        _ => false,
    }
}

/// Runs until the machine ends, is refused or asks.
pub fn turn<H: Host, L: Library>(
    codes: &[Code],
    library: &L,
    machine: &mut Machine,
    host: &mut H,
    answers: &Answers,
) -> May<Came, Reason>
    ensures tells { Tells H.meaning L.rows codes.now answers.now (config_of codes.now machine.old)
        host.old result (config_of codes.now machine.new) host.new }
    ensures parks { ParksAt H.meaning L.rows codes.now answers.now
        (config_of codes.now machine.old) host.old result (config_of codes.now machine.new)
        host.new }
{
    'steps: for _ in 0..u64::MAX {
        let answer = step(codes, library, machine, host, answers);
        if !goes_on(&answer) {
            return answer;
        }
    }
    Err(Miss::OutOfMemory)
}
