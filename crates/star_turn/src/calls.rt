//! Calls of a host: what is called, and what is done with the reply.
ghost use Rattle.std.specs.Prelude.{◌≡◌, ◌∷◌, [], IfOk, List, Some};
ghost use Rattle.star_core.specs.declared.values.Val.{Val};
ghost use Rattle.star_core.specs.Hosts.{Replied};
ghost use Rattle.star_core.specs.Stacks.{taken};
ghost use Rattle.star_machine.specs.Configs.{config_of};
ghost use Rattle.star_machine.specs.Steps as steps;
ghost use Rattle.star_runs.specs.Runs.{attribute_wanted, call_wanted, callee_wanted, replied_on};
ghost use Rattle.star_turn.specs.Calls.{Answered, Found, below_one, call_seen, moved};
ghost use Rattle.star_turn.specs.Turns.{WentTo};

use crate::asking::{called_method, called_object, object, value_below};
use crate::turns::Came;
use bz_text::{May, Mem, Miss, Seq, Txt};
use star_code::Code;
use star_core::{Answers, Args, Fault, Heap, Host, HostStep, NamedVal, Val};
use star_library::copy_of;
use star_machine::{Machine, name_of, no_args};
use star_meaning::{Reason, line_of};
use std::alloc::Global;

/// A call of a host: the object, the name of the method or of the field, the line of the statement
/// that runs, the arguments of a method, and how many operands lie above the one that is called or
/// looked at.
#[derive(Drop)]
pub struct Call {
    pub object: u32,
    pub name: Txt,
    pub line: u64,
    pub args: Option<Args>,
    pub above: usize,
}

/// The field of the top that a host is asked for, by the number of its name.
pub(crate) fn field_call(codes: &[Code], machine: &Machine, index: usize) -> Mem<Option<Call>>
    ensures { IfOk result (λ call. Found call
        (attribute_wanted (steps.name_of codes.now machine.now.task.file index)
        (config_of codes.now machine.now)) machine.now.task.stack) }
{
    let Some(name) = name_of(codes, machine.task.file, index) else {
        return Ok(None);
    };
    let Some(value) = value_below(&machine.task.stack, 0) else {
        return Ok(None);
    };
    let Some(object) = object(&machine.heap, &value) else {
        return Ok(None);
    };
    Ok(Some(Call {
        object,
        name: name.copy(machine.alloc)?,
        line: line_of(machine.task.place),
        args: None,
        above: 0,
    }))
}

/// The method of an object that is called with so many arguments.
pub(crate) fn method_call(codes: &[Code], machine: &Machine, count: usize) -> Mem<Option<Call>>
    ensures { IfOk result (λ call. Found call
        (call_wanted (taken count [] machine.now.task.stack) (config_of codes.now machine.now))
        machine.now.task.stack) }
{
    let Some(f) = value_below(&machine.task.stack, count) else {
        return Ok(None);
    };
    let Some(object) = called_object(&machine.heap, &f) else {
        return Ok(None);
    };
    let Some(values) = machine.task.stack.copy_top(machine.alloc, count)? else {
        return Ok(None);
    };
    Ok(Some(Call {
        object,
        name: Txt::of(machine.alloc, called_method(&machine.heap, &f))?,
        line: line_of(machine.task.place),
        args: Some(Args {
            positional: Seq::of_vec(values),
            named: Seq::new(machine.alloc),
        }),
        above: count,
    }))
}

/// The method of an object that is called with the arguments that were gathered.
pub(crate) fn gathered_call(codes: &[Code], machine: &Machine) -> Mem<Option<Call>>
    ensures { IfOk result (λ call. Found call
        (callee_wanted machine.now.gathered machine.now.task.stack
        (config_of codes.now machine.now)) machine.now.task.stack) }
{
    let Some(f) = value_below(&machine.task.stack, 0) else {
        return Ok(None);
    };
    let Some(object) = called_object(&machine.heap, &f) else {
        return Ok(None);
    };
    Ok(Some(Call {
        object,
        name: Txt::of(machine.alloc, called_method(&machine.heap, &f))?,
        line: line_of(machine.task.place),
        args: Some(copy_args(machine.alloc, &machine.gathered)?),
        above: 0,
    }))
}

fn copy_args(alloc: Global, args: &Args) -> Mem<Args>
    ensures { IfOk result (λ copy. copy ≡ args.now) }
{
    Ok(Args {
        positional: copy_of(alloc, args.positional.items())?,
        named: copy_named(alloc, args.named.items())?,
    })
}

fn copy_named(alloc: Global, named: &[NamedVal]) -> Mem<Seq<NamedVal>>
    ensures { IfOk result (λ copy. copy ≡ named.now) }
{
    let mut copy = Vec::new(alloc);
    'copying: for one in named {
        let other = NamedVal {
            name: one.name.copy(alloc)?,
            val: one.val,
        };
        copy.push(other)?;
    }
    Ok(Seq::of_vec(copy))
}

/// Calls a host, which leaves all as it was where it asks.
pub(crate) fn ask<H: Host>(
    codes: &[Code],
    machine: &mut Machine,
    host: &mut H,
    answers: &Answers,
    call: &Call,
    next: usize,
) -> May<Came, Reason>
    ensures { (values below : List Val) (top : Val)
        → taken call.now.above [] machine.old.task.stack ≡ Some (values, top ∷ below)
        → WentTo (replied_on (H.meaning host.old machine.old.heap (call_seen call.now) answers.now)
        below (config_of codes.now (moved next machine.old))) result
        (config_of codes.now machine.old) (config_of codes.now machine.new) host.old host.new }
{
    let alloc = machine.alloc;
    match called(alloc, &mut machine.heap, host, answers, call)? {
        HostStep::Value(value) => answered(machine, call.above, next, value),
        HostStep::Refused(refusal) => Ok(Came::Denied(refusal)),
        HostStep::Asks(question) => Ok(Came::Asks(question)),
        HostStep::NoAttribute => Err(Miss::Because(Reason::Fault(Fault::Attr))),
    }
}

fn called<H: Host>(
    alloc: Global,
    heap: &mut Heap,
    host: &mut H,
    answers: &Answers,
    call: &Call,
) -> Mem<HostStep>
    ensures { Replied (H.meaning host.old heap.old (call_seen call.now) answers.now) result
        host.old host.new heap.old heap.new }
{
    match &call.args {
        None => host.field(alloc, heap, call.object, call.name.as_str(), answers),
        Some(args) => {
            let name = call.name.as_str();
            host.call(alloc, heap, call.object, name, args, call.line, answers)
        }
    }
}

/// Goes on with a host's value in the place of the call's operands.
fn answered(machine: &mut Machine, above: usize, next: usize, value: Val) -> May<Came, Reason>
    ensures { Answered (below_one (taken above [] machine.old.task.stack)) value next machine.old
        result machine.new }
{
    if machine.task.stack.take_top(above)?.is_none() {
        return Err(Miss::Because(Reason::Fault(Fault::Kind)));
    }
    if machine.task.stack.pop().is_none() {
        return Err(Miss::Because(Reason::Fault(Fault::Kind)));
    }
    machine.gathered = no_args(machine.alloc);
    machine.task.stack.push(value)?;
    machine.task.next = next;
    Ok(Came::On)
}
