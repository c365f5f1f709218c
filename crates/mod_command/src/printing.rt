//! What a run prints: its text and then its line, or the line of the status that comes in place of
//! both.
ghost use Rattle.std.specs.Prelude.{◌≡◌, ◌⊎◌};
ghost use Rattle.mod_command.specs.Printing.{IsPrinted, IsPrintedOrLacksMemory, status_of_failure};
ghost use Rattle.mod_command.specs.Runs.{IsTold, sink_run};
ghost use Rattle.mod_command.specs.Statuses.{line_of};
ghost use Rattle.mod_command.specs.declared.status.Status.TheVariants.{OutOfMemory, ReadFault};
ghost use Rattle.mod_command.specs.declared.status.Status.TheVariants.{Refused};

use crate::report::{done_text, read_fault_text, refused_text};
use crate::status::{Status, WhichSink};
use crate::writing::write_all;
use bz_base::{Refusal, TreePath, Txt};
use bz_tree::{Failure, Sink};
use std::alloc::Global;

/// Writes a line on `err`, whose failure changes no status.
pub(crate) fn tell<E: Sink>(err: &mut E, line: &str)
    ensures { IsTold (sink_run E.written E.faults err.old err.new) line.now }
{
    let _ = write_all(err, line.as_bytes());
}

/// Writes the line of what came in place of a text, or that memory ran out where there is none for
/// that line.
pub(crate) fn tell_failure<E: Sink>(alloc: Global, err: &mut E, failure: Failure) -> Status
    ensures status { (result ≡ status_of_failure failure) ⊎ (result ≡ OutOfMemory) }
    ensures told { IsTold (sink_run E.written E.faults err.old err.new) (line_of result) }
{
    match failure {
        Failure::Refused(refusal) => tell_refusal(alloc, err, refusal),
        Failure::ReadFault(path) => tell_read_fault(alloc, err, path),
        Failure::OutOfMemory => tell_out_of_memory(err),
    }
}

pub(crate) fn tell_out_of_memory<E: Sink>(err: &mut E) -> Status
    ensures status { result ≡ OutOfMemory }
    ensures told { IsTold (sink_run E.written E.faults err.old err.new) (line_of OutOfMemory) }
{
    tell(err, "modtool: out of memory\n");
    Status::OutOfMemory
}

fn tell_refusal<E: Sink>(alloc: Global, err: &mut E, refusal: Refusal) -> Status
    ensures status { (result ≡ Refused refusal) ⊎ (result ≡ OutOfMemory) }
    ensures told { IsTold (sink_run E.written E.faults err.old err.new) (line_of result) }
{
    match refused_text(alloc, &refusal) {
        Err(_) => tell_out_of_memory(err),
        Ok(line) => {
            tell(err, line.as_str());
            Status::Refused(refusal)
        }
    }
}

fn tell_read_fault<E: Sink>(alloc: Global, err: &mut E, path: TreePath) -> Status
    ensures status { (result ≡ ReadFault path) ⊎ (result ≡ OutOfMemory) }
    ensures told { IsTold (sink_run E.written E.faults err.old err.new) (line_of result) }
{
    match read_fault_text(alloc, path.as_str()) {
        Err(_) => tell_out_of_memory(err),
        Ok(line) => {
            tell(err, line.as_str());
            Status::ReadFault(path)
        }
    }
}

/// Writes the text on `out` and then the line of a run that is done on `err`. Both are whole in
/// memory before the first byte is written.
pub(crate) fn print_done<S: Sink, E: Sink>(
    alloc: Global,
    out: &mut S,
    err: &mut E,
    text: &Txt,
) -> Status
    ensures { IsPrintedOrLacksMemory (sink_run S.written S.faults out.old out.new)
        (sink_run E.written E.faults err.old err.new) text.now result }
{
    match done_text(alloc, 0, 0) {
        Err(_) => tell_out_of_memory(err),
        Ok(line) => print(out, err, text.as_str(), line.as_str()),
    }
}

fn print<S: Sink, E: Sink>(out: &mut S, err: &mut E, text: &str, line: &str) -> Status
    ensures { IsPrinted (sink_run S.written S.faults out.old out.new)
        (sink_run E.written E.faults err.old err.new) text.now line.now result }
{
    match write_all(out, text.as_bytes()) {
        Err(_) => {
            tell(err, "modtool: write fault\n");
            Status::WriteFault(WhichSink::Out)
        }
        Ok(()) => match write_all(err, line.as_bytes()) {
            Err(_) => Status::WriteFault(WhichSink::Err),
            Ok(()) => Status::Done {
                evaluated: 0,
                reused: 0,
                steps: 0,
            },
        },
    }
}
