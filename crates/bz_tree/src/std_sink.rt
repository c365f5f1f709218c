//! Real sinks: the trusted edge to standard output and standard error.
ghost use Rattle.std.specs.Prelude.{◌≡◌, ◌≤◌, None, IfOk, length};

use crate::faults::Failed;
use crate::sink::Sink;
use std::io;
use std::io::Write;

/// A sink over a writer. It tells no content. Each piece is flushed before it counts as taken, so
/// that a device that is full fails even a short text.
#[derive(Drop)]
pub struct StdSink<W: Write + Drop> {
    writer: W,
    faults: u64,
}

impl<W: Write + Drop> StdSink<W> {
    /// A sink with no failed write yet.
    pub fn of(writer: W) -> StdSink<W>
        ensures { result.faults ≡ 0 }
    {
        StdSink { writer, faults: 0 }
    }
}

impl<W: Write + Drop> Sink for StdSink<W> {
    ghost written = { λ _. None };

    ghost faults = { λ s. s.faults };

    fn write(&mut self, bytes: &[u8]) -> Result<usize, Failed> {
        match put(&mut self.writer, bytes) {
            Ok(taken) if taken > 0 || bytes.is_empty() => Ok(taken),
            _ => {
                self.faults = self.faults.saturating_add(1);
                Err(Failed)
            }
        }
    }
}

fn put<W: Write>(writer: &mut W, bytes: &[u8]) -> io::Result<usize>
    ensures { IfOk result (λ taken. taken ≤ length bytes.now) }
{
    let taken = writer.write(bytes)?;
    writer.flush()?;
    Ok(taken)
}
