//! Writing a whole text on a sink.
ghost use Rattle.std.specs.Prelude.{◌≡◌, ◌≤◌, OnOk, OnErr};
ghost use Rattle.bz_base.specs.Counts.{Rose};
ghost use Rattle.bz_tree.specs.Writes.{appended};
ghost use Rattle.mod_command.specs.Written.{IsFrontWritten};

use bz_tree::{Failed, Sink};

/// Writes all of the bytes, piece by piece. Where a piece fails, or nothing of it is taken, a front
/// of them is written.
pub(crate) fn write_all<S: Sink>(sink: &mut S, bytes: &[u8]) -> Result<(), Failed>
    ensures whole { OnOk result (S.written sink.new ≡ appended (S.written sink.old) bytes.now) }
    ensures front { OnErr result (IsFrontWritten (S.written sink.old) bytes.now (S.written sink.new)) }
    ensures counted { OnErr result (Rose (S.faults sink.old) (S.faults sink.new)) }
    ensures count_never_falls { S.faults sink.old ≤ S.faults sink.new }
{
    let mut rest = bytes;
    'pieces: while !rest.is_empty() {
        let taken = sink.write(rest)?;
        if taken == 0 {
            return Err(Failed);
        }
        let (_, more) = rest.split_at(taken);
        rest = more;
    }
    Ok(())
}
