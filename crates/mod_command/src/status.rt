//! How a call ends.
ghost use Rattle.std.specs.Prelude.{◌≡◌};
ghost use Rattle.mod_command.specs.Statuses.{number_of};

use bz_base::{Refusal, TreePath, Txt};

/// One of the two sinks.
#[derive(Clone, Copy, Debug, PartialEq, Eq)]
pub enum WhichSink {
    Out,
    Err,
}

/// How a call ends. `evaluated` and `reused` count extensions, `steps` the steps of their
/// evaluation.
#[derive(Debug, Drop)]
pub enum Status {
    Done {
        evaluated: u64,
        reused: u64,
        steps: u64,
    },
    Refused(Refusal),
    Usage,
    /// A read failed, at this path.
    ReadFault(TreePath),
    WriteFault(WhichSink),
    /// The lockfile is not the one that this run would leave; the text names the first difference.
    LockStale(Txt),
    OutOfMemory,
    LockFault,
}

impl Status {
    /// The exit status of the program.
    pub fn number(&self) -> u8
        ensures { result ≡ number_of self.now }
    {
        match self {
            Status::Done { .. } => 0,
            Status::Refused(_) => 1,
            Status::Usage => 2,
            Status::ReadFault(_) => 3,
            Status::WriteFault(_) => 4,
            Status::LockStale(_) => 5,
            Status::OutOfMemory => 6,
            Status::LockFault => 7,
        }
    }
}
