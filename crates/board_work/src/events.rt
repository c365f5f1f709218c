//! What happens on a board.
use bz_base::TreePath;

/// Why a board was halted: a file couldn't be read, or memory ran out.
#[derive(Debug, Drop)]
pub enum Stop {
    Read(TreePath),
    Memory,
}

/// What parking a job came to: it waits, it is queued at once, it is refused as the asked job was,
/// it is refused with the cycle that it closed, or it wasn't held.
#[derive(Clone, Copy, Debug, PartialEq, Eq)]
pub enum Parked {
    Waits,
    Ready,
    Refused,
    Cycle,
    Stray,
}

/// One event; jobs and needs are places in the board's lists.
#[derive(Clone, Copy, Debug, PartialEq, Eq)]
pub enum Event {
    Claim {
        worker: u32,
        job: u64,
    },
    Park {
        worker: u32,
        job: u64,
        need: u64,
    },
    Finish {
        worker: u32,
        job: u64,
        refused: bool,
    },
    Shelve {
        need: u64,
    },
    Halt,
}
