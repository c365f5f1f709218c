//! A sink in memory.
ghost use Rattle.std.specs.Prelude.{◌≡◌, ◌≤◌, [], Some, length, IfOk, OnErr};
ghost use Rattle.bz_base.specs.Counts.{Rose};
ghost use Rattle.bz_tree.specs.MemSinks.{after_write, after_writing, write_of};
ghost use Rattle.bz_tree.specs.Writes.{CountsNothing};

use crate::faults::Failed;
use crate::sink::Sink;
use bz_base::Mem;
use std::alloc::Global;
use std::marker::Model;

/// A sink in memory, which takes so many bytes and then fails.
#[derive(Debug, Drop)]
pub struct MemSink {
    bytes: Vec<u8>,
    room: usize,
    faults: u64,
}

impl Model for MemSink {
    ghost use Rattle.std.specs.Prelude.{◌+◌, ◌≤◌, vec_len, vec_capacity};
    ghost use Rattle.bz_tree.specs.MemSinks.{MemSinkState};

    ghost Value = { MemSinkState };

    ghost view = { λ s. record { written = s.bytes.items; room = s.room; faults = s.faults } };

    ghost invariant = { λ s. vec_len s.bytes + s.room ≤ vec_capacity s.bytes };
}

impl MemSink {
    /// An empty sink with room for so many bytes, which are taken from memory now, so that no write
    /// wants any.
    pub fn new(alloc: Global, room: u64) -> Mem<MemSink>
        ensures { IfOk result (λ sink. sink ≡ record { written = []; room = room; faults = 0 }) }
    {
        let room = room as usize;
        Ok(MemSink {
            bytes: Vec::with_capacity(alloc, room)?,
            room,
            faults: 0,
        })
    }

    /// What was written.
    pub fn bytes(&self) -> &[u8]
        ensures { result.now ≡ self.now.written }
    {
        self.bytes.as_slice()
    }
}

impl Sink for MemSink {
    ghost written = { λ s. Some s.written };

    ghost faults = { λ s. s.faults };

    fn write(&mut self, bytes: &[u8]) -> Result<usize, Failed>
        ensures within { IfOk result (λ taken. taken ≤ length bytes.now) }
        ensures appended { Some self.new.written ≡ after_writing result bytes.now self.old }
        ensures count_never_falls { self.old.faults ≤ self.new.faults }
        ensures counted { OnErr result (Rose self.old.faults self.new.faults) }
        ensures nothing { CountsNothing result bytes.now self.old.faults self.new.faults }

        // As much as there is room for.
        ensures exact { result ≡ write_of self.old bytes.now }
        ensures after { self.new ≡ after_write self.old bytes.now }
    {
        if self.room == 0 && bytes.len() != 0 {
            self.faults = self.faults.saturating_add(1);
            return Err(Failed);
        }
        let taken = bytes.len().min(self.room);
        let (front, _) = bytes.split_at(taken);
        self.bytes.extend_from_slice(front).unwrap();
        self.room -= taken;
        Ok(taken)
    }
}
