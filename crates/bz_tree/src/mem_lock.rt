//! A lockfile in memory.
ghost use Rattle.std.specs.Prelude.{◌≡◌, ◌≤◌, ◌↔◌, true, false, List, ℕ, Option, Some, None, IfOk};
ghost use Rattle.std.specs.Prelude.{IfSome, IsOk, IsNone, OnErr, OnOk};
ghost use Rattle.bz_base.specs.Counts.{Rose};
ghost use Rattle.bz_tree.specs.Keeping.{IsOldOrNew, loaded_of, replaced};
ghost use Rattle.bz_tree.specs.MemLocks.{after_load, after_replace, load_of};
ghost use Rattle.bz_tree.specs.Outcomes.{Fails, IsOutcome};

use crate::faults::{Failed, OutsideFault};
use crate::lock_keeper::{LARGEST_LOCKFILE, Loaded, LockKeeper};
use bz_base::{Mem, Seq};
use std::alloc::Global;
use std::marker::Model;

/// A keeper in memory, whose calls fail only as planned.
#[derive(Debug, Drop)]
pub struct MemLock {
    held: Option<Seq<u8>>,
    fails_load: bool,
    fails_replace: Option<bool>,
    faults: u64,
}

impl Model for MemLock {
    ghost use Rattle.bz_tree.specs.MemLocks.{MemLockState};

    ghost Value = { MemLockState };

    ghost view = { λ l. record {
      held = l.held;
      fails_load = l.fails_load;
      fails_replace = l.fails_replace;
      faults = l.faults;
    } };
}

impl MemLock {
    /// A keeper of these bytes, or of no lockfile, of which no call fails.
    pub fn new(held: Option<Seq<u8>>) -> MemLock
        ensures { result ≡ record { held = held; fails_load = false; fails_replace = None; faults = 0 } }
    {
        MemLock {
            held,
            fails_load: false,
            fails_replace: None,
            faults: 0,
        }
    }

    /// Plans that the next load fails.
    pub fn fail_load(&mut self)
        ensures { self.new ≡ record self.old { fails_load = true } }
    {
        self.fails_load = true;
    }

    /// Plans that the next replacement fails, and whether it keeps the new bytes then.
    pub fn fail_replace(&mut self, keep_new: bool)
        ensures { self.new ≡ record self.old { fails_replace = Some keep_new } }
    {
        self.fails_replace = Some(keep_new);
    }
}

impl LockKeeper for MemLock {
    ghost held = { λ l. Some l.held };

    ghost faults = { λ l. l.faults };

    fn load(&mut self, alloc: Global) -> Result<Loaded, OutsideFault>
        ensures told { IfSome (Some self.old.held)
            (λ file. IfOk result (λ it. it ≡ loaded_of file)) }
        ensures held_kept { Some self.new.held ≡ Some self.old.held }
        ensures count_never_falls { self.old.faults ≤ self.new.faults }
        ensures counted { Fails result → Rose self.old.faults self.new.faults }

        // As planned, and in no other way.
        ensures planned { IsOutcome (load_of self.old) (after_load self.old) self.old result self.new }
    {
        if self.fails_load {
            self.fails_load = false;
            self.faults = self.faults.saturating_add(1);
            return Err(OutsideFault::Failed);
        }
        Ok(loaded(alloc, &self.held)?)
    }

    fn replace(&mut self, bytes: Seq<u8>) -> Result<(), Failed>
        ensures replaced { OnOk result (Some self.new.held ≡ replaced (Some self.old.held) bytes) }
        ensures old_or_new { OnErr result (IsOldOrNew (Some self.old.held) bytes (Some self.new.held)) }
        ensures count_never_falls { self.old.faults ≤ self.new.faults }
        ensures counted { OnErr result (Rose self.old.faults self.new.faults) }

        // As planned, and in no other way.
        ensures planned { IsOk result ↔ IsNone self.old.fails_replace }
        ensures after { self.new ≡ after_replace self.old bytes }
    {
        match self.fails_replace {
            None => {
                self.held = Some(bytes);
                Ok(())
            }
            Some(keep_new) => {
                if keep_new {
                    self.held = Some(bytes);
                }
                self.fails_replace = None;
                self.faults = self.faults.saturating_add(1);
                Err(Failed)
            }
        }
    }
}

fn loaded(alloc: Global, held: &Option<Seq<u8>>) -> Mem<Loaded>
    ensures { IfOk result (λ loaded. loaded ≡ loaded_of held.now) }
{
    match held {
        None => Ok(Loaded::Absent),
        Some(bytes) => load_bytes(alloc, bytes.items()),
    }
}

fn load_bytes(alloc: Global, bytes: &[u8]) -> Mem<Loaded>
    ensures { IfOk result (λ loaded. loaded ≡ loaded_of (Some bytes.now)) }
{
    if bytes.len() > LARGEST_LOCKFILE {
        return Ok(Loaded::Large);
    }
    Ok(Loaded::Bytes(Seq::of_vec(Vec::from_slice(alloc, bytes)?)))
}
