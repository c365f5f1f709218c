//! The call that a program makes: from words over a tree, a keeper and two sinks to a status.
ghost use Rattle.std.specs.Prelude.{◌≡◌, map, string_bytes};
ghost use Rattle.bz_tree.specs.Failures.{tree_run};
ghost use Rattle.mod_command.specs.Runs.{Promised, keeper_run, sink_run};

use crate::command::read_words;
use crate::printing::{print_done, tell, tell_failure};
use crate::status::Status;
use crate::texts::text;
use bz_base::{EnvTable, Steps};
use bz_tree::{Gate, LockKeeper, Sink, Tree};
use std::alloc::Global;
use std::marker::Brand;
use std::sync::Wait;
use std::sync::ledger::{Blank, Ledger};
use std::thread::Threads;

/// Runs the command that the words spell, on the caller's thread. It waits for nobody and returns.
pub fn evaluate_one<T: Tree, K: LockKeeper, S: Sink, E: Sink, L: Ledger>(
    alloc: Global,
    words: &[String],
    env: &EnvTable,
    tree: &mut T,
    lock: &mut K,
    out: &mut S,
    err: &mut E,
    steps: &mut Steps<L>,
) -> Status
    ensures promised { Promised (record {
      words = map string_bytes words.now;
      tree = tree_run T.files T.faults
          T.failed tree.old tree.new;
      lock = keeper_run K.held K.faults lock.old lock.new;
      out =
          sink_run S.written S.faults out.old out.new;
      err = sink_run E.written E.faults err.old
          err.new;
    }) result }
    ensures files_kept { T.files tree.new ≡ T.files tree.old }
    ensures no_steps { steps.new ≡ steps.old }
{
    let Some(command) = read_words(words) else {
        tell(err, "modtool: usage\n");
        return Status::Usage;
    };
    match text(alloc, command, tree) {
        Err(failure) => tell_failure(alloc, err, failure),
        Ok(text) => print_done(alloc, out, err, &text),
    }
}

/// Runs the command that the words spell. If it returns, it keeps what `evaluate_one` keeps.
pub fn modtool<R: Threads + Wait + Sync, T: Tree, K: LockKeeper, S: Sink, E: Sink, G: Gate>(
    rt: &R,
    alloc: Global,
    words: &[String],
    env: &EnvTable,
    tree: &mut T,
    lock: &mut K,
    out: &mut S,
    err: &mut E,
    gate: &G,
) -> Status
    ensures promised { Promised (record {
      words = map string_bytes words.now;
      tree = tree_run T.files T.faults
          T.failed tree.old tree.new;
      lock = keeper_run K.held K.faults lock.old lock.new;
      out =
          sink_run S.written S.faults out.old out.new;
      err = sink_run E.written E.faults err.old
          err.new;
    }) result }
    ensures files_kept { T.files tree.new ≡ T.files tree.old }
{
    count_and_run::<T, K, S, E, Brand>(alloc, Blank::new(1), words, env, tree, lock, out, err)
}

fn count_and_run<T: Tree, K: LockKeeper, S: Sink, E: Sink, L: Ledger>(
    alloc: Global,
    ledger: Blank,
    words: &[String],
    env: &EnvTable,
    tree: &mut T,
    lock: &mut K,
    out: &mut S,
    err: &mut E,
) -> Status
    requires name { ledger.name ≡ L.name }
    requires parts { ledger.parts ≡ L.parts }
    ensures promised { Promised (record {
      words = map string_bytes words.now;
      tree = tree_run T.files T.faults
          T.failed tree.old tree.new;
      lock = keeper_run K.held K.faults lock.old lock.new;
      out =
          sink_run S.written S.faults out.old out.new;
      err = sink_run E.written E.faults err.old
          err.new;
    }) result }
    ensures files_kept { T.files tree.new ≡ T.files tree.old }
{
    let mut steps: Steps<L> = Steps::of(ledger);
    evaluate_one(alloc, words, env, tree, lock, out, err, &mut steps)
}
