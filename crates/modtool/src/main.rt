//! The program `modtool`: the real tree, keeper, sinks, words and environment, handed to the one
//! call that answers.
#![tactic(auto)]

mod surroundings;

use bz_base::Mem;
use bz_tree::{DirTree, MemLock, NoGate, StdSink};
use mod_command::{Status, modtool};
use std::env::Env;
use std::io::Write;
use std::process::ExitCode;
use std::rt::Files;
use std::sync::Wait;
use std::thread::Threads;
use surroundings::{environment, words};

fn main(rt: HostRuntime) -> ExitCode {
    let status = match run(&rt, rt.stdout(), rt.stderr()) {
        Ok(status) => status,
        Err(_) => {
            let _ = rt.eprint("modtool: out of memory\n");
            Status::OutOfMemory
        }
    };
    ExitCode::from(status.number())
}

fn run<R, O, E>(rt: &R, out: O, err: E) -> Mem<Status>
where
    R: Files + Env + AllocGlobal + Threads + Wait + Sync + Clone + Drop,
    O: Write + Drop,
    E: Write + Drop,
{
    let words = words(rt)?;
    let environment = environment(rt)?;
    Ok(modtool(
        rt,
        rt.alloc(),
        words.as_slice(),
        &environment,
        &mut DirTree::here(rt),
        &mut MemLock::new(None),
        &mut StdSink::of(out),
        &mut StdSink::of(err),
        &NoGate,
    ))
}
