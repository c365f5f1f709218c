//! The program `star_run`: runs a `.bzl` text from standard input, with no objects of a host, and
//! prints each global as `NAME = REPR` in the order in which the text first binds them, or the
//! refusal with its line, and then the count of steps.
//!
//! `script.rt` runs a text, and `globals.rt` has the names of its globals.
//! Its status is 0, 1 after a refusal, and 2 where standard input can't be read or memory ran out.
//! Limits: 100,000,000 steps. A text with a `load` is refused.
//! Source: the Starlark specification, "Module execution".
#![tactic(auto)]

mod globals;
mod script;

use bz_text::Mem;
use script::{Ran, run_text};
use std::io;
use std::process::ExitCode;

fn main(rt: HostRuntime) -> ExitCode {
    let Ok(text) = io::read_to_string(rt.alloc(), rt.reader()) else {
        return failed(&rt, "star_run: can't read standard input\n");
    };
    let ran: Mem<Ran> = run_text(rt.alloc(), text.as_str());
    match ran {
        Ok(ran) => {
            let _ = rt.print(ran.text.as_str());
            ExitCode::from(ran.status)
        }
        Err(_) => failed(&rt, "star_run: out of memory\n"),
    }
}

fn failed<R: Eprint>(rt: &R, text: &str) -> ExitCode {
    let _ = rt.eprint(text);
    ExitCode::from(2)
}
