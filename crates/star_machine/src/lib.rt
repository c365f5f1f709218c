//! The machine that runs code: where it stands, and what each instruction does to it.
//!
//! In come the code of the files and a machine; out goes the machine one step further, a value, or
//! why it is refused. The machine owns its heap, its variables and the calls that wait, so that it
//! can stop at any step and go on later.
//! Read `specs/Configs.antt` (where a machine stands, as lists) and `Steps` (what an instruction
//! does to that). Nothing here calls a host.
//! Limits: 64 running calls; the count of steps is refused where it reaches its limit.
#![tactic(auto)]

pub mod arguments;
pub mod attributes;
pub mod calls;
pub mod comprehensions;
pub mod machine;
pub mod operators;
pub mod perform;
pub mod statements;

pub use attributes::name_of;
pub use machine::{Later, Machine, Next, Task, Turns, no_args};
