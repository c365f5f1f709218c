//! The pass from Starlark's trees to code.
//!
//! In comes a file's tree; out go its blocks, the names that it mentions, and the cells of the texts
//! that it spells. Code is written from its end to its beginning, so that what comes behind a part
//! stands there already.
//! Read `specs/Emitted.antt`: what the pass leaves; which code is that of which tree says
//! `star_code/specs/Codes.antt`.
//! Source: the Starlark specification, "Expressions" and "Statements".
#![tactic(auto)]

pub mod emitter;
pub mod expressions;
pub mod files;
pub mod statements;

pub use emitter::Emitter;
pub use files::{Compiled, compile};
