//! What a Starlark evaluation means: definitions alone, over the trees of `star_trees` and the
//! values of `star_core`.
//!
//! In comes a tree with the heap and the variables; out goes a value with what the evaluation
//! leaves, a refusal with its place and the count of steps, or the first question that the table of
//! answers lacks. Each construct is one case of a fold, in the Starlark specification's order of
//! evaluation; nothing here knows of the machine that runs code.
//! Read `specs/Worlds.antt` (what an evaluation works on), `Results` (how its parts are put
//! together), then `Expressions` (with `Arguments`, `Loops`), `Statements`, `Parameters` and
//! `Calls`.
//! Limits: 64 running calls; the count of steps is refused where it reaches its limit.
//! Source: the Starlark specification, "Expressions", "Statements", "Functions".
#![tactic(auto)]

pub mod arguments;
pub mod library;
pub mod parameters;
pub mod reasons;

pub use arguments::{Formal, Way};
pub use library::Library;
pub use parameters::Share;
pub use reasons::{Attribute, Closure, Exit, InPlace, MOST_CALLS, Place, Reason, Running, line_of};
