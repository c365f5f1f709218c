//! Names in order, and the scopes that stand round a place of a file.
//!
//! `Names` is the list of a scope's variables in the order in which the text first binds them, kept
//! in an `IndexSet`; `Scopes` is the stack of scopes, seen from the innermost on.
//! In comes a name; out goes the innermost scope that binds it, counted outwards from 0, and its
//! slot there.
//! Read `star_trees/specs/Variables.antt` first, which both are an index for: `with_binding`,
//! `slot_of`, `scope_and_slot`.
//! Laws: none of its own; each call gives exactly what the definition says.
//! Limits: none but memory.
//! Source: the Starlark specification, "Name binding and variables".
//! To change how a name is found open `src/scopes.rt`.
#![tactic(auto)]

mod names;
mod scopes;

pub use names::Names;
pub use scopes::Scopes;
