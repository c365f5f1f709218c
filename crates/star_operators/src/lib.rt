//! Operators and indexes of Starlark.
//!
//! In come a heap and operands; out goes a value, or the fault that refuses it. Read
//! `specs/Unary.antt` and `Binary.antt` first, then `Members` and `Indexing`: each call's clause is
//! `Builds ROW result heap`, and its row is a definition of these files. An operator looks at the
//! heap and comes to an outcome, a value that is there or a cell that is to be made
//! (`specs/Outcomes.antt`); making it is the last step.
//! Limits: `and` and `or` don't evaluate both operands, and `%` formats where a string is on its
//! left: these are the caller's, and `Kind` here.
//! Source: the Starlark specification, "Expressions". To change an operator open
//! `src/binary_operators.rt`; what an index means, `src/indexing.rt`.
#![tactic(auto)]

pub mod binary_operators;
pub mod indexing;
mod members;
pub mod outcomes;
mod repeating;
pub mod unary_operators;
pub mod uniting;

pub use binary_operators::binary;
pub use indexing::index;
pub use outcomes::Outcome;
pub use unary_operators::unary;
