//! The values of Starlark's evaluation: small ones, the heap of cells, the store of variables, the
//! table of answers, and the hosts that an evaluation calls.
//!
//! In come cells and values; out go changed heaps, or a kind of fault with the heap as it was. A
//! heap counts what its cells cost, so that no file makes it grow without bound.
//! Read `specs/Heaps.antt` first (what each call changes), then `Sizes` (what a cell costs) and
//! `Hosts` (what a host may do, and its laws). `Conditions` says what a good heap is.
//! A dictionary is kept under the text of each key's content (`Contents`), a table of answers under
//! its questions (`Tables`); contracts see both as lists. `MemHost` is a host for trying callers.
//! Laws (`laws.rt`): which calls keep a heap good, and what of it stays a value.
//! Limits: 64 MiB for all cells of a run, 16 MiB a text, 1,048,576 entries a container,
//! 4,294,967,296 cells; integers have 64 bits.
//! Source: the Starlark specification, "Data types", "Freezing a value", "Name binding". The types
//! of trees come from `star_trees` and are given on. To add a kind of cell open `src/cells.rt`.
#![tactic(auto)]

pub mod answers;
pub mod cells;
pub mod dict;
pub mod ext_values;
pub mod faults;
pub mod heap;
pub mod host;
pub mod laws;
pub mod mem_host;
pub mod questions;
pub mod scopes;
pub mod stack;
pub mod values;

pub use answers::Answers;
pub use cells::{Cell, Function};
pub use dict::{Dict, Pair};
pub use ext_values::{ExtValue, Input, InputKind, Meta, MetaList};
pub use faults::Fault;
pub use heap::{Heap, HeapCell};
pub use host::{Declare, Host, HostStep};
pub use mem_host::MemHost;
pub use questions::{Answer, Question};
pub use scopes::{Scope, Scopes};
pub use stack::Stack;
pub use star_trees::{
    Arg, BinOp, Clause, Expr, ExprPair, File, FnBody, FnCode, Load, LoadName, Param, Stmt,
    StmtKind, Target, UnOp, Var,
};
pub use values::{Args, NamedVal, Val};
