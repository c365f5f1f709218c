//! The syntax trees of Starlark, and what a file must be for an evaluation to rest on it.
//!
//! A tree is what a text means once its names are resolved: a name is a variable with its scope
//! and its slot, a `def` or a `lambda` is an index into the file's functions, and a `load` is an
//! index into its loads. `specs/WellFormed.antt` says what a file must be, and is the definition
//! to read first. Its parts are `Indexes`, `Mentions` (of each function once), `Counted`
//! (variables), `Nesting` and `Orders`. Values of trees are told by `specs/Folds.antt`, with one
//! lemma a construct in `proofs/Folds.antt`. That parsed files are well formed is a law of
//! `star_conditions`. The public source is the Starlark specification.
#![tactic(auto)]

pub mod files;
pub mod held;
pub mod inside;
pub mod loads;
pub mod trees;

pub use files::{File, FnBody, FnCode, Param};
pub use held::Held;
pub use inside::Inside;
pub use loads::{Load, LoadName};
pub use trees::{Arg, BinOp, Clause, Expr, ExprPair, Stmt, StmtKind, Target, UnOp, Var};

/// How many constructs may be open at one place of a text.
pub const DEEPEST: usize = 128;
