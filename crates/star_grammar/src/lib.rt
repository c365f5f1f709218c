//! The grammar of Starlark: its symbols, its trees as they are written, and which symbols spell
//! which tree.
//!
//! `specs/Expressions.antt` and `specs/Statements.antt` are the grammar, a relation with one
//! constructor a production; read them first. `specs/ExpressionReading.antt` and
//! `specs/StatementReading.antt` are a reader, a function of lists, which the parser follows.
//! Orders of arguments and parameters, where `break`, `return` and `load` may stand, and the
//! nesting are part of the relation.
//! Laws (`laws.rt`): what is read is spelled, what is spelled is read, and a text spells one tree
//! at most.
//! Limits: trees are at most 128 deep.
//! Source: the Starlark specification, "Grammar reference", and Bazel's dialect of it.
//! To add a production write its constructor, its reader, and its case in `proofs/`.
#![tactic(auto)]

pub mod bare_expressions;
pub mod bare_statements;
pub mod laws;
pub mod symbols;

pub use bare_expressions::{BareArg, BareClause, BareExpr, BareName, BarePair, BareParam, Level};
pub use bare_statements::{BareFile, BareLoadName, BareStmt, BareStmtKind, Part};
pub use star_trees::Inside;
pub use symbols::{Sign, Symbol, SymbolKind};
