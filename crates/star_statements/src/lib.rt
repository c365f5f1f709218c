//! The parser of Starlark's statements and files: one method a production, in the grammar's order,
//! from the text on.
//!
//! In comes a text; out goes the tree that it spells as it is written, `Lex` where it has no
//! tokens, or `Syntax` where it has tokens and spells no tree.
//! Read `specs/Parsed.antt` first. `text_symbols.rt` makes symbols of tokens, `suites.rt` and
//! `small_statements.rt` read statements, `files.rt` the whole.
//! What is read is what the grammar's reader reads (`star_grammar/specs/StatementReading.antt`).
//! Laws: those of `star_grammar`.
//! Limits: 128 constructs deep; the line of a fault is a hint.
//! Source: the Starlark specification, "Grammar reference".
//! To change a production open its method here and its reader there.
#![tactic(auto)]

mod files;
mod loads;
mod small_statements;
mod suites;
mod text_symbols;
mod trees;

pub use trees::{TreeFault, tree};
