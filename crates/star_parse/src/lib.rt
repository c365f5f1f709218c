//! Starlark's files, as its two dialects read them: from the text to the file with its names
//! resolved.
//!
//! In comes a text; out goes a `File`, or `Lex` (it has no tokens), `Syntax` (it spells no tree),
//! `Dialect` (the first form that the dialect refuses) or `Unbound` (the first name without a
//! meaning), with a line.
//! Read `specs/Parses.antt` first: what a text is to each dialect. `star_statements` makes the
//! tree, `star_dialects` looks for a refused form, `star_scopes` resolves the names; this crate
//! puts them together.
//! Each file that is given is well formed (`star_trees/specs/WellFormed.antt`), by a clause of both
//! calls.
//! Laws: those of `star_grammar` and `star_conditions`.
//! Limits: 128 constructs deep. The line of `Lex` and `Syntax` is a hint that tests alone show.
//! Source: Bazel, ".bzl files" and "MODULE.bazel files".
#![tactic(auto)]

mod parse;

pub use parse::{ParseFault, parse_bzl, parse_module};
