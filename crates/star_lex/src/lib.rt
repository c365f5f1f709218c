//! Starlark's tokens: a text, cut into its lexemes, with lines laid out as indents, outdents and
//! newlines.
//!
//! In comes a text; out goes the list of its tokens with kind, span in bytes and line, or a fault
//! with a line as a hint.
//! Read `specs/Tokens.antt` first: lexeme after lexeme up to the end (`Lexes`), each laid out by
//! what stands round it; `specs/Lexemes.antt` says what a lexeme is.
//! The code is one pass; `layout.rt` keeps the brackets that are open and the levels of
//! indentation.
//! Laws (`laws.rt`): a text has one token list at most. Each token stands over its own bytes, and
//! the spans are in order.
//! Limits: integers of 64 bits; strings are UTF-8 without a lone carriage return or a NUL.
//! Source: the Starlark specification, "Lexical elements".
#![tactic(auto)]

mod bytes;
mod integers;
pub mod laws;
mod layout;
mod levels;
mod lexemes;
mod marks;
mod runs;
mod scan;
mod strings;
pub mod token;
mod words;

pub use scan::tokens;
pub use token::{LexFault, Token, TokenKind};
