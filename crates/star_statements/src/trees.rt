//! A text's tree: its tokens, as symbols, as a file.
ghost use Rattle.std.specs.Prelude.{length};
ghost use Rattle.star_lex.specs.Slices.{AreSlices};
ghost use Rattle.star_lex.specs.Tokens.{Lexes};
ghost use Rattle.star_statements.specs.Parsed.{Parsed, Whole};

use crate::files::file;
use crate::text_symbols::symbols_of;
use bz_text::{May, Miss, Seq};
use star_expressions::{Cursor, NoTree};
use star_grammar::{BareFile, Symbol};
use star_lex::{LexFault, Token, tokens};
use std::alloc::Global;

/// Why a text has no tree: it has no tokens, or its tokens spell none. The hint is the line to look
/// at.
#[derive(Clone, Copy, Debug, PartialEq, Eq)]
pub enum TreeFault {
    Lex { hint: u64 },
    Syntax { hint: u64 },
}

/// The tree of a text, as it is written. Dialects and bindings are not looked at.
pub fn tree(alloc: Global, text: &str) -> May<BareFile, TreeFault>
    ensures { Parsed text.now result }
{
    match tokens(alloc, text) {
        Ok(tokens) => spelled(alloc, text, tokens),
        Err(Miss::Because(LexFault { hint })) => Err(Miss::Because(TreeFault::Lex { hint })),
        Err(Miss::OutOfMemory) => Err(Miss::OutOfMemory),
    }
}

/// The tree of a text with these tokens.
fn spelled(alloc: Global, text: &str, tokens: Seq<Token>) -> May<BareFile, TreeFault>
    requires lexed { Lexes text.now tokens }
    requires placed { AreSlices text.now 0 tokens (length text.now) }
    ensures { Parsed text.now result }
{
    let symbols = symbols_of(alloc, text.as_bytes(), tokens.items())?;
    whole(alloc, symbols.items())
}

/// The file that symbols spell.
fn whole(alloc: Global, symbols: &[Symbol]) -> May<BareFile, TreeFault>
    ensures { Whole symbols.now result }
{
    let mut cursor = Cursor { rest: symbols };
    let found = file(alloc, &mut cursor);
    let Cursor { rest } = cursor;
    let hint = line_to_look_at(symbols, rest);
    match found {
        Ok(file) => Ok(file),
        Err(Miss::Because(NoTree)) => Err(Miss::Because(TreeFault::Syntax { hint })),
        Err(Miss::OutOfMemory) => Err(Miss::OutOfMemory),
    }
}

/// The line of the next symbol, or of the last where none is left.
fn line_to_look_at(symbols: &[Symbol], rest: &[Symbol]) -> u64 {
    match rest {
        [next, ..] => next.line,
        [] => last_line(symbols),
    }
}

fn last_line(symbols: &[Symbol]) -> u64 {
    match symbols {
        [.., last] => last.line,
        [] => 1,
    }
}
