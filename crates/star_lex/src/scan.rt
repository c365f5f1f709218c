//! One pass over a text: the lexeme at the front of what is left is laid out, until nothing is
//! left.
ghost use Rattle.std.specs.Prelude.{◌≡◌, ◌≤◌, ◌<◌, ◌+◌, ◌^◌, ℕ, length, IfOk};
ghost use Rattle.std.specs.Str.{IsUtf8};
ghost use Rattle.star_lex.specs.Answers.{Answers};
ghost use Rattle.star_lex.specs.Slices.{AreSlices};
ghost use Rattle.star_lex.specs.Tokens.{IsStep, Lexes, Scanned};
ghost use Rattle.star_lex.specs.declared.layout.Layout.{Layout};

use crate::layout::Layout;
use crate::lexemes::front_lexeme;
use crate::strings::behind;
use crate::token::{LexFault, NoLexeme, Token};
use bz_text::{May, Miss, Seq};
use std::alloc::Global;

/// Lays out the lexeme at the front of the rest, and gives its length.
fn advance(alloc: Global, layout: &mut Layout, rest: &[u8]) -> May<usize, NoLexeme>
    requires room { layout.old.at + length rest.now < 2 ^ 63 }
    requires lined { layout.old.line ≤ layout.old.at + 1 }
    requires nested { layout.old.depth ≤ layout.old.at }
    requires utf8 { IsUtf8 rest.now }
    ensures { Answers (λ n. IsStep layout.old rest.now layout.new n)
        ((t : Layout) (n : ℕ) → IsStep layout.old rest.now t n → ⊥) result }
{
    match front_lexeme(alloc, rest) {
        Ok((lexeme, size)) => {
            let (front, _) = rest.split_at(size);
            match layout.lay(lexeme, front) {
                Ok(()) => Ok(size),
                Err(Miss::Because(NoLexeme)) => Err(Miss::Because(NoLexeme)),
                Err(Miss::OutOfMemory) => Err(Miss::OutOfMemory),
            }
        }
        Err(Miss::Because(NoLexeme)) => Err(Miss::Because(NoLexeme)),
        Err(Miss::OutOfMemory) => Err(Miss::OutOfMemory),
    }
}

/// The tokens of a text.
pub fn tokens(alloc: Global, text: &str) -> May<Seq<Token>, LexFault>
    ensures exact { Scanned text.now result }
    ensures placed { IfOk result (λ tokens. AreSlices text.now 0 tokens (length text.now)) }
{
    let mut layout = Layout::new(alloc);
    let mut rest = text.as_bytes();
    'lexemes: while rest.len() > 0 {
        let line = layout.line;
        match advance(alloc, &mut layout, rest) {
            Ok(size) => rest = behind(rest, size),
            Err(Miss::Because(NoLexeme)) => {
                return Err(Miss::Because(LexFault { hint: line }));
            }
            Err(Miss::OutOfMemory) => return Err(Miss::OutOfMemory),
        }
    }
    match layout.end() {
        Ok(tokens) => Ok(tokens),
        Err(_) => Err(Miss::OutOfMemory),
    }
}
