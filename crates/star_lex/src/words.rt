//! What a word is.
ghost use Rattle.std.specs.Prelude.{◌≡◌};
ghost use Rattle.star_lex.specs.Words.{is_keyword, is_reserved, word_kind};

use crate::token::TokenKind;
use bz_text::same_bytes;

fn is_keyword(word: &[u8]) -> bool
    ensures { result ≡ is_keyword word.now }
{
    same_bytes(word, b"and")
        || same_bytes(word, b"break")
        || same_bytes(word, b"continue")
        || same_bytes(word, b"def")
        || same_bytes(word, b"elif")
        || same_bytes(word, b"else")
        || same_bytes(word, b"for")
        || same_bytes(word, b"if")
        || same_bytes(word, b"in")
        || same_bytes(word, b"lambda")
        || same_bytes(word, b"load")
        || same_bytes(word, b"not")
        || same_bytes(word, b"or")
        || same_bytes(word, b"pass")
        || same_bytes(word, b"return")
}

fn is_reserved(word: &[u8]) -> bool
    ensures { result ≡ is_reserved word.now }
{
    same_bytes(word, b"as")
        || same_bytes(word, b"assert")
        || same_bytes(word, b"class")
        || same_bytes(word, b"del")
        || same_bytes(word, b"except")
        || same_bytes(word, b"finally")
        || same_bytes(word, b"from")
        || same_bytes(word, b"global")
        || same_bytes(word, b"import")
        || same_bytes(word, b"is")
        || same_bytes(word, b"nonlocal")
        || same_bytes(word, b"raise")
        || same_bytes(word, b"try")
        || same_bytes(word, b"while")
        || same_bytes(word, b"with")
        || same_bytes(word, b"yield")
}

#[tactic(auto, unfolding(crate::specs::Words::word_kind))]
pub(crate) fn word_kind(word: &[u8]) -> TokenKind
    ensures { result ≡ word_kind word.now }
{
    if is_keyword(word) {
        TokenKind::Keyword
    } else if is_reserved(word) {
        TokenKind::Reserved
    } else {
        TokenKind::Identifier
    }
}
