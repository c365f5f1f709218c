//! Tokens and where they stand.
use bz_text::Txt;

/// What a token is. An integer and a string have their value.
#[derive(Debug, Drop)]
pub enum TokenKind {
    Identifier,
    Keyword,
    Reserved,
    Int(i64),
    Text(Txt),
    Mark,
    Newline,
    Indent,
    Outdent,
}

/// A token, the bytes of the text from which and to which it goes, and the line on which it begins,
/// from 1.
#[derive(Debug, Drop)]
pub struct Token {
    pub kind: TokenKind,
    pub begin: u64,
    pub end: u64,
    pub line: u64,
}

/// The text has no tokens. The hint is the line to look at.
#[derive(Clone, Copy, Debug, PartialEq, Eq)]
pub struct LexFault {
    pub hint: u64,
}

/// Nothing of the lexis stands there.
#[derive(Clone, Copy, Debug, PartialEq, Eq)]
pub(crate) struct NoLexeme;
