//! The symbols of the grammar: tokens seen by what they are.
use bz_text::Txt;

/// What its kind alone tells: a keyword, a mark, a sign of the layout, or a word that stands
/// nowhere.
#[derive(Clone, Copy, Debug, PartialEq, Eq)]
pub enum Sign {
    And,
    Break,
    Continue,
    Def,
    Elif,
    Else,
    For,
    If,
    In,
    Lambda,
    Load,
    Not,
    Or,
    Pass,
    Return,
    Plus,
    Minus,
    Star,
    Slashes,
    Percent,
    StarStar,
    Tilde,
    Ampersand,
    Bar,
    Caret,
    ShiftLeft,
    ShiftRight,
    Dot,
    Comma,
    Assign,
    Semicolon,
    Colon,
    LeftRound,
    RightRound,
    LeftSquare,
    RightSquare,
    LeftCurly,
    RightCurly,
    Below,
    Above,
    AtLeast,
    AtMost,
    Equal,
    Unequal,
    PlusAssign,
    MinusAssign,
    StarAssign,
    SlashesAssign,
    PercentAssign,
    AmpersandAssign,
    BarAssign,
    CaretAssign,
    ShiftLeftAssign,
    ShiftRightAssign,
    Newline,
    Indent,
    Outdent,
    Reserved,
}

#[derive(Debug, Drop)]
pub enum SymbolKind {
    Name(Txt),
    Int(i64),
    Text(Txt),
    Sign(Sign),
}

/// A symbol and the line on which it begins.
#[derive(Debug, Drop)]
pub struct Symbol {
    pub kind: SymbolKind,
    pub line: u64,
}
