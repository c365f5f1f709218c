//! Values: what isn't small lies in a cell of the heap and is named by its number there.
use bz_text::{Seq, Txt};

#[derive(Clone, Copy, Debug, PartialEq, Eq)]
pub enum Val {
    None,
    Bool(bool),
    Int(i64),
    Cell(u32),
}

/// A value under a name.
#[derive(Debug, Drop)]
pub struct NamedVal {
    pub name: Txt,
    pub val: Val,
}

/// The arguments of a call: those by position, and behind them those by name.
#[derive(Debug, Drop)]
pub struct Args {
    pub positional: Seq<Val>,
    pub named: Seq<NamedVal>,
}
