//! What a method of a string gives.
use bz_text::{Seq, Txt};

/// What a method gives, before it is made in a heap.
#[derive(Drop)]
pub enum TextAnswer {
    Text(Txt),
    Flag(bool),
    Number(i64),
    List(Seq<Txt>),
    Tuple(Seq<Txt>),
}

/// Where a text is stripped.
#[derive(Clone, Copy, Debug, PartialEq, Eq)]
pub enum Side {
    Front,
    End,
    Both,
}
