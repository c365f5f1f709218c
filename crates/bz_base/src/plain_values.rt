//! Plain values: those of attributes, tags and declared repositories.
use crate::labels::Label;
use bz_text::Txt;
use sqlite_items::Items;

/// A value without identity. A dictionary is the list of its pairs, in order.
#[cycle(plain)]
#[derive(Debug, Drop)]
pub enum Plain {
    None,
    Flag(bool),
    Int(i64),
    Text(Txt),
    Label(Label),
    Items(Items<Plain>),
    Pairs(Items<PlainPair>),
}

/// A key of a dictionary and its value.
#[cycle(plain)]
#[derive(Debug, Drop)]
pub struct PlainPair {
    pub key: Plain,
    pub value: Plain,
}

/// A value under a name, as an attribute has it.
#[derive(Debug, Drop)]
pub struct Named {
    pub name: Txt,
    pub value: Plain,
}
