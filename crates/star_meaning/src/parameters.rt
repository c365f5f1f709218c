//! What a parameter of a function takes of a call's arguments.
use bz_text::Seq;
use star_core::{NamedVal, Val};

/// A value; the arguments by position that no parameter before takes, or the arguments by name that
/// are no parameter's.
#[derive(Debug, Drop)]
pub enum Share {
    Holds(Val),
    Others(Seq<Val>),
    Names(Seq<NamedVal>),
}
