//! The `load` statements of a file.
use bz_text::{Seq, Txt};

#[derive(Debug, Drop)]
pub struct Load {
    pub file: Txt,
    pub names: Seq<LoadName>,
    pub line: u64,
}

/// A name that a file takes from another, and what it calls it.
#[derive(Debug, Drop)]
pub struct LoadName {
    pub local: Txt,
    pub remote: Txt,
}
