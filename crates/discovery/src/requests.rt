//! What asks for a module.
use bz_base::{Key, Txt};

/// A key that is asked for, and the module file and line that ask first.
#[derive(Debug, Drop)]
pub struct Request {
    pub key: Key,
    pub file: Txt,
    pub line: u64,
}
