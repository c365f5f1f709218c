//! Names without a meaning.
use bz_text::Txt;

/// A use of a name that nothing binds and the dialect doesn't know, and its line.
#[derive(Debug, Drop)]
pub struct Unbound {
    pub line: u64,
    pub name: Txt,
}
