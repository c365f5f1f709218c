//! The environment that a run sees.
use bz_text::{Seq, Txt};

/// An environment variable and its value.
#[derive(Debug, Drop)]
pub struct EnvPair {
    pub name: Txt,
    pub value: Txt,
}

/// The environment of a run. Of two pairs with one name the first counts; `os` and `arch` are names
/// as Bazel writes them, like `linux` and `amd64`.
#[derive(Debug, Drop)]
pub struct EnvTable {
    pub pairs: Seq<EnvPair>,
    pub os: Txt,
    pub arch: Txt,
}
