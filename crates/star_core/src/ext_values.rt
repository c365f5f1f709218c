//! What an extension's run gives, and what is kept of it.
use bz_base::Spec;
use bz_text::{Seq, Txt};

/// Which of its repositories an extension wants the root to import.
#[derive(Debug, Drop)]
pub enum MetaList {
    Unsaid,
    All,
    Names(Seq<Txt>),
}

/// An extension's metadata: the root's direct dependencies, and its direct dev dependencies.
#[derive(Debug, Drop)]
pub struct Meta {
    pub direct: MetaList,
    pub direct_dev: MetaList,
}

#[derive(Clone, Copy, Debug, PartialEq, Eq)]
pub enum InputKind {
    File,
    Dirents,
    Env,
    Os,
    Mapping,
}

/// A question that a run asked, and the value of its answer.
#[derive(Debug, Drop)]
pub struct Input {
    pub kind: InputKind,
    pub subject: Txt,
    pub value: Option<Txt>,
}

/// The value of an extension.
#[derive(Debug, Drop)]
pub struct ExtValue {
    pub specs: Seq<Spec>,
    pub meta: Option<Meta>,
    pub reproducible: bool,
    /// Whether it is that of the lockfile.
    pub reused: bool,
    pub bzl_digest: Txt,
    pub inputs: Seq<Input>,
}
