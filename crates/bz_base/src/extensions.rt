//! Extensions and the repositories that they declare.
use crate::labels::Label;
use crate::plain_values::Named;
use bz_text::{Seq, Txt};

/// An extension: the file that defines it, and the name under which that exports it.
#[derive(Debug, Drop)]
pub struct ExtId {
    pub bzl: Label,
    pub name: Txt,
}

/// A repository that an extension declares: its name, the id of its rule, and the attributes given.
#[derive(Debug, Drop)]
pub struct Spec {
    pub repo: Txt,
    pub rule: Txt,
    pub attrs: Seq<Named>,
}
