//! What a module file declares. Each `line` is that of the declaring call.
use crate::plain_values::Named;
use bz_text::{Seq, Txt};

/// A `bazel_dep`. The `apparent` name is empty for a nodep dependency alone.
#[derive(Debug, Drop)]
pub struct Dep {
    pub name: Txt,
    pub version: Txt,
    pub apparent: Txt,
    pub dev: bool,
    pub line: u64,
}

/// A tag of an extension.
#[derive(Debug, Drop)]
pub struct Tag {
    pub class: Txt,
    pub attrs: Seq<Named>,
    pub dev: bool,
    pub line: u64,
}

/// A generated repository under an apparent name.
#[derive(Debug, Drop)]
pub struct Import {
    pub apparent: Txt,
    pub real: Txt,
    pub line: u64,
}

/// A repository declared by the call of a rule of `use_repo_rule`.
#[derive(Debug, Drop)]
pub struct Declared {
    pub bzl: Txt,
    pub rule: Txt,
    pub attrs: Seq<Named>,
    pub line: u64,
}

/// An overridden repository of an extension, or an injected one.
#[derive(Debug, Drop)]
pub struct RepoChange {
    pub real: Txt,
    pub apparent: Txt,
    pub inject: bool,
    pub line: u64,
}

/// A `use_extension` with its tags, imports and repository changes.
#[derive(Debug, Drop)]
pub struct Usage {
    pub bzl: Txt,
    pub name: Txt,
    pub dev: bool,
    pub tags: Seq<Tag>,
    pub imports: Seq<Import>,
    pub changes: Seq<RepoChange>,
    pub line: u64,
}

/// What a module has of extensions, in order of its file.
#[derive(Debug, Drop)]
pub enum Part {
    Usage(Usage),
    Declared(Declared),
}

/// How a module is overridden. An empty `version` or `registry` is one that is not given.
#[derive(Debug, Drop)]
pub enum OverrideKind {
    Single {
        version: Txt,
        registry: Txt,
        patched: bool,
    },
    Multiple {
        versions: Seq<Txt>,
        registry: Txt,
    },
    Local {
        path: Txt,
    },
    Archive,
    Git,
}

/// An override of the root's.
#[derive(Debug, Drop)]
pub struct Override {
    pub name: Txt,
    pub kind: OverrideKind,
    pub line: u64,
}

/// A module file's declarations. `nodeps` are the dependencies without a repository name: each asks
/// for a version only if its module is in the graph by other means.
#[derive(Debug, Drop)]
pub struct ModuleDecl {
    pub name: Txt,
    pub version: Txt,
    pub level: u32,
    pub repo_name: Txt,
    pub deps: Seq<Dep>,
    pub nodeps: Seq<Dep>,
    pub parts: Seq<Part>,
    pub overrides: Seq<Override>,
}
