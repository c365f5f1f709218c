//! Statements as they are written, with names that aren't resolved yet.
use crate::bare_expressions::{BareExpr, BareName, BareParam};
use bz_text::{Seq, Txt};
use sqlite_items::Items;
use star_trees::{BinOp, LoadName};

/// The tree of a file.
#[derive(Drop)]
pub struct BareFile {
    pub body: Items<BareStmt>,
}

/// What is read at the front of a suite or a file: a statement, a line of small statements, or the
/// rest of an `if` from an `elif` on.
#[derive(Clone, Copy, Debug, PartialEq, Eq)]
pub enum Part {
    Statement,
    Line,
    Elif,
}

/// `line` is that of the statement's first token.
#[cycle(statement)]
#[derive(Drop)]
pub struct BareStmt {
    pub line: u64,
    pub kind: BareStmtKind,
}

/// An `elif` is an `If` alone in `other`. `to` is a target, and `place` a name or an index.
#[cycle(statement)]
#[derive(Drop)]
pub enum BareStmtKind {
    Def {
        name: BareName,
        params: Items<BareParam>,
        body: Items<BareStmt>,
    },
    If {
        test: BareExpr,
        then: Items<BareStmt>,
        other: Items<BareStmt>,
    },
    For {
        to: BareExpr,
        over: BareExpr,
        body: Items<BareStmt>,
    },
    Return(Option<BareExpr>),
    Break,
    Continue,
    Pass,
    Load {
        file: Txt,
        names: Seq<BareLoadName>,
    },
    Assign {
        to: BareExpr,
        value: BareExpr,
    },
    Augment {
        place: BareExpr,
        op: BinOp,
        value: BareExpr,
    },
    Value(BareExpr),
}

/// A name that a file loads, and the line on which it stands.
#[derive(Drop)]
pub struct BareLoadName {
    pub name: LoadName,
    pub line: u64,
}
