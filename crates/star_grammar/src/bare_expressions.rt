//! Expressions as they are written, with names that aren't resolved yet. Round brackets stay in the
//! tree, since a place may not stand in them. `Items` and `Boxed` stand for lists and boxes, so
//! that trees are compared by what they hold.
use bz_text::Txt;
use sqlite_items::{Boxed, Items};
use star_trees::{BinOp, UnOp};

/// The levels of expressions at which a nested one may begin.
#[derive(Clone, Copy, Debug, PartialEq, Eq)]
pub enum Level {
    Primary,
    Unary,
    Negation,
    Disjunction,
    Test,
}

/// A name and the line on which it stands.
#[derive(Debug, Drop)]
pub struct BareName {
    pub name: Txt,
    pub line: u64,
}

#[cycle(expression)]
#[derive(Drop)]
pub enum BareExpr {
    Name(BareName),
    Int(i64),
    Text(Txt),
    List(Items<BareExpr>),
    Tuple(Items<BareExpr>),
    Dict(Items<BarePair>),
    ListComp {
        item: Boxed<BareExpr>,
        clauses: Items<BareClause>,
    },
    DictComp {
        key: Boxed<BareExpr>,
        value: Boxed<BareExpr>,
        clauses: Items<BareClause>,
    },
    /// An expression in round brackets.
    Bracketed(Boxed<BareExpr>),
    Unary {
        op: UnOp,
        of: Boxed<BareExpr>,
    },
    Binary {
        op: BinOp,
        left: Boxed<BareExpr>,
        right: Boxed<BareExpr>,
    },
    Cond {
        test: Boxed<BareExpr>,
        then: Boxed<BareExpr>,
        other: Boxed<BareExpr>,
    },
    /// `line` is that of the word `lambda`.
    Lambda {
        params: Items<BareParam>,
        body: Boxed<BareExpr>,
        line: u64,
    },
    Attr {
        of: Boxed<BareExpr>,
        name: Txt,
    },
    Index {
        of: Boxed<BareExpr>,
        at: Boxed<BareExpr>,
    },
    Slice {
        of: Boxed<BareExpr>,
        begin: Option<Boxed<BareExpr>>,
        end: Option<Boxed<BareExpr>>,
        step: Option<Boxed<BareExpr>>,
    },
    Call {
        function: Boxed<BareExpr>,
        args: Items<BareArg>,
    },
}

#[cycle(expression)]
#[derive(Drop)]
pub struct BarePair {
    pub key: BareExpr,
    pub value: BareExpr,
}

/// `to` is a target.
#[cycle(expression)]
#[derive(Drop)]
pub enum BareClause {
    For { to: BareExpr, over: BareExpr },
    If(BareExpr),
}

/// `line` is that of the mark `*` or `**`.
#[cycle(expression)]
#[derive(Drop)]
pub enum BareArg {
    Positional(BareExpr),
    Named { name: Txt, value: BareExpr },
    Star { value: BareExpr, line: u64 },
    DoubleStar { value: BareExpr, line: u64 },
}

/// `line` is that of the mark `*` or `**`.
#[cycle(expression)]
#[derive(Drop)]
pub enum BareParam {
    Required(Txt),
    Optional { name: Txt, default: BareExpr },
    Bare { line: u64 },
    Rest { name: Txt, line: u64 },
    Keywords { name: Txt, line: u64 },
}
