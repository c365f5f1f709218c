//! Statements and expressions as they are written. Brackets alone leave no trace, and an `elif` is
//! an `If` alone in the `other` of the one before it. `Items` and `Boxed` stand for lists and
//! boxes, so that trees are compared by what they hold.
use bz_text::Txt;
use sqlite_items::{Boxed, Items};

/// A variable. `scope` counts scopes outwards from the one in which the name stands, then the
/// file's, then that of the free names; `slot` is its index there.
#[derive(Debug, Drop)]
pub struct Var {
    pub name: Txt,
    pub scope: u32,
    pub slot: u32,
}

#[derive(Clone, Copy, Debug, PartialEq, Eq)]
pub enum UnOp {
    Not,
    Plus,
    Minus,
    Invert,
}

#[derive(Clone, Copy, Debug, PartialEq, Eq)]
pub enum BinOp {
    Or,
    And,
    Eq,
    Ne,
    Lt,
    Gt,
    Le,
    Ge,
    Within,
    NotWithin,
    BitOr,
    BitXor,
    BitAnd,
    Shl,
    Shr,
    Add,
    Sub,
    Mul,
    Div,
    Mod,
}

#[cycle(statement)]
#[derive(Drop)]
pub struct Stmt {
    pub line: u64,
    pub kind: StmtKind,
}

#[cycle(statement)]
#[derive(Drop)]
pub enum StmtKind {
    /// `function` is an index into the file's functions.
    Def {
        function: u32,
        to: Var,
    },
    If {
        test: Expr,
        then: Items<Stmt>,
        other: Items<Stmt>,
    },
    For {
        to: Target,
        over: Expr,
        body: Items<Stmt>,
    },
    Return(Option<Expr>),
    Break,
    Continue,
    Pass,
    /// An index into the file's loads.
    Load(u32),
    Assign {
        to: Target,
        value: Expr,
    },
    Augment {
        place: Expr,
        op: BinOp,
        value: Expr,
    },
    Value(Expr),
}

#[cycle(expression)]
#[derive(Drop)]
pub enum Target {
    Name(Var),
    Index { of: Boxed<Expr>, at: Boxed<Expr> },
    Many(Items<Target>),
}

#[cycle(expression)]
#[derive(Drop)]
pub enum Expr {
    Name(Var),
    Int(i64),
    Text(Txt),
    List(Items<Expr>),
    Tuple(Items<Expr>),
    Dict(Items<ExprPair>),
    ListComp {
        item: Boxed<Expr>,
        clauses: Items<Clause>,
    },
    DictComp {
        key: Boxed<Expr>,
        value: Boxed<Expr>,
        clauses: Items<Clause>,
    },
    Unary {
        op: UnOp,
        of: Boxed<Expr>,
    },
    Binary {
        op: BinOp,
        left: Boxed<Expr>,
        right: Boxed<Expr>,
    },
    Cond {
        test: Boxed<Expr>,
        then: Boxed<Expr>,
        other: Boxed<Expr>,
    },
    /// An index into the file's functions.
    Lambda(u32),
    Attr {
        of: Boxed<Expr>,
        name: Txt,
    },
    Index {
        of: Boxed<Expr>,
        at: Boxed<Expr>,
    },
    Slice {
        of: Boxed<Expr>,
        begin: Option<Boxed<Expr>>,
        end: Option<Boxed<Expr>>,
        step: Option<Boxed<Expr>>,
    },
    Call {
        function: Boxed<Expr>,
        args: Items<Arg>,
    },
}

#[cycle(expression)]
#[derive(Drop)]
pub struct ExprPair {
    pub key: Expr,
    pub value: Expr,
}

#[cycle(expression)]
#[derive(Drop)]
pub enum Clause {
    For { to: Target, over: Expr },
    If(Expr),
}

#[cycle(expression)]
#[derive(Drop)]
pub enum Arg {
    Positional(Expr),
    Named { name: Txt, value: Expr },
    Star(Expr),
    DoubleStar(Expr),
}
