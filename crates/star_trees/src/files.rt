//! A file and the functions that it defines.
use crate::loads::Load;
use crate::trees::{Expr, Stmt};
use bz_text::{Seq, Txt};
use sqlite_items::{Boxed, Items};

/// The tree of a file. `functions` has every `def` and `lambda` in the order in which they begin in
/// the text, `loads` is in the text's order, and `free` has each free name once, in order of first
/// use.
#[derive(Drop)]
pub struct File {
    pub body: Items<Stmt>,
    pub loads: Seq<Load>,
    pub functions: Seq<FnCode>,
    pub free: Seq<Txt>,
}

/// A `def`, or a `lambda`, which has no name and the body `Value`.
#[derive(Drop)]
pub struct FnCode {
    pub name: Option<Txt>,
    pub params: Seq<Param>,
    pub body: FnBody,
    pub line: u64,
}

#[derive(Drop)]
pub enum FnBody {
    Block(Items<Stmt>),
    Value(Boxed<Expr>),
}

/// Parameters after `Bare` or `Rest` are keyword-only.
#[derive(Drop)]
pub enum Param {
    Required(Txt),
    Optional { name: Txt, default: Expr },
    Bare,
    Rest(Txt),
    Keywords(Txt),
}
