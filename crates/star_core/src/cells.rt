//! The cells of a heap: each value that isn't small.
use crate::dict::Dict;
use crate::values::{NamedVal, Val};
use bz_base::Label;
use bz_text::{Seq, Txt};

/// A function that a `def` or a `lambda` made.
#[derive(Drop)]
pub struct Function {
    /// Its name, which of a `lambda` is `lambda`.
    pub name: Txt,
    /// Which of the evaluation's files defines it.
    pub file: usize,
    /// Which of that file's functions it is.
    pub function: u32,
    /// The values of its defaults, in the order of its parameters.
    pub defaults: Seq<Val>,
    /// The number of the scope round it.
    pub around: usize,
}

#[derive(Drop)]
pub enum Cell {
    Text(Txt),
    List(Seq<Val>),
    Tuple(Seq<Val>),
    Dict(Dict),
    Range { first: i64, stop: i64, step: i64 },
    Function(Function),
    /// A function of the library, by its name.
    Builtin(Txt),
    /// A method of a value.
    Bound { receiver: Val, method: Txt },
    Struct(Seq<NamedVal>),
    Label(Label),
    /// A path below a repository's root.
    Path { repo: Txt, segments: Seq<Txt> },
    /// An object of the host, by its type's name.
    Host { kind: Txt, fields: Seq<NamedVal> },
}
