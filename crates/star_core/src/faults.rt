//! Why an evaluation fails.

/// The kinds of fault: `Kind` is a value of another type than stated.
#[derive(Clone, Copy, Debug, PartialEq, Eq)]
pub enum Fault {
    Kind,
    Value,
    Index,
    Key,
    Attr,
    Arity,
    Overflow,
    Zero,
    Frozen,
    Iterating,
    Recursion,
    Unbound,
    Size,
    Depth,
}
