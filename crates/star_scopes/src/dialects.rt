//! The two dialects, and the names that each gives a meaning.

/// An extension's or a rule's file, or a module's.
#[derive(Clone, Copy, Debug, PartialEq, Eq)]
pub enum Dialect {
    Extension,
    Module,
}
