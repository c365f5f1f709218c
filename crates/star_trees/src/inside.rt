//! What stands round a statement.

/// Whether nothing stands round a statement, whether a function does, and whether a loop of the
/// same function does.
#[derive(Clone, Copy, Debug, PartialEq, Eq)]
pub struct Inside {
    pub top: bool,
    pub function: bool,
    pub looping: bool,
}
