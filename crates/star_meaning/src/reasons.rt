//! Why and where an evaluation is refused, and how a loop or a function is left.
ghost use Rattle.std.specs.Prelude.{◌≡◌};
ghost use Rattle.star_meaning.specs.Worlds as spec;

use star_core::{Fault, Val};

/// How many calls of functions may run at once.
pub const MOST_CALLS: usize = 64;

/// Why the language refuses an evaluation.
#[derive(Clone, Copy, Debug, PartialEq, Eq)]
pub enum Reason {
    /// A fault of its kinds.
    Fault(Fault),
    /// The count of steps reached its limit.
    Steps,
    /// A construct that isn't evaluated yet.
    Unbuilt,
}

/// Where a statement begins: the number of its file, and its line.
#[derive(Clone, Copy, Debug, PartialEq, Eq)]
pub struct Place {
    pub file: usize,
    pub line: u64,
}

/// A function whose call is running, whatever closure was called: the number of its file, and which
/// of that file's functions it is.
#[derive(Clone, Copy, Debug, PartialEq, Eq)]
pub struct Running {
    pub file: usize,
    pub function: u32,
}

/// How a loop or a function is left.
#[derive(Clone, Copy, Debug, PartialEq, Eq)]
pub enum Exit {
    Return(Val),
    Break,
    Continue,
}

/// A closure: the number of its file, which of that file's functions it is, and the number of the
/// scope round it.
#[derive(Clone, Copy, Debug, PartialEq, Eq)]
pub struct Closure {
    pub file: usize,
    pub function: u32,
    pub around: usize,
}

/// Where an attribute of a value comes from.
#[derive(Clone, Copy, Debug, PartialEq, Eq)]
pub enum Attribute {
    /// The object with this number answers for itself.
    Hosted(u32),
    /// A field of a structure.
    Lies(Val),
    /// A method of the library.
    IsMethod,
    Missing,
}

/// How an augmented assignment changes a value where it lies.
#[derive(Clone, Copy, Debug, PartialEq, Eq)]
pub enum InPlace {
    Extends,
    Merges,
    Elsewhere,
}

/// The line of the innermost running statement; 0 where none runs.
pub fn line_of(place: Option<Place>) -> u64
    ensures { result ≡ spec.line_of place }
{
    match place {
        None => 0,
        Some(place) => place.line,
    }
}
