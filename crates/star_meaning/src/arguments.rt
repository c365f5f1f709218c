//! How arguments are given, and what a function's parameters take.
use bz_text::Txt;

/// How an argument of a call is given: by its position, by a name, as the items of an iterable, or
/// as the entries of a dictionary.
#[derive(Debug, Drop)]
pub enum Way {
    Positional,
    Named(Txt),
    Star,
    DoubleStar,
}

/// A parameter of a function without its default. Those behind `Bare` or `Rest` are given by name
/// alone.
#[derive(Debug, Drop)]
pub enum Formal {
    Required(Txt),
    Optional(Txt),
    Bare,
    Rest(Txt),
    Keywords(Txt),
}
