//! What the searches and pieces of `star_scalars` are, in words of their own. Nothing runs here.
//!
//! Read `specs/Places.antt`: a text stands at an index of another one where that is what is before,
//! the text and what is behind. `laws.rt` is the index of what is proved: `find` gives the least
//! such index and `rfind` the greatest, `partition` and `rpartition` cut there; the pieces of
//! `split` and `rsplit`, and the lines of `splitlines`, joined are the text; `replace` joins the
//! pieces by another text.
//! Source: the Starlark specification, "Built-in methods" of strings.
#![tactic(auto)]

pub mod laws;
