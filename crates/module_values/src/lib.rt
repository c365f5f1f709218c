//! Values of a heap as what a module file means by them: plain values, texts, lists of texts,
//! integers and bools.
//!
//! In come a heap and a value; out goes what it is, or that it is nothing of the wanted kind.
//! Read `specs/PlainValues.antt` first: tuples are lists, a dictionary is the list of its pairs in
//! order, and lists and dictionaries nest at most 16 deep. `specs/TextLists` has lists of strings.
//! Law (`laws.rt`): a plain value that is given is good and at most 16 deep.
//! Limits: labels, functions and objects of a host are no plain values here.
//! Source: Bazel, "MODULE.bazel files"; the Starlark specification, "Data types". To let a further
//! kind of value in open `src/plain_values.rt`.
#![tactic(auto)]

pub mod laws;
pub mod plain_values;
pub mod text_lists;

pub use plain_values::plain_value;
pub use text_lists::texts_of;
