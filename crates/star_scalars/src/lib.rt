//! Texts as lists of characters: what Starlark's string methods ask of a text and make of it,
//! without values and heaps.
//!
//! In come characters; out go characters, a truth, an index, or pieces.
//! Read `specs/Letters.antt` first (letters, digits and space are ASCII's), then `Searches` (the
//! least and the greatest index at which a text stands, and the cuts there) and `Pieces`.
//! Limits: an index counts characters; a search compares at each index.
//! Source: the Starlark specification, "Built-in methods" of strings. To change what a letter is
//! open `src/letters.rt`; where a text is found, `src/searches.rt`.
#![tactic(auto)]

pub mod letters;
pub mod lines;
pub mod pieces;
pub mod searches;

pub use letters::{
    Class, are_all, capitalized, encoded, is_lower, is_space, is_title, is_upper, lower, title,
    upper, without_end, without_front, without_space, without_space_behind,
};
pub use lines::{empty_pieces, split_lines};
pub use pieces::{first_pieces, last_pieces, last_words, words};
pub use searches::{
    begins, cut_first, cut_last, ends, first_index, last_index, without_prefix, without_suffix,
};
