//! Rows for the directives of a module file: calls on their host, one behind another, and what the
//! file declares by them or how it is refused, as one text.
//!
//! `words.rt` reads values, `calls.rt` makes the calls, `texts.rt` writes what comes of them, and
//! `tables.rt` has the rows. It holds tests alone.
#![tactic(auto)]

#[cfg(test)]
mod calls;
#[cfg(test)]
mod tables;
#[cfg(test)]
mod texts;
#[cfg(test)]
mod words;
