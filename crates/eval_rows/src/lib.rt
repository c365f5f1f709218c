//! Rows for evaluations: a text defines `f` as its first global, `f` is called with an object of a
//! host whose methods count and ask, and what comes of it is one text.
//!
//! `trials.rt` runs a text; `rows.rt` has rows on hosts, steps and refusals, and `tables.rt` the
//! library's calls, an expression a line. It holds tests alone.
#![tactic(auto)]

#[cfg(test)]
mod rows;
#[cfg(test)]
mod tables;
#[cfg(test)]
mod trials;
