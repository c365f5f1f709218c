//! Rows of calls on containers: a call whose arguments are given by name, or on a container that is
//! frozen or walked, and what comes of it. It holds tests alone.
//!
//! `words.rt` reads the values of a row, `calls.rt` makes its call and tells what comes of it, and
//! `tables.rt` has the rows.
#![tactic(auto)]

#[cfg(test)]
mod calls;
#[cfg(test)]
mod tables;
#[cfg(test)]
mod words;
