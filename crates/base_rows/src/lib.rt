//! Rows for the ground floor: texts, plain values, paths, versions, labels and the outside, each
//! public call once as a caller would make it.
//!
//! `tables.rt` has them as text, a call a line; the files of calls make them, and `calls.rt` reads
//! a table. `rows.rt`, `count_rows.rt` and `outside_rows.rt` have the tests. It holds tests alone.
#![tactic(auto)]

#[cfg(test)]
mod calls;
#[cfg(test)]
mod count_rows;
#[cfg(test)]
mod label_calls;
#[cfg(test)]
mod lock_calls;
#[cfg(test)]
mod outside_calls;
#[cfg(test)]
mod outside_rows;
#[cfg(test)]
mod path_calls;
#[cfg(test)]
mod rows;
#[cfg(test)]
mod tables;
#[cfg(test)]
mod text_calls;
#[cfg(test)]
mod value_calls;
#[cfg(test)]
mod version_calls;
