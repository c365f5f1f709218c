//! Rows for selection: small graphs as lines of modules beside what is selected of them, or why they
//! are refused. It holds tests alone.
#![tactic(auto)]

#[cfg(test)]
mod graphs;
#[cfg(test)]
mod selection_rows;
