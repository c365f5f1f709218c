//! Small texts beside what the crates of the syntax make of them: tokens, trees as they are
//! written, scopes, and files with their names resolved. It holds tests alone, over public calls.
#![tactic(auto)]

#[cfg(test)]
mod file_rows;
#[cfg(test)]
mod scope_rows;
#[cfg(test)]
mod token_rows;
#[cfg(test)]
mod tree_rows;
#[cfg(test)]
mod tree_text;
#[cfg(test)]
mod variable_text;
#[cfg(test)]
mod writer;
