//! Rows for registries and overrides: small trees in memory beside what each public call answers
//! and what is remembered of the files that were asked. It holds tests alone.
#![tactic(auto)]

#[cfg(test)]
mod index_rows;
#[cfg(test)]
mod override_rows;
