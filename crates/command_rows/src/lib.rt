//! Rows for the commands: small workspaces beside what a run leaves. It holds tests alone.
#![tactic(auto)]

#[cfg(test)]
mod graph_rows;
