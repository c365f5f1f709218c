//! What every resolved file meets, and so every parsed one.
//!
//! The conditions stand in `star_trees/specs`, and `laws.rt` is the index of what is proved of
//! them here. Each law follows what is made of a tree (`star_scopes/specs/Making`) by one predicate
//! on makings: `IndexesMade`, `MentionsMade` and `CountsMade` hold of any resolved tree, `Made`
//! with `Conditions` of those that the grammar spells.
//! To add a condition of every resolved file, write such a predicate with a lemma for each of
//! `pure`, `>>=`, `each`, a function and a load, as `MentionsMade` does, and then go through the
//! constructs as `ExpressionMentions` and `StatementMentions` do.
#![tactic(auto)]

pub mod laws;
