//! Module versions: which texts are versions, and which of two is higher, as Bazel orders them.
//!
//! In comes a text; out goes a `Version`, which contracts see as its text without BUILD, or the
//! place of the first byte after which no version can follow.
//! Read `specs/Grammar.antt` first (`RELEASE[-PRERELEASE][+BUILD]`), then `specs/Below.antt`, the
//! order by the first place where two versions differ.
//! `Version::order` and `order_texts` take no memory and compare identifiers of any length.
//! Laws (`laws.rt`): what is read is spelled and what is spelled is read; a fault is the first; the
//! order is total up to BUILD, equal order means equal text, and the first different identifier
//! decides.
//! Limits: none but memory.
//! Source: Bazel, "Bazel modules", section "Version format"; SemVer 2.0.0, section 11. To change
//! the grammar open `src/scanner.rt`, to change the order `src/precedence.rt`.
#![tactic(auto)]

mod cuts;
pub mod laws;
mod precedence;
mod scanner;
pub mod versions;

pub use versions::{BadVersion, Version, order_texts};
