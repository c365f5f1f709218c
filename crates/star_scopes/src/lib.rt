//! Starlark's names, resolved: which scope binds each, which are free, and which have no meaning.
//!
//! In come the trees of a file as they are written; out goes the file with each name as its
//! variable, or the first use of a name without a meaning.
//! Read `specs/Files.antt` first. A tree's meaning is one fold (`specs/Meanings.antt`): what it
//! binds, which free names it uses, and what is made of it.
//! The code walks twice: once for the free names in order of first use, then, since each slot is
//! known, once to make the resolved tree. A function takes its index where it begins and gets its
//! code where it ends.
//! Laws: in `star_conditions`, over these definitions.
//! Limits: 4,294,967,296 variables of a scope, functions or loads.
//! Source: the Starlark specification, "Name binding and variables".
#![tactic(auto)]

mod bindings;
mod dialects;
mod expr_making;
mod expr_uses;
mod files;
mod free_names;
mod lists;
mod maker;
mod numbers;
mod statement_making;
mod statement_uses;
mod unbound;
mod variables;

pub use dialects::Dialect;
pub use files::resolved;
pub use unbound::Unbound;
