//! Laws of the directives of a module file, no code: what a file declares is as it is to be.
//!
//! Read `specs/Kept.antt` first: names are good, versions read as themselves, levels are no higher
//! than they may be, values are good and at most 16 deep (`IsRootDeclared` of `bz_base`). `Fits`
//! says what a parameter of each kind may be given.
//! Source: Bazel, "MODULE.bazel files".
#![tactic(auto)]

pub mod laws;
