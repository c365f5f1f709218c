//! The making of a file's tree: each name as its variable, each function at its place.
ghost use Rattle.std.specs.Prelude.{◌≡◌, IfOk};
ghost use Rattle.star_scopes.specs.Scopes as spec;

use crate::lists::Lists;
use crate::variables::variable;
use bz_text::{Mem, Txt};
use star_names::{Names, Scopes};
use star_trees::Var;
use std::alloc::Global;

/// The file's free names, the scopes round the place that is reached, and the functions and loads
/// so far.
#[derive(Drop)]
pub(crate) struct Maker {
    pub(crate) alloc: Global,
    pub(crate) free: Names,
    pub(crate) scopes: Scopes,
    pub(crate) lists: Lists,
}

impl Maker {
    pub(crate) fn variable(&self, name: &Txt) -> Mem<Var>
        ensures { IfOk result (λ variable. variable ≡ spec.variable self.now.free self.now.scopes
            name.now) }
    {
        variable(self.alloc, &self.free, &self.scopes, name)
    }
}
