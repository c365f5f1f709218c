//! Labels with a canonical repository name.
ghost use Rattle.std.specs.Prelude.{◌≡◌, ◌↔◌, IfOk, IsTrue};

use bz_text::{Mem, Txt};
use std::alloc::Global;

/// A file or target: its repository by canonical name, its package there and its name in the
/// package.
#[derive(Debug, Drop)]
pub struct Label {
    pub repo: Txt,
    pub package: Txt,
    pub name: Txt,
}

impl Label {
    /// A second label with the same parts.
    pub fn copy(&self, alloc: Global) -> Mem<Label>
        ensures { IfOk result (λ copy. copy ≡ self.now) }
    {
        Ok(Label {
            repo: self.repo.copy(alloc)?,
            package: self.package.copy(alloc)?,
            name: self.name.copy(alloc)?,
        })
    }

    /// Whether two labels have the same parts.
    pub fn same(&self, other: &Label) -> bool
        ensures { IsTrue result ↔ (self.now ≡ other.now) }
    {
        self.repo.same(&other.repo)
            && self.package.same(&other.package)
            && self.name.same(&other.name)
    }
}
