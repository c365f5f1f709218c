//! Versions.
ghost use Rattle.std.specs.Prelude.{◌≡◌, ◌↔◌, [], IfOk, IsTrue, Ok};
ghost use Rattle.bz_text.specs.Answers.{Gives};
ghost use Rattle.bz_version.specs.Precedence.{precedence};
ghost use Rattle.bz_version.specs.Scan.{version_of};

use crate::precedence::compare_versions;
use crate::scanner::{first_fault, without_build};
use bz_text::{May, Mem, Miss, Txt};
use std::alloc::Global;
use std::cmp::Ordering;
use std::marker::Model;

/// The text is no version.
#[derive(Clone, Copy, Debug, PartialEq, Eq)]
pub struct BadVersion {
    /// The place of the first byte after which no version can follow, or the length.
    pub place: u64,
}

/// A version. Contracts see it as its text without BUILD, which for the empty version is empty.
#[derive(Debug, Drop)]
pub struct Version {
    text: Txt,
}

impl Model for Version {
    ghost use Rattle.std.specs.Prelude.{List, ℕ};

    ghost Value = { List ℕ };

    ghost use Rattle.std.specs.Prelude.{◌≡◌, Ok};
    ghost use Rattle.bz_version.specs.Scan.{version_of};

    ghost view = { λ v. v.text };

    ghost invariant = { λ v. version_of v.text ≡ Ok v.text };
}

impl Version {
    /// Reads a version.
    #[tactic(auto, unfolding(crate::specs::Scan::version_of))]
    pub fn parse(alloc: Global, text: &str) -> May<Version, BadVersion>
        ensures { Gives (version_of text.now) result }
    {
        match first_fault(text) {
            Some(place) => Err(Miss::Because(BadVersion { place })),
            None => Ok(Version {
                text: Txt::of(alloc, without_build(text))?,
            }),
        }
    }

    /// The precedence of two versions.
    pub fn order(&self, other: &Version) -> Ordering
        ensures { result ≡ precedence self.now other.now }
    {
        compare_versions(self.text(), other.text())
    }

    /// The text without BUILD, from which this version is read.
    pub fn text(&self) -> &str
        ensures same { result.now ≡ self.now }
        ensures version { version_of self.now ≡ Ok self.now }
    {
        self.text.as_str()
    }

    /// The text, handed over.
    pub fn into_text(self) -> Txt
        ensures { result ≡ self }
    {
        self.text
    }

    /// Whether this is the empty version, which is above every other.
    pub fn is_empty(&self) -> bool
        ensures { IsTrue result ↔ (self.now ≡ []) }
    {
        self.text() == ""
    }

    /// A second version with the same text.
    pub fn copy(&self, alloc: Global) -> Mem<Version>
        ensures { IfOk result (λ copy. copy ≡ self.now) }
    {
        Ok(Version {
            text: self.text.copy(alloc)?,
        })
    }
}

/// The precedence of the versions with these texts, which are without BUILD.
pub fn order_texts(first: &str, second: &str) -> Ordering
    ensures { result ≡ precedence first.now second.now }
{
    compare_versions(first, second)
}
