//! The indentation levels that are open.
ghost use Rattle.std.specs.Prelude.{◌≡◌, [], ◌∷◌, ◌↔◌, drop, IsTrue, OnOk};
ghost use Rattle.star_lex.specs.Layouts.{top};

use bz_text::Mem;
use std::alloc::Global;
use std::marker::Model;

/// Open levels. Contracts see them as a list, the innermost first; the outermost, no indentation,
/// isn't kept.
#[derive(Debug, Drop)]
pub(crate) struct Levels {
    outer_first: Vec<u64>,
}

impl Model for Levels {
    ghost use Rattle.std.specs.Prelude.{List, ℕ, reverse};

    ghost Value = { List ℕ };

    ghost view = { λ l. reverse l.outer_first.items };
}

impl Levels {
    pub(crate) fn new(alloc: Global) -> Levels
        ensures { result ≡ [] }
    {
        Levels {
            outer_first: Vec::new(alloc),
        }
    }

    /// The innermost level.
    pub(crate) fn top(&self) -> u64
        ensures { result ≡ top self.now }
    {
        match self.outer_first.last() {
            Some(level) => *level,
            None => 0,
        }
    }

    /// Opens an inner level.
    pub(crate) fn open(&mut self, level: u64) -> Mem<()>
        ensures { OnOk result (self.new ≡ level ∷ self.old) }
    {
        self.outer_first.push(level)?;
        Ok(())
    }

    /// Closes the innermost level.
    pub(crate) fn close(&mut self)
        ensures { self.new ≡ drop 1 self.old }
    {
        self.outer_first.pop();
    }

    pub(crate) fn are_closed(&self) -> bool
        ensures { IsTrue result ↔ (self.now ≡ []) }
    {
        self.outer_first.is_empty()
    }
}
