//! The variables of a scope, each with its slot.
ghost use Rattle.std.specs.Prelude.{◌≡◌, [], IfOk, length};
ghost use Rattle.star_trees.specs.Variables.{slot_of, with_binding};

use bz_text::{Mem, Seq, Txt};
use indexmap::IndexSet;
use std::alloc::Global;
use std::marker::Model;

/// Names in the order in which they were first bound. Contracts see their list.
#[derive(Drop)]
pub struct Names {
    texts: IndexSet<String>,
}

impl Model for Names {
    ghost use Rattle.star_names.specs.NameTexts.{names_of};
    ghost use Rattle.star_trees.specs.Variables.{Names};

    ghost Value = { Names };

    ghost view = { λ n. names_of n.texts.keys };
}

impl Names {
    /// No names.
    pub fn new(alloc: Global) -> Names
        ensures { result ≡ [] }
    {
        Names {
            texts: IndexSet::new(alloc),
        }
    }

    pub fn len(&self) -> usize
        ensures { result ≡ length self.now }
    {
        self.texts.len()
    }

    /// Binds a name.
    pub fn with(self, alloc: Global, name: &Txt) -> Mem<Names>
        ensures { IfOk result (λ names. names ≡ with_binding self name.now) }
    {
        let Names { texts } = self;
        let mut texts = texts;
        texts.insert_full(name.copy(alloc)?.into_string())?;
        Ok(Names { texts })
    }

    /// The slot of a name.
    pub fn slot_of(&self, name: &str) -> Option<usize>
        ensures { result ≡ slot_of self.now name.now }
    {
        self.texts.get_index_of(name)
    }

    /// The names, each as a text of its own.
    pub fn texts(&self, alloc: Global) -> Mem<Seq<Txt>>
        ensures { IfOk result (λ texts. texts ≡ self.now) }
    {
        let mut texts = Vec::new(alloc);
        'names: for index in 0..self.texts.len() {
            let Some(name) = self.texts.get_index(index) else {
                unreachable!();
            };
            texts.push(Txt::of(alloc, name.as_str())?)?;
        }
        Ok(Seq::of_vec(texts))
    }
}
