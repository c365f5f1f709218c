//! The table of answers that an evaluation was given so far.
ghost use Rattle.std.specs.Prelude.{◌≡◌, [], OnErr, OnOk, option_copied};
ghost use Rattle.star_core.specs.Tables.{answer_in, known_of, with_answer};

use crate::questions::{Answer, Question};
use bz_text::Mem;
use indexmap::IndexMap;
use std::alloc::Global;
use std::marker::Model;

/// A finite map from questions to answers. Contracts see it as the list of both, in the order in
/// which the questions were first answered.
#[derive(Drop)]
pub struct Answers {
    known: IndexMap<Question, Answer>,
}

impl Model for Answers {
    ghost use Rattle.star_core.specs.Tables.{Table, known_of};

    ghost Value = { Table };

    ghost view = { λ a. known_of a.known.entries };
}

impl Answers {
    /// The empty table, which keeps the allocator.
    pub fn new(alloc: Global) -> Answers
        ensures { result ≡ [] }
    {
        Answers {
            known: IndexMap::new(alloc),
        }
    }

    /// Puts an answer into the table.
    pub fn add(&mut self, question: Question, answer: Answer) -> Mem<()>
        ensures ok { OnOk result (self.new ≡ with_answer self.old question answer) }
        ensures unchanged { OnErr result (self.new ≡ self.old) }
    {
        insert(&mut self.known, question, answer)
    }

    /// The answer of a question, where it is known.
    pub fn get(&self, question: &Question) -> Option<&Answer>
        ensures { option_copied result ≡ answer_in self.now question.now }
    {
        self.known.get(question)
    }
}

fn insert(known: &mut IndexMap<Question, Answer>, question: Question, answer: Answer) -> Mem<()>
    ensures ok { OnOk result (known_of known.new.entries
        ≡ with_answer (known_of known.old.entries) question answer) }
    ensures unchanged { OnErr result (known_of known.new.entries ≡ known_of known.old.entries) }
{
    known.insert(question, answer)?;
    Ok(())
}
