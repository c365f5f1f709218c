//! What an evaluation may ask about the world outside it, and what it is answered.
ghost use Rattle.std.specs.Prelude.{◌≡◌, ◌++◌, nat_eq};
ghost use Rattle.std.proofs.Common.{rules};
ghost use Rattle.std.specs.Cmp.Lexicographic.{pointwise};
ghost use Rattle.std.specs.Cmp.Rules.{comparing, hashing};
ghost use Rattle.std.specs.Hash as fed;
ghost use Rattle.std.specs.Ordering.{eq_of_both, on};
ghost use Rattle.star_core.specs.Questions.{first_text, question_kind, second_text, third_text};

use bz_base::Label;
use bz_text::{Seq, Txt};
use std::hash::{Hash, Hasher};

/// A question about the world.
#[derive(Debug, Drop)]
pub enum Question {
    /// What stands at a file.
    File(Label),
    /// Which names a directory has.
    Dirents(Label),
    /// The value of an environment variable.
    Env(Txt),
    OsName,
    OsArch,
    /// Which repository an apparent name means in its home.
    Map { home: Txt, apparent: Txt },
}

/// What a question is answered.
#[derive(Debug, Drop)]
pub enum Answer {
    Bytes(Seq<u8>),
    /// A file that is too large.
    Large,
    Names(Seq<Txt>),
    Absent,
    Text(Txt),
    Nothing,
}

impl Question {
    fn kind(&self) -> u8
        ensures { result ≡ question_kind self.now }
    {
        match self {
            Question::File(_) => 0,
            Question::Dirents(_) => 1,
            Question::Env(_) => 2,
            Question::OsName => 3,
            Question::OsArch => 4,
            Question::Map { .. } => 5,
        }
    }

    fn first_text(&self) -> &str
        ensures { result.now ≡ first_text self.now }
    {
        match self {
            Question::File(label) => label.repo.as_str(),
            Question::Dirents(label) => label.repo.as_str(),
            Question::Env(name) => name.as_str(),
            Question::Map { home, apparent: _ } => home.as_str(),
            _ => "",
        }
    }

    fn second_text(&self) -> &str
        ensures { result.now ≡ second_text self.now }
    {
        match self {
            Question::File(label) => label.package.as_str(),
            Question::Dirents(label) => label.package.as_str(),
            Question::Map { home: _, apparent } => apparent.as_str(),
            _ => "",
        }
    }

    fn third_text(&self) -> &str
        ensures { result.now ≡ third_text self.now }
    {
        match self {
            Question::File(label) => label.name.as_str(),
            Question::Dirents(label) => label.name.as_str(),
            _ => "",
        }
    }
}

impl PartialEq for Question {
    ghost eq = { eq_of_both (on question_kind nat_eq)
        (eq_of_both (on first_text (pointwise nat_eq))
        (eq_of_both (on second_text (pointwise nat_eq)) (on third_text (pointwise nat_eq)))) };

    ghost laws = { Prim.search (comparing, rules) };

    fn eq(&self, other: &Question) -> bool {
        self.kind() == other.kind()
            && self.first_text() == other.first_text()
            && self.second_text() == other.second_text()
            && self.third_text() == other.third_text()
    }
}

impl Eq for Question {
    ghost laws = { Prim.search (comparing, rules) };
}

impl Hash for Question {
    ghost hash_input = { λ q. fed.u8 (question_kind q) ++ fed.str (first_text q)
        ++ fed.str (second_text q) ++ fed.str (third_text q) };

    ghost respects_eq = { Prim.search (hashing, rules) };

    fn hash<H: Hasher>(&self, state: &mut H) {
        state.write_u8(self.kind());
        self.first_text().hash(state);
        self.second_text().hash(state);
        self.third_text().hash(state);
    }
}
