//! What a module file says of extensions, as a list that grows in the middle too.
ghost use Rattle.std.specs.Prelude.{◌≡◌, [], ◌∷◌, ◌++◌, OnOk, length};
ghost use Rattle.module_directives.specs.Parts as spec;
ghost use Rattle.module_directives.specs.declared.parts.Addition.TheVariants as additions;
ghost use Rattle.module_directives.specs.Parts.{names_added, part_added, part_with, usage_with};

use bz_base::{Import, Part, RepoChange, Tag, Usage};
use bz_text::{Mem, OutOfMemory, Seq};
use module_arguments::NamePair;
use std::alloc::Global;
use std::marker::Model;

/// What comes to a usage.
#[derive(Drop)]
pub enum Addition {
    Tag(Tag),
    Import(Import),
    Change(RepoChange),
}

/// What a pair of names is for.
#[derive(Clone, Copy)]
pub enum Purpose {
    Import,
    Change(bool),
}

/// The parts of a module file. Contracts see them as their list.
#[derive(Drop)]
pub struct Parts {
    parts: Vec<Part>,
}

impl Model for Parts {
    ghost use Rattle.std.specs.Prelude.{List};
    ghost use Rattle.bz_base.specs.declared.declarations.Part.{Part};
    ghost use Rattle.bz_base.specs.contracts.plain_values.Plain as plains;
    ghost use Rattle.std.specs.Coded.{codes};

    ghost Value = { List Part };

    ghost coded = { Prim.hlevel (codes, plains.the_row.coded) };

    ghost view = { λ p. p.parts.items };
}

impl Parts {
    /// No parts.
    pub fn new(alloc: Global) -> Parts
        ensures { result ≡ [] }
    {
        Parts {
            parts: Vec::new(alloc),
        }
    }

    /// How many there are.
    pub fn len(&self) -> usize
        ensures { result ≡ length self.now }
    {
        self.parts.len()
    }

    /// Puts a part behind the others.
    pub fn push(&mut self, part: Part) -> Mem<()>
        ensures { OnOk result (self.new ≡ self.old ++ part ∷ []) }
    {
        self.parts.push(part)?;
        Ok(())
    }

    /// Adds to the part with an index.
    pub fn add(&mut self, index: usize, addition: Addition) -> Mem<()>
        ensures { OnOk result (self.new ≡ part_added index addition self.old) }
    {
        match self.parts.get_mut(index) {
            Some(part) => add_to_part(part, addition),
            None => Ok(()),
        }
    }

    /// Adds names to the part with an index.
    #[tactic(auto, using(crate::proofs::AddedNames::one_name_more))]
    pub fn add_names(
        &mut self,
        index: usize,
        purpose: Purpose,
        line: u64,
        pairs: Seq<NamePair>,
    ) -> Mem<()>
        ensures { OnOk result (self.new ≡ names_added index purpose line pairs self.old) }
    {
        'adding: for pair in pairs.into_vec() {
            self.add(index, addition_of(purpose, line, pair))?;
        }
        Ok(())
    }

    /// The list.
    pub fn into_seq(self) -> Seq<Part>
        ensures { result ≡ self }
    {
        Seq::of_vec(self.parts)
    }
}

fn addition_of(purpose: Purpose, line: u64, pair: NamePair) -> Addition
    ensures { result ≡ spec.addition_of purpose line pair }
{
    let NamePair { keyword, value } = pair;
    match purpose {
        Purpose::Import => Addition::Import(Import {
            apparent: keyword,
            real: value,
            line,
        }),
        Purpose::Change(inject) => Addition::Change(RepoChange {
            real: keyword,
            apparent: value,
            inject,
            line,
        }),
    }
}

fn add_to_part(part: &mut Part, addition: Addition) -> Mem<()>
    ensures { OnOk result (part.new ≡ part_with addition part.old) }
{
    match part {
        Part::Usage(usage) => add_to_usage(usage, addition),
        Part::Declared(_) => Ok(()),
    }
}

fn add_to_usage(usage: &mut Usage, addition: Addition) -> Mem<()>
    ensures { OnOk result (usage.new ≡ usage_with addition usage.old) }
{
    match addition {
        Addition::Tag(tag) => add_tag(usage, tag),
        Addition::Import(import) => push(&mut usage.imports, import),
        Addition::Change(change) => push(&mut usage.changes, change),
    }
}

fn add_tag(usage: &mut Usage, tag: Tag) -> Mem<()>
    ensures { OnOk result (usage.new ≡ usage_with (additions.Tag tag) usage.old) }
{
    let Tag {
        class,
        attrs,
        line,
        ..
    } = tag;
    let dev = usage.dev;
    push(
        &mut usage.tags,
        Tag {
            class,
            attrs,
            dev,
            line,
        },
    )
}

/// Puts an item behind the others.
pub(crate) fn push<T: Drop>(items: &mut Seq<T>, item: T) -> Mem<()>
    ensures { OnOk result (items.new ≡ items.old ++ item ∷ []) }
{
    match items.push(item) {
        Ok(()) => Ok(()),
        Err(_) => Err(OutOfMemory),
    }
}
