//! Dictionaries: the Starlark specification, "Dictionaries".
ghost use Rattle.std.specs.Prelude.{◌≡◌, [], IfNone, IfSome, None, OnErr, OnOk, Some, length};
ghost use Rattle.std.specs.Prelude.{option_copied, slice_get};
ghost use Rattle.star_core.specs.Dicts.{KeysDiffer, entries_of, entry_of, pair_at, with_entry};
ghost use Rattle.star_core.specs.Dicts.{without_entry};

use crate::values::Val;
use bz_text::{Mem, Txt};
use indexmap::IndexMap;
use std::alloc::Global;
use std::marker::Model;

/// A key and its value.
#[derive(Clone, Copy, Debug, PartialEq, Eq)]
pub struct Pair {
    pub key: Val,
    pub value: Val,
}

/// A dictionary. Contracts see it as the list of its entries in the order in which their keys were
/// first put: each is a pair and the text of the key's content, under which it is found.
#[derive(Drop)]
pub struct Dict {
    pairs: IndexMap<String, Pair>,
}

impl Model for Dict {
    ghost use Rattle.std.specs.Prelude.{List};
    ghost use Rattle.star_core.specs.Dicts.{Entry, entries_of};

    ghost Value = { List Entry };

    ghost view = { λ d. entries_of d.pairs.entries };
}

impl Dict {
    /// The empty dictionary, which keeps the allocator.
    pub fn new(alloc: Global) -> Dict
        ensures { result ≡ [] }
    {
        Dict {
            pairs: IndexMap::new(alloc),
        }
    }

    pub fn len(&self) -> usize
        ensures count { result ≡ length self.now }
        ensures differ { KeysDiffer self.now }
    {
        self.pairs.len()
    }

    /// The pair whose key has this content.
    pub fn get(&self, content: &str) -> Option<&Pair>
        ensures { option_copied result ≡ entry_of content.now self.now }
    {
        self.pairs.get(content)
    }

    /// The pair with this number, in order.
    pub fn at(&self, index: usize) -> Option<&Pair>
        ensures { option_copied result ≡ pair_at self.now index }
    {
        Some(self.pairs.get_index(index)?.1)
    }

    /// The content and the pair of the key with this number, in order.
    pub fn entry_at(&self, index: usize) -> Option<(&str, &Pair)>
        ensures absent { IfNone result (slice_get self.now index ≡ None) }
        ensures entry { IfSome result (λ entry. slice_get self.now index
            ≡ Some (record { content = entry.0.now; pair = entry.1.now })) }
    {
        let (content, pair) = self.pairs.get_index(index)?;
        Some((content.as_str(), pair))
    }

    /// Puts a pair under its key's content: where that stands the pair takes the place of the one
    /// that stood there, and else it goes last.
    pub fn put(&mut self, content: Txt, pair: Pair) -> Mem<()>
        ensures ok { OnOk result (self.new ≡ with_entry content pair self.old) }
        ensures unchanged { OnErr result (self.new ≡ self.old) }
    {
        insert(&mut self.pairs, content, pair)
    }

    /// Takes the pair of a content out; the others keep their order.
    pub fn remove(&mut self, content: &str) -> Option<Pair>
        ensures pair { result ≡ entry_of content.now self.old }
        ensures rest { self.new ≡ without_entry content.now self.old }
    {
        self.pairs.shift_remove(content)
    }
}

/// Puts a pair under an owned text.
fn insert(pairs: &mut IndexMap<String, Pair>, content: Txt, pair: Pair) -> Mem<()>
    ensures ok { OnOk result (entries_of pairs.new.entries
        ≡ with_entry content pair (entries_of pairs.old.entries)) }
    ensures unchanged { OnErr result (entries_of pairs.new.entries ≡ entries_of pairs.old.entries) }
{
    pairs.insert(content.into_string(), pair)?;
    Ok(())
}
