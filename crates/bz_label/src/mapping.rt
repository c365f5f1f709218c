//! Repository mappings.
ghost use Rattle.std.specs.Prelude.{◌≡◌, ◌↔◌, ◌<◌, ◌++◌, [], ◌∷◌, Err, None, Some, IsSome, IsTrue};
ghost use Rattle.std.specs.Prelude.{OnOk, OnErr, length, slice_get};
ghost use Rattle.std.specs.Option.{option_copied};
ghost use Rattle.bz_text.specs.declared.memory.Miss.TheVariants.{Because};
ghost use Rattle.bz_base.specs.Names.{is_apparent, is_canonical};
ghost use Rattle.bz_label.specs.Mappings.{NamesDiffer, are_names, found, pairs_of, put, taken_name};

use bz_base::{May, Mem, Miss, OutOfMemory, Txt};
use indexmap::IndexMap;
use std::alloc::Global;
use std::marker::Model;

/// The apparent name is there already.
#[derive(Clone, Copy, Debug, PartialEq, Eq)]
pub struct Taken;

/// A map from apparent to canonical repository names. Contracts see it as the list of its pairs, in
/// the order in which their apparent names were put; each name is one that a label may have, and no
/// apparent name stands twice.
#[derive(Drop)]
pub struct Mapping {
    names: IndexMap<String, Txt>,
}

impl Model for Mapping {
    ghost use Rattle.std.specs.Prelude.{List, ℕ};
    ghost use Rattle.bz_label.specs.Mappings.{pairs_of};

    ghost Value = { List (List ℕ × List ℕ) };

    ghost use Rattle.std.specs.Prelude.{IsTrue};
    ghost use Rattle.bz_label.specs.Mappings.{are_names};

    ghost view = { λ m. pairs_of m.names.entries };

    ghost invariant = { λ m. IsTrue (are_names (pairs_of m.names.entries)) };
}

impl Mapping {
    /// The empty mapping, which keeps the allocator.
    pub fn new(alloc: Global) -> Mapping
        ensures { result ≡ [] }
    {
        Mapping {
            names: IndexMap::new(alloc),
        }
    }

    /// Puts a new name at the end.
    pub fn add(&mut self, alloc: Global, apparent: Txt, canonical: Txt) -> May<(), Taken>
        requires apparent { IsTrue (is_apparent apparent) }
        requires canonical { IsTrue (is_canonical canonical) }
        ensures added { OnOk result (self.new ≡ self.old ++ (apparent, canonical) ∷ []) }
        ensures was_absent { OnOk result (found apparent self.old ≡ None) }
        ensures taken { result ≡ Err (Because taken_name) ↔ IsSome (found apparent self.old) }
        ensures unchanged { OnErr result (self.new ≡ self.old) }
    {
        if self.get(apparent.as_str()).is_some() {
            return Err(Miss::Because(Taken));
        }
        self.set(alloc, apparent, canonical)?;
        Ok(())
    }

    /// Puts a new name at the end, or another canonical name where the apparent one stands.
    pub fn set(&mut self, _alloc: Global, apparent: Txt, canonical: Txt) -> Mem<()>
        requires apparent { IsTrue (is_apparent apparent) }
        requires canonical { IsTrue (is_canonical canonical) }
        ensures ok { OnOk result (self.new ≡ put apparent canonical self.old) }
        ensures was_absent { OnErr result (found apparent self.old ≡ None) }
        ensures unchanged { OnErr result (self.new ≡ self.old) }
    {
        insert(&mut self.names, apparent, canonical)
    }

    /// The canonical name behind an apparent one.
    pub fn get(&self, apparent: &str) -> Option<&Txt>
        ensures { option_copied result ≡ found apparent.now self.now }
    {
        self.names.get(apparent)
    }

    /// How many names there are.
    pub fn len(&self) -> usize
        ensures count { result ≡ length self.now }
        ensures differ { NamesDiffer self.now }
        ensures good { IsTrue (are_names self.now) }
    {
        self.names.len()
    }

    /// The pair at a place.
    pub fn at(&self, place: usize) -> (&str, &Txt)
        requires { place < length self.now }
        ensures { slice_get self.now place ≡ Some (result.0.now, result.1.now) }
    {
        match self.names.get_index(place) {
            Some((apparent, canonical)) => (apparent.as_str(), canonical),
            None => unreachable!(),
        }
    }
}

/// Puts a name under an owned text.
fn insert(names: &mut IndexMap<String, Txt>, apparent: Txt, canonical: Txt) -> Mem<()>
    ensures ok { OnOk result (pairs_of names.new.entries ≡ put apparent canonical (pairs_of
        names.old.entries)) }
    ensures was_absent { OnErr result (found apparent (pairs_of names.old.entries) ≡ None) }
    ensures unchanged { OnErr result (pairs_of names.new.entries ≡ pairs_of names.old.entries) }
    ensures good { IsTrue (is_apparent apparent) → IsTrue (is_canonical canonical)
        → IsTrue (are_names (pairs_of names.old.entries))
        → IsTrue (are_names (pairs_of names.new.entries)) }
{
    match names.insert(apparent.into_string(), canonical) {
        Ok(_) => Ok(()),
        Err(_) => Err(OutOfMemory),
    }
}
