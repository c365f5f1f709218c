//! Scopes: the variables that running code and the functions made by it share.
ghost use Rattle.std.specs.Prelude.{◌≡◌, ◌++◌, [], IfOk, None, OnErr, OnOk, length, replicate};
ghost use Rattle.star_core.specs.Scopes as spec;
ghost use Rattle.star_core.specs.Scopes.{variable_at, with_scope, with_slot, with_variable};

use crate::values::Val;
use bz_text::Mem;
use sqlite_items::Items;
use std::alloc::Global;
use std::marker::Model;

/// The variables of one run of a function, a comprehension or a file, and the number of the scope
/// round it.
#[derive(Drop)]
pub struct Scope {
    around: usize,
    slots: Items<Option<Val>>,
}

/// The scopes of an evaluation, by number. None is ever dropped, since functions keep numbers.
#[derive(Drop)]
pub struct Scopes {
    scopes: Vec<Scope>,
}

impl Model for Scopes {
    ghost use Rattle.std.specs.Prelude.{List};
    ghost use Rattle.star_core.specs.declared.scopes.Scope.{Scope};

    ghost Value = { List Scope };

    ghost view = { λ s. s.scopes.items };
}

impl Scopes {
    /// The store without scopes, which keeps the allocator.
    pub fn new(alloc: Global) -> Scopes
        ensures { result ≡ [] }
    {
        Scopes {
            scopes: Vec::new(alloc),
        }
    }

    pub fn len(&self) -> usize
        ensures { result ≡ length self.now }
    {
        self.scopes.len()
    }

    /// A new scope with these variables; its number.
    pub fn open(&mut self, around: usize, slots: Items<Option<Val>>) -> Mem<usize>
        ensures ok { OnOk result (self.new ≡ with_scope self.old around slots) }
        ensures number { IfOk result (λ number. number ≡ length self.old) }
        ensures unchanged { OnErr result (self.new ≡ self.old) }
    {
        let number = self.scopes.len();
        self.scopes.push(Scope { around, slots })?;
        Ok(number)
    }

    /// The number of the scope so many scopes outwards.
    pub fn outwards(&self, number: usize, hops: u32) -> usize
        ensures { result ≡ spec.outwards self.now hops number }
    {
        outwards(self.scopes.as_slice(), number, hops)
    }

    /// The value of a variable, where it is set.
    pub fn get(&self, number: usize, slot: u32) -> Option<Val>
        ensures { result ≡ variable_at self.now number slot }
    {
        *self
            .scopes
            .get(number)?
            .slots
            .as_slice()
            .get(slot as usize)?
    }

    /// Sets a variable.
    pub fn set(&mut self, number: usize, slot: u32, val: Val) -> Mem<()>
        ensures ok { OnOk result (self.new ≡ with_variable self.old number slot val) }
    {
        if let Some(scope) = self.scopes.get_mut(number) {
            set_slot(&mut scope.slots, slot as usize, val)?;
        }
        Ok(())
    }
}

#[tactic(auto, unfolding(crate::specs::Scopes::outwards))]
fn outwards(scopes: &[Scope], number: usize, hops: u32) -> usize
    ensures { result ≡ spec.outwards scopes.now hops number }
{
    let mut here = number;
    for hop in 0..hops {
        if let Some(scope) = scopes.get(here) {
            here = scope.around;
        }
    }
    here
}

fn set_slot(slots: &mut Items<Option<Val>>, slot: usize, val: Val) -> Mem<()>
    ensures { OnOk result (slots.new ≡ with_slot slots.old slot val) }
{
    if slot < slots.len() {
        slots.set(slot, Some(val));
        return Ok(());
    }
    let missing = slot - slots.len();
    leave_unset(slots, missing)?;
    slots.push(Some(val))?;
    Ok(())
}

/// Puts so many unset variables behind the others.
fn leave_unset(slots: &mut Items<Option<Val>>, count: usize) -> Mem<()>
    ensures { OnOk result (slots.new ≡ slots.old ++ replicate count None) }
{
    for put in 0..count {
        slots.push(None)?;
    }
    Ok(())
}
