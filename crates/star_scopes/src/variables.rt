//! Names as variables.
ghost use Rattle.std.specs.Prelude.{◌≡◌, IfOk, length};
ghost use Rattle.star_trees.specs.Variables.{slot_of};
ghost use Rattle.star_scopes.specs.Scopes as spec;

use crate::numbers::number;
use bz_text::{Mem, Txt};
use star_names::{Names, Scopes};
use star_trees::Var;
use std::alloc::Global;

/// The slot of a free name.
fn free_slot(free: &Names, name: &str) -> usize
    ensures { result ≡ spec.slot_or (slot_of free.now name.now) (length free.now) }
{
    match free.slot_of(name) {
        Some(slot) => slot,
        None => free.len(),
    }
}

/// The variable that a name is where some scopes stand round it.
#[tactic(auto, unfolding(crate::specs::Scopes::variable))]
pub(crate) fn variable(alloc: Global, free: &Names, scopes: &Scopes, name: &Txt) -> Mem<Var>
    ensures { IfOk result (λ variable. variable ≡ spec.variable free.now scopes.now name.now) }
{
    let (scope, slot) = match scopes.find(name.as_str()) {
        Some(found) => found,
        None => (scopes.len(), free_slot(free, name.as_str())),
    };
    Ok(Var {
        name: name.copy(alloc)?,
        scope: number(scope)?,
        slot: number(slot)?,
    })
}
