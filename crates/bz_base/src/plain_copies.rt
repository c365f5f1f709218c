//! Copies of plain values.
ghost use Rattle.std.specs.Prelude.{◌≡◌, IfOk};

use crate::plain_values::{Plain, PlainPair};
use bz_text::Mem;
use sqlite_items::Items;
use std::alloc::Global;

impl Plain {
    /// A second value that is the same.
    pub fn copy(&self, alloc: Global) -> Mem<Plain>
        ensures { IfOk result (λ copy. copy ≡ self.now) }
    {
        plain_copy(alloc, self)
    }
}

#[cycle(copying)]
fn plain_copy(alloc: Global, value: &Plain) -> Mem<Plain>
    ensures { IfOk result (λ copy. copy ≡ value.now) }
{
    match value {
        Plain::None => Ok(Plain::None),
        Plain::Flag(flag) => Ok(Plain::Flag(*flag)),
        Plain::Int(number) => Ok(Plain::Int(*number)),
        Plain::Text(text) => Ok(Plain::Text(text.copy(alloc)?)),
        Plain::Label(label) => Ok(Plain::Label(label.copy(alloc)?)),
        Plain::Items(items) => Ok(Plain::Items(items_copy(alloc, items.as_slice())?)),
        Plain::Pairs(pairs) => Ok(Plain::Pairs(pairs_copy(alloc, pairs.as_slice())?)),
    }
}

#[cycle(copying)]
fn items_copy(alloc: Global, items: &[Plain]) -> Mem<Items<Plain>>
    ensures { IfOk result (λ copies. copies ≡ items.now) }
{
    let mut copies = Vec::new(alloc);
    for item in items {
        copies.push(plain_copy(alloc, item)?)?;
    }
    Ok(Items::from_vec(copies))
}

#[cycle(copying)]
fn pairs_copy(alloc: Global, pairs: &[PlainPair]) -> Mem<Items<PlainPair>>
    ensures { IfOk result (λ copies. copies ≡ pairs.now) }
{
    let mut copies = Vec::new(alloc);
    for pair in pairs {
        let key = plain_copy(alloc, &pair.key)?;
        let value = plain_copy(alloc, &pair.value)?;
        copies.push(PlainPair { key, value })?;
    }
    Ok(Items::from_vec(copies))
}
