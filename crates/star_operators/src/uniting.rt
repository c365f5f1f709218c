//! Dictionaries put together.
ghost use Rattle.std.specs.Prelude.{◌≡◌, IfOk, OnOk};
ghost use Rattle.star_operators.specs.Binary as spec;

use bz_text::{Mem, Txt};
use star_core::Dict;
use std::alloc::Global;

/// The entries of a dictionary, and then those of another one.
pub fn united(alloc: Global, left: &Dict, right: &Dict) -> Mem<Dict>
    ensures { IfOk result (λ dict. dict ≡ spec.united left.now right.now) }
{
    let mut dict = copied(alloc, left)?;
    put_all(alloc, &mut dict, right)?;
    Ok(dict)
}

/// Puts the entries of one dictionary into another one.
pub fn put_all(alloc: Global, dict: &mut Dict, others: &Dict) -> Mem<()>
    ensures { OnOk result (dict.new ≡ spec.united dict.old others.now) }
{
    'putting: for index in 0..others.len() {
        let Some((content, pair)) = others.entry_at(index) else {
            return Ok(());
        };
        dict.put(Txt::of(alloc, content)?, *pair)?;
    }
    Ok(())
}

/// A second dictionary with the same entries.
pub fn copied(alloc: Global, dict: &Dict) -> Mem<Dict>
    ensures { IfOk result (λ copy. copy ≡ dict.now) }
{
    let mut copy = Dict::new(alloc);
    'copying: for index in 0..dict.len() {
        let Some((content, pair)) = dict.entry_at(index) else {
            return Ok(copy);
        };
        copy.put(Txt::of(alloc, content)?, *pair)?;
    }
    Ok(copy)
}
