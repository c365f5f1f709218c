//! Changes of a dictionary's entries.
ghost use Rattle.std.specs.Prelude.{◌≡◌, ◌*◌, ◌-◌, IfOk, length};
ghost use Rattle.bz_text.specs.Answers.{Gives};
ghost use Rattle.star_calls.specs.Edits.{edit_done};
ghost use Rattle.star_core.specs.Dicts as dicts;
ghost use Rattle.star_core.specs.declared.values.Val.TheVariants as vals;
ghost use Rattle.star_dicts.specs.Edits as spec;
ghost use Rattle.star_dicts.specs.Edits.{dict_changed};
ghost use Rattle.star_library.specs.Calls.{Builds};

use bz_text::{May, Mem, Miss, OutOfMemory, Txt};
use star_calls::{Edited, put_edited};
use star_core::{Cell, Dict, Fault, Heap, Pair, Val};
use star_operators::uniting::put_all;
use std::alloc::Global;

/// What a dictionary is changed by: all entries are taken away, that of a key is taken, the first
/// one is, a pair is put unless its key is there, or entries are put, unless there are none.
#[derive(Drop)]
pub enum DictEdit {
    Clear,
    Pop { content: Txt, default: Option<Val> },
    PopFirst,
    PutUnless { content: Txt, pair: Pair },
    Merge(Result<Dict, Fault>),
}

/// Changes a dictionary.
pub(crate) fn change_dict(heap: &mut Heap, dict: &Val, edit: DictEdit) -> May<Val, Fault>
    ensures { Builds (dict_changed dict.now edit heap.old) result heap.new }
{
    match heap.take(dict) {
        Ok(content) => put_dict(heap, dict, content, edit),
        Err(reason) => Err(Miss::Because(reason)),
    }
}

fn put_dict(heap: &mut Heap, dict: &Val, content: Cell, edit: DictEdit) -> May<Val, Fault>
    ensures { Builds (edit_done dict.now (spec.dict_edited edit content) heap.old) result heap.new }
{
    match dict_edited(heap.alloc(), edit, content) {
        Ok(edited) => put_edited(heap, dict, edited),
        Err(miss) => Err(miss),
    }
}

#[tactic(auto, unfolding(crate::specs::Edits::dict_edited))]
fn dict_edited(alloc: Global, edit: DictEdit, content: Cell) -> May<Edited, Fault>
    ensures { Gives (spec.dict_edited edit content) result }
{
    match content {
        Cell::Dict(entries) => entries_edited(alloc, edit, entries),
        _ => Err(Miss::Because(Fault::Kind)),
    }
}

#[tactic(auto, unfolding(crate::specs::Edits::entries_edited))]
fn entries_edited(alloc: Global, edit: DictEdit, entries: Dict) -> May<Edited, Fault>
    ensures { Gives (spec.entries_edited edit entries) result }
{
    match edit {
        DictEdit::Clear => Ok(left_with(Dict::new(alloc), 0, Val::None)),
        DictEdit::Pop { content, default } => taken_out(content, default, entries),
        DictEdit::PopFirst => first_out(alloc, entries),
        DictEdit::PutUnless { content, pair } => Ok(put_unless(content, pair, entries)?),
        DictEdit::Merge(others) => merged_if(alloc, entries, others),
    }
}

/// Entries that a dictionary then has, with what they add to the sizes, and a value.
fn left_with(entries: Dict, added: u64, answer: Val) -> Edited
    ensures { result ≡ spec.left_with entries added answer }
{
    Edited {
        content: Cell::Dict(entries),
        added,
        answer,
    }
}

fn taken_out(content: Txt, default: Option<Val>, entries: Dict) -> May<Edited, Fault>
    ensures { Gives (spec.taken_out content default entries (spec.value_in content entries))
        result }
{
    let mut entries = entries;
    match value_under(&entries, content.as_str()) {
        Some(value) => {
            entries.remove(content.as_str());
            Ok(left_with(entries, 0, value))
        }
        None => or_default(entries, default),
    }
}

/// The value under the content of a key.
fn value_under(entries: &Dict, content: &str) -> Option<Val>
    ensures { result ≡ spec.value_in content.now entries.now }
{
    Some(entries.get(content)?.value)
}

fn or_default(entries: Dict, default: Option<Val>) -> May<Edited, Fault>
    ensures { Gives (spec.or_default entries default) result }
{
    match default {
        Some(default) => Ok(left_with(entries, 0, default)),
        None => Err(Miss::Because(Fault::Key)),
    }
}

fn first_out(alloc: Global, entries: Dict) -> May<Edited, Fault>
    ensures { Gives (spec.first_out entries) result }
{
    match first_content(alloc, &entries)? {
        Some(content) => Ok(without_content(entries, content)),
        None => Err(Miss::Because(Fault::Key)),
    }
}

/// The content of the first key.
fn first_content(alloc: Global, entries: &Dict) -> Mem<Option<Txt>>
    ensures { IfOk result (λ content. content ≡ spec.first_content entries.now) }
{
    match entries.entry_at(0) {
        Some((content, _)) => Ok(Some(Txt::of(alloc, content)?)),
        None => Ok(None),
    }
}

fn without_content(entries: Dict, content: Txt) -> Edited
    ensures { result ≡ spec.left_with (dicts.without_entry content entries) 0 vals.None }
{
    let mut entries = entries;
    entries.remove(content.as_str());
    left_with(entries, 0, Val::None)
}

fn put_unless(content: Txt, pair: Pair, entries: Dict) -> Mem<Edited>
    ensures { IfOk result (λ edited. edited
        ≡ spec.put_unless content pair entries (spec.value_in content entries)) }
{
    let mut entries = entries;
    if let Some(value) = value_under(&entries, content.as_str()) {
        return Ok(left_with(entries, 0, value));
    }
    entries.put(content, pair)?;
    Ok(left_with(entries, 32, pair.value))
}

fn merged_if(alloc: Global, entries: Dict, others: Result<Dict, Fault>) -> May<Edited, Fault>
    ensures { Gives (spec.merged_if entries others) result }
{
    match others {
        Ok(others) => Ok(merged_with(alloc, entries, &others)?),
        Err(reason) => Err(Miss::Because(reason)),
    }
}

fn merged_with(alloc: Global, entries: Dict, others: &Dict) -> Mem<Edited>
    ensures { IfOk result (λ edited. edited ≡ spec.merged_with entries others.now) }
{
    let mut entries = entries;
    let before = entries.len();
    put_all(alloc, &mut entries, others)?;
    grown(before, entries)
}

/// A dictionary that had so many entries before.
fn grown(before: usize, entries: Dict) -> Mem<Edited>
    ensures { IfOk result (λ edited. edited
        ≡ spec.left_with entries (32 * (length entries - before)) vals.None) }
{
    let count = entries.len().saturating_sub(before);
    match (count as u64).checked_mul(32) {
        Some(added) => Ok(left_with(entries, added, Val::None)),
        None => Err(OutOfMemory),
    }
}
