//! Methods of dictionaries: the arguments, and what each method does.
ghost use Rattle.std.specs.Prelude.{◌≡◌, Ok, option_copied};
ghost use Rattle.star_core.specs.Heaps.{cell_at};
ghost use Rattle.star_dicts.specs.Edits.{dict_changed};
ghost use Rattle.star_dicts.specs.Rows as spec;
ghost use Rattle.star_dicts.specs.Rows.{bound_row, dict_called, dict_row, new_dict_row, update_row};
ghost use Rattle.star_dicts.specs.Sources as sources;
ghost use Rattle.star_dicts.specs.declared.editing.DictEdit.TheVariants as edits;
ghost use Rattle.star_library.specs.Calls.{Builds};

use crate::editing::{DictEdit, change_dict};
use crate::listing::{make_items, make_keys, make_pair, make_values, pairs_in, value_got};
use crate::methods::DictMethod;
use crate::sources::{Source, entries_from, names_put, source_given};
use bz_text::{May, Miss, Txt};
use star_calls::{needed_at, value_at};
use star_core::{Args, Cell, Dict, Fault, Heap, NamedVal, Pair, Val};
use star_library::bind;
use star_order::key_content;

/// A call of a dictionary's method.
#[tactic(auto, unfolding(crate::specs::Rows::dict_row))]
pub fn dict_call(heap: &mut Heap, method: DictMethod, dict: &Val, args: &Args) -> May<Val, Fault>
    ensures { Builds (dict_row method dict.now args.now heap.old) result heap.new }
{
    match method {
        DictMethod::Update => update(heap, dict, args),
        other => bound_call(heap, other, dict, args),
    }
}

fn bound_call(heap: &mut Heap, method: DictMethod, dict: &Val, args: &Args) -> May<Val, Fault>
    ensures { Builds (bound_row method dict.now args.now heap.old) result heap.new }
{
    match bind(heap.alloc(), method.parameters(), args) {
        Ok(values) => call(heap, method, dict, values.items()),
        Err(miss) => Err(miss),
    }
}

#[tactic(auto, unfolding(crate::specs::Rows::dict_called))]
fn call(heap: &mut Heap, method: DictMethod, dict: &Val, values: &[Option<Val>]) -> May<Val, Fault>
    ensures { Builds (dict_called method dict.now values.now heap.old) result heap.new }
{
    match method {
        DictMethod::Clear => change_dict(heap, dict, DictEdit::Clear),
        DictMethod::Get => value_got(heap, dict, values),
        DictMethod::Items => list_items(heap, dict),
        DictMethod::Keys => list_keys(heap, dict),
        DictMethod::Pop => pop(heap, dict, values),
        DictMethod::Popitem => pop_item(heap, dict),
        DictMethod::Setdefault => put_default(heap, dict, values),
        DictMethod::Update => Err(Miss::Because(Fault::Arity)),
        DictMethod::Values => list_values(heap, dict),
    }
}

fn list_items(heap: &mut Heap, dict: &Val) -> May<Val, Fault>
    ensures { Builds (spec.items_listed (spec.pairs_in (cell_at heap.old dict.now)) heap.old)
        result heap.new }
{
    match pairs_in(heap.alloc(), heap.cell(dict)) {
        Ok(pairs) => make_items(heap, pairs.items()),
        Err(miss) => Err(miss),
    }
}

fn list_keys(heap: &mut Heap, dict: &Val) -> May<Val, Fault>
    ensures { Builds (spec.part_listed (λ pair. pair.key)
        (spec.pairs_in (cell_at heap.old dict.now)) heap.old) result heap.new }
{
    match pairs_in(heap.alloc(), heap.cell(dict)) {
        Ok(pairs) => make_keys(heap, pairs.items()),
        Err(miss) => Err(miss),
    }
}

fn list_values(heap: &mut Heap, dict: &Val) -> May<Val, Fault>
    ensures { Builds (spec.part_listed (λ pair. pair.value)
        (spec.pairs_in (cell_at heap.old dict.now)) heap.old) result heap.new }
{
    match pairs_in(heap.alloc(), heap.cell(dict)) {
        Ok(pairs) => make_values(heap, pairs.items()),
        Err(miss) => Err(miss),
    }
}

fn pop(heap: &mut Heap, dict: &Val, values: &[Option<Val>]) -> May<Val, Fault>
    ensures { Builds (spec.popped dict.now values.now heap.old) result heap.new }
{
    match key_content(heap.alloc(), heap, &needed_at(0, values)) {
        Ok(content) => pop_under(heap, dict, content, value_at(1, values)),
        Err(miss) => Err(miss),
    }
}

fn pop_under(heap: &mut Heap, dict: &Val, content: Txt, default: Option<Val>) -> May<Val, Fault>
    ensures { Builds (dict_changed dict.now (edits.Pop content default) heap.old) result heap.new }
{
    change_dict(heap, dict, DictEdit::Pop { content, default })
}

fn pop_item(heap: &mut Heap, dict: &Val) -> May<Val, Fault>
    ensures { Builds (spec.item_popped dict.now heap.old) result heap.new }
{
    let first = first_pair(heap.cell(dict));
    match change_dict(heap, dict, DictEdit::PopFirst) {
        Ok(_) => give_pair(heap, first),
        Err(miss) => Err(miss),
    }
}

/// The first pair of a dictionary's cell.
#[tactic(auto, unfolding(crate::specs::Rows::first_in))]
fn first_pair(cell: Option<&Cell>) -> Option<Pair>
    ensures { result ≡ spec.first_in (option_copied cell.entry) }
{
    match cell {
        Some(Cell::Dict(dict)) => dict.at(0).copied(),
        _ => None,
    }
}

fn give_pair(heap: &mut Heap, pair: Option<Pair>) -> May<Val, Fault>
    ensures { Builds (spec.pair_given pair heap.old) result heap.new }
{
    match pair {
        Some(pair) => make_pair(heap, pair),
        None => Err(Miss::Because(Fault::Key)),
    }
}

fn put_default(heap: &mut Heap, dict: &Val, values: &[Option<Val>]) -> May<Val, Fault>
    ensures { Builds (spec.default_put dict.now values.now heap.old) result heap.new }
{
    match key_content(heap.alloc(), heap, &needed_at(0, values)) {
        Ok(content) => put_under(heap, dict, content, default_pair(values)),
        Err(miss) => Err(miss),
    }
}

fn default_pair(values: &[Option<Val>]) -> Pair
    ensures { result ≡ spec.default_pair values.now }
{
    Pair {
        key: needed_at(0, values),
        value: needed_at(1, values),
    }
}

fn put_under(heap: &mut Heap, dict: &Val, content: Txt, pair: Pair) -> May<Val, Fault>
    ensures { Builds (dict_changed dict.now (edits.PutUnless content pair) heap.old) result
        heap.new }
{
    change_dict(heap, dict, DictEdit::PutUnless { content, pair })
}

#[tactic(auto, unfolding(crate::specs::Rows::update_row))]
fn update(heap: &mut Heap, dict: &Val, args: &Args) -> May<Val, Fault>
    ensures { Builds (update_row dict.now args.now heap.old) result heap.new }
{
    match source_given(heap, args) {
        Ok(source) => merge_source(heap, dict, args.named.items(), source),
        Err(miss) => Err(miss),
    }
}

fn merge_source(heap: &mut Heap, dict: &Val, named: &[NamedVal], source: Source) -> May<Val, Fault>
    ensures { Builds (spec.merged_from dict.now named.now
        (sources.entries_from heap.old source) heap.old) result heap.new }
{
    match entries_from(heap, source) {
        Ok(entries) => merge_names(heap, dict, named, entries),
        Err(Miss::Because(reason)) => merge(heap, dict, Err(reason)),
        Err(Miss::OutOfMemory) => Err(Miss::OutOfMemory),
    }
}

fn merge_names(heap: &mut Heap, dict: &Val, named: &[NamedVal], entries: Dict) -> May<Val, Fault>
    ensures { Builds (spec.merged_from dict.now named.now (Ok entries) heap.old) result heap.new }
{
    match names_put(heap, entries, named) {
        Ok(all) => merge(heap, dict, Ok(all)),
        Err(miss) => Err(miss),
    }
}

fn merge(heap: &mut Heap, dict: &Val, others: Result<Dict, Fault>) -> May<Val, Fault>
    ensures { Builds (dict_changed dict.now (edits.Merge others) heap.old) result heap.new }
{
    change_dict(heap, dict, DictEdit::Merge(others))
}

/// A call of `dict`.
#[tactic(auto, unfolding(crate::specs::Rows::new_dict_row))]
pub fn new_dict(heap: &mut Heap, args: &Args) -> May<Val, Fault>
    ensures { Builds (new_dict_row args.now heap.old) result heap.new }
{
    match source_given(heap, args) {
        Ok(source) => make_source(heap, args.named.items(), source),
        Err(miss) => Err(miss),
    }
}

fn make_source(heap: &mut Heap, named: &[NamedVal], source: Source) -> May<Val, Fault>
    ensures { Builds (spec.made_from named.now (sources.entries_from heap.old source) heap.old)
        result heap.new }
{
    match entries_from(heap, source) {
        Ok(entries) => make_names(heap, named, entries),
        Err(miss) => Err(miss),
    }
}

fn make_names(heap: &mut Heap, named: &[NamedVal], entries: Dict) -> May<Val, Fault>
    ensures { Builds (spec.made_from named.now (Ok entries) heap.old) result heap.new }
{
    match names_put(heap, entries, named) {
        Ok(all) => heap.make(Cell::Dict(all)),
        Err(miss) => Err(miss),
    }
}
