//! Containers that are filled one by one.
ghost use Rattle.std.specs.Prelude.{◌≡◌, ◌++◌, ◌∷◌, [], IfOk};
ghost use Rattle.star_library.specs.Calls.{Builds};
ghost use Rattle.star_meaning.specs.Expressions as meaning;
ghost use Rattle.star_meaning.specs.Parameters as spec;

use bz_text::{May, Mem, Miss, Seq};
use star_core::{Cell, Fault, Heap, NamedVal, Val};
use star_meaning::Library;
use std::alloc::Global;

/// Puts arguments by name into a dictionary. The text of a name costs nothing.
pub(crate) fn put_entries<L: Library>(
    alloc: Global,
    library: &L,
    heap: &mut Heap,
    dict: &Val,
    named: &[NamedVal],
) -> May<(), Fault>
    ensures { Builds (spec.entries_put L.rows dict.now named.now heap.old) result heap.new }
{
    'putting: for one in named {
        match put_entry(alloc, library, heap, dict, one) {
            Ok(()) => {}
            Err(miss) => return Err(miss),
        }
    }
    Ok(())
}

fn put_entry<L: Library>(
    alloc: Global,
    library: &L,
    heap: &mut Heap,
    dict: &Val,
    one: &NamedVal,
) -> May<(), Fault>
    ensures { Builds (spec.entry_put L.rows dict.now one.now heap.old) result heap.new }
{
    let key = heap.literal(one.name.copy(alloc)?)?;
    library.set_index(heap, dict, &key, one.val)
}

/// Puts an item behind those of a list.
#[tactic(auto, unfolding(star_meaning::specs::Expressions::appended))]
pub fn append(heap: &mut Heap, list: &Val, item: Val) -> May<(), Fault>
    ensures { Builds (meaning.appended list.now item heap.old) result heap.new }
{
    match heap.take(list) {
        Ok(content) => put_item(heap, list, content, item),
        Err(why) => Err(Miss::Because(why)),
    }
}

fn put_item(heap: &mut Heap, list: &Val, content: Cell, item: Val) -> May<(), Fault>
    ensures { Builds (meaning.item_put list.now item content heap.old) result heap.new }
{
    let Cell::List(items) = content else {
        return Err(Miss::Because(Fault::Kind));
    };
    let items = with_item(items, item)?;
    put_content(heap, list, Cell::List(items), 16)
}

fn with_item(items: Seq<Val>, item: Val) -> Mem<Seq<Val>>
    ensures { IfOk result (λ all. all ≡ items ++ item ∷ []) }
{
    let mut all = items.into_vec();
    all.push(item)?;
    Ok(Seq::of_vec(all))
}

/// Puts a content back.
fn put_content(heap: &mut Heap, val: &Val, content: Cell, added: u64) -> May<(), Fault>
    ensures { Builds (meaning.content_put val.now content added heap.old) result heap.new }
{
    match heap.give(val, content, added) {
        Ok(()) => Ok(()),
        Err(why) => Err(Miss::Because(why)),
    }
}
