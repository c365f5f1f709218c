//! Methods of lists: the arguments, and what each method does.
ghost use Rattle.std.specs.Prelude.{◌≡◌};
ghost use Rattle.star_containers.specs.Changing.{extended};
ghost use Rattle.star_core.specs.declared.values.Val.TheVariants as vals;
ghost use Rattle.star_library.specs.Calls.{Builds, give_back, go_on};
ghost use Rattle.star_lists.specs.Rows as spec;
ghost use Rattle.star_lists.specs.Rows.{changed_if, list_called, list_row};

use crate::editing::{ListEdit, change_list};
use crate::methods::ListMethod;
use crate::searching::{index_answer, place_in};
use bz_text::{May, Miss};
use star_calls::{given_at, integer, integer_or, needed_at};
use star_containers::extend;
use star_core::{Args, Fault, Heap, Val};
use star_library::bind;

/// A call of a list's method.
#[tactic(auto, unfolding(crate::specs::Rows::list_row))]
pub fn list_call(heap: &mut Heap, method: ListMethod, list: &Val, args: &Args) -> May<Val, Fault>
    ensures { Builds (list_row method list.now args.now heap.old) result heap.new }
{
    match bind(heap.alloc(), method.parameters(), args) {
        Ok(values) => call(heap, method, list, values.items()),
        Err(miss) => Err(miss),
    }
}

#[tactic(auto, unfolding(crate::specs::Rows::list_called))]
fn call(heap: &mut Heap, method: ListMethod, list: &Val, values: &[Option<Val>]) -> May<Val, Fault>
    ensures { Builds (list_called method list.now values.now heap.old) result heap.new }
{
    match method {
        ListMethod::Append => change_list(heap, list, ListEdit::Append(needed_at(0, values))),
        ListMethod::Clear => change_list(heap, list, ListEdit::Clear),
        ListMethod::Extend => extend_list(heap, list, &needed_at(0, values)),
        ListMethod::Index => index_answer(heap, list, values),
        ListMethod::Insert => change_if(heap, list, insertion(values)),
        ListMethod::Pop => change_if(heap, list, popping(values)),
        ListMethod::Remove => remove(heap, list, &needed_at(0, values)),
    }
}

fn extend_list(heap: &mut Heap, list: &Val, by: &Val) -> May<Val, Fault>
    ensures { Builds (go_on (extended list.now by.now heap.old) (λ done. give_back vals.None))
        result heap.new }
{
    match extend(heap, list, by) {
        Ok(()) => Ok(Val::None),
        Err(miss) => Err(miss),
    }
}

/// Takes the first item that is equal to a value.
#[tactic(auto, unfolding(crate::specs::Rows::removal))]
fn remove(heap: &mut Heap, list: &Val, value: &Val) -> May<Val, Fault>
    ensures { Builds (spec.removal list.now value.now heap.old) result heap.new }
{
    let found = place_in(heap, list, value);
    change_list(heap, list, ListEdit::Remove(found))
}

/// A change whose arguments may be refused.
fn change_if(heap: &mut Heap, list: &Val, edit: Result<ListEdit, Fault>) -> May<Val, Fault>
    ensures { Builds (changed_if list.now edit heap.old) result heap.new }
{
    match edit {
        Ok(edit) => change_list(heap, list, edit),
        Err(reason) => Err(Miss::Because(reason)),
    }
}

fn insertion(values: &[Option<Val>]) -> Result<ListEdit, Fault>
    ensures { result ≡ spec.insertion values.now }
{
    match integer(needed_at(0, values)) {
        Ok(at) => Ok(ListEdit::Insert {
            at,
            value: needed_at(1, values),
        }),
        Err(reason) => Err(reason),
    }
}

fn popping(values: &[Option<Val>]) -> Result<ListEdit, Fault>
    ensures { result ≡ spec.popping values.now }
{
    match integer_or(-1, given_at(0, values)) {
        Ok(at) => Ok(ListEdit::Pop(at)),
        Err(reason) => Err(reason),
    }
}
