//! Changes of containers that give a value.
ghost use Rattle.star_calls.specs.Edits.{edit_put};
ghost use Rattle.star_library.specs.Calls.{Builds};

use bz_text::{May, Miss};
use star_core::{Cell, Fault, Heap, Val};

/// What a change leaves of a container, what that adds to the sum of sizes, and what it gives.
#[derive(Drop)]
pub struct Edited {
    pub content: Cell,
    pub added: u64,
    pub answer: Val,
}

/// Puts what a change left of a container back, and gives the change's value.
pub fn put_edited(heap: &mut Heap, of: &Val, edited: Edited) -> May<Val, Fault>
    ensures { Builds (edit_put of.now edited heap.old) result heap.new }
{
    let Edited {
        content,
        added,
        answer,
    } = edited;
    match heap.give(of, content, added) {
        Ok(()) => Ok(answer),
        Err(reason) => Err(Miss::Because(reason)),
    }
}
