//! A stack that contracts see as a list whose head is on top.
ghost use Rattle.std.specs.Prelude.{◌≡◌, [], ◌∷◌, IfOk, List, MatchOption, None, OnErr, OnOk};
ghost use Rattle.std.specs.Prelude.{Some, length, reverse};
ghost use Rattle.star_core.specs.Stacks.{taken};

use bz_text::Mem;
use sqlite_items::Items;
use std::alloc::Global;
use std::marker::Model;

/// What is put last is taken first.
#[derive(Debug, Drop)]
pub struct Stack<T> {
    items: Vec<T>,
}

impl<T> Model for Stack<T> {
    ghost use Rattle.std.specs.Prelude.{List, reverse};
    ghost use Rattle.std.specs.Coded.{coded_list};

    ghost Value = { List T };

    ghost coded = { coded_list T.code };

    ghost view = { λ s. reverse s.items.items };
}

impl<T> Stack<T> {
    /// The empty stack, which keeps the allocator.
    pub fn new(alloc: Global) -> Stack<T>
        ensures { result ≡ [] }
    {
        Stack {
            items: Vec::new(alloc),
        }
    }

    pub fn len(&self) -> usize
        ensures { result ≡ length self.now }
    {
        self.items.len()
    }

    /// The items, the top last.
    pub fn top_last(&self) -> &[T]
        ensures { reverse result.now ≡ self.now }
    {
        self.items.as_slice()
    }

    /// Takes the top; None where the stack is empty.
    pub fn pop(&mut self) -> Option<T>
        ensures { MatchOption result ((self.old ≡ []) × (self.new ≡ []))
            (λ top. self.old ≡ top ∷ self.new) }
    {
        self.items.pop()
    }

    /// The items as a list, the top first.
    pub fn into_items(self) -> Items<T>
        ensures { result ≡ self }
    {
        let Stack { mut items } = self;
        items.as_mut_slice().reverse();
        Items::from_vec(items)
    }

    /// The items of a vector, the first on top.
    pub fn of_reversed(items: Vec<T>) -> Stack<T>
        ensures { result ≡ reverse items.items }
    {
        Stack { items }
    }
}

impl<T: Drop> Stack<T> {
    /// Puts an item on top.
    pub fn push(&mut self, item: T) -> Mem<()>
        ensures ok { OnOk result (self.new ≡ item ∷ self.old) }
        ensures unchanged { OnErr result (self.new ≡ self.old) }
    {
        self.items.push(item)?;
        Ok(())
    }

    /// Takes so many topmost items, the topmost last; None where there are fewer.
    pub fn take_top(&mut self, count: usize) -> Mem<Option<Vec<T>>>
        ensures { IfOk result (λ answer. MatchOption answer (taken count [] self.old ≡ None)
            (λ top. taken count [] self.old ≡ Some (top.items, self.new))) }
    {
        if self.items.len() < count {
            return Ok(None);
        }
        let top = self.items.split_off(self.items.len() - count)?;
        Ok(Some(top))
    }
}

impl<T: Copy> Stack<T> {
    /// A copy of the items, the first on top.
    pub fn of_slice(alloc: Global, items: &[T]) -> Mem<Stack<T>>
        ensures { IfOk result (λ stack. stack ≡ items.now) }
    {
        let mut items = Vec::from_slice(alloc, items)?;
        items.as_mut_slice().reverse();
        Ok(Stack { items })
    }

    /// A copy of so many topmost items, the topmost last; None where there are fewer.
    pub fn copy_top(&self, alloc: Global, count: usize) -> Mem<Option<Vec<T>>>
        ensures { IfOk result (λ answer. MatchOption answer (taken count [] self.now ≡ None)
            (λ top. (below : List T) × (taken count [] self.now ≡ Some (top.items, below)))) }
    {
        if self.items.len() < count {
            return Ok(None);
        }
        let items = self.items.as_slice();
        Ok(Some(Vec::from_slice(alloc, &items[items.len() - count..])?))
    }
}
