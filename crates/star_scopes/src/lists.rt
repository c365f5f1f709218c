//! The functions and loads of a file, as they are made.
ghost use Rattle.std.specs.Prelude.{◌≡◌, ◌++◌, ◌∷◌, [], IfOk};
ghost use Rattle.star_scopes.specs.Files.{no_lists};
ghost use Rattle.star_scopes.specs.Making as making;
ghost use Rattle.star_trees.specs.Functions as functions;

use crate::numbers::number;
use bz_text::{Mem, OutOfMemory, Seq};
use sqlite_items::Items;
use star_trees::{FnBody, FnCode, Load};
use std::alloc::Global;
use std::mem;

/// A function takes its place where it begins, and its code where it ends.
#[derive(Drop)]
pub(crate) struct Lists {
    pub(crate) functions: Seq<FnCode>,
    pub(crate) loads: Seq<Load>,
}

impl Lists {
    pub(crate) fn new(alloc: Global) -> Lists
        ensures { result ≡ no_lists }
    {
        Lists {
            functions: Seq::of_vec(Vec::new(alloc)),
            loads: Seq::of_vec(Vec::new(alloc)),
        }
    }

    /// The next place among the functions, taken.
    pub(crate) fn begin(&mut self, alloc: Global) -> Mem<u32>
        ensures { IfOk result (λ place. making.begin self.old ≡ (place, self.new)) }
    {
        let place = number(self.functions.items().len())?;
        push(&mut self.functions, unfinished_code(alloc))?;
        Ok(place)
    }

    /// A function's code, at the place that it took.
    pub(crate) fn finish(&mut self, alloc: Global, place: u32, code: FnCode)
        ensures { making.finish place code self.old ≡ (tt, self.new) }
    {
        let empty = Seq::of_vec(Vec::new(alloc));
        let mut functions = mem::replace(&mut self.functions, empty).into_vec();
        let place = place as usize;
        if place < functions.len() {
            functions[place] = code;
        }
        self.functions = Seq::of_vec(functions);
    }

    /// The next place among the loads, taken.
    pub(crate) fn load(&mut self, loaded: Load) -> Mem<u32>
        ensures { IfOk result (λ place. making.load loaded self.old ≡ (place, self.new)) }
    {
        let place = number(self.loads.items().len())?;
        push(&mut self.loads, loaded)?;
        Ok(place)
    }
}

/// One more item behind the others.
fn push<T: Drop>(items: &mut Seq<T>, item: T) -> Mem<()>
    ensures { IfOk result (λ _. items.new ≡ items.old ++ item ∷ []) }
{
    match items.push(item) {
        Ok(()) => Ok(()),
        Err(_) => Err(OutOfMemory),
    }
}

/// The code of a function whose body is still to be made.
fn unfinished_code(alloc: Global) -> FnCode
    ensures { result ≡ functions.unfinished_code }
{
    FnCode {
        name: None,
        params: Seq::of_vec(Vec::new(alloc)),
        body: FnBody::Block(Items::new(alloc)),
        line: 0,
    }
}
