//! The rules that hold expressions take the parser of those as a value, so that each is proved by
//! itself.
ghost use Rattle.std.specs.Prelude.{◌≡◌, [], ◌∷◌, IfOk, Some, None, if◌then◌else◌};
ghost use Rattle.star_grammar.specs.ExpressionReading.{reads};
ghost use Rattle.star_grammar.specs.Rules.{deep};
ghost use Rattle.star_expressions.specs.Nests.{Nests};
ghost use Rattle.star_expressions.specs.Reads.{Finds, Reads};

use crate::cursor::{Cursor, NoTree};
use bz_text::{May, Mem, Miss};
use sqlite_items::{Boxed, Items};
use star_grammar::{BareExpr, Level};
use star_trees::{DEEPEST, Held};
use std::alloc::Global;

/// An expression and its depth, held.
pub type HeldTree = Held<(BareExpr, usize)>;

/// `nested` reads an expression in which so many constructs nest at most.
#[derive(Clone, Copy)]
pub(crate) struct Grammar<F> {
    pub(crate) alloc: Global,
    pub(crate) nesting: usize,
    pub(crate) nested: F,
}

impl<F: Fn(Global, &mut Cursor<'_>, usize, Level) -> May<(BareExpr, usize), NoTree>> Grammar<F> {
    pub(crate) fn nested(
        &self,
        symbols: &mut Cursor<'_>,
        level: Level,
    ) -> May<(BareExpr, usize), NoTree>
        requires { Nests self.now.nesting (F.pre self.now.nested) (F.post self.now.nested) }
        ensures { Reads (reads self.now.nesting level symbols.old.rest.now) result symbols.new.rest.now }
    {
        (self.nested)(self.alloc, symbols, self.nesting, level)
    }
}

/// A construct over parts of this depth.
#[tactic(auto, unfolding(star_grammar::specs::Rules::deep))]
pub fn deep<T: Drop>(tree: T, parts: usize) -> May<(T, usize), NoTree>
    ensures { Finds (deep tree parts) result }
{
    if parts < DEEPEST {
        Ok((tree, parts + 1))
    } else {
        Err(Miss::Because(NoTree))
    }
}

/// Goes on where this holds.
pub fn checked(holds: bool) -> May<(), NoTree>
    ensures { Finds (if holds then Some tt else None) result }
{
    if holds {
        Ok(())
    } else {
        Err(Miss::Because(NoTree))
    }
}

/// An expression in a box, with its depth.
pub(crate) fn boxed(alloc: Global, tree: HeldTree) -> Mem<(Boxed<BareExpr>, usize)>
    ensures { IfOk result (λ boxed. boxed ≡ tree) }
{
    let (tree, depth) = tree.release();
    Ok((Boxed::new(alloc, tree)?, depth))
}

/// The list of one item.
pub fn only<T: Drop>(alloc: Global, item: T) -> Mem<Items<T>>
    ensures { IfOk result (λ items. items ≡ item ∷ []) }
{
    let mut items = Items::new(alloc);
    items.push(item)?;
    Ok(items)
}
