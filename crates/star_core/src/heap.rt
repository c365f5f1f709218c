//! The heap: the cells that hold an evaluation's values.
ghost use Rattle.std.specs.Prelude.{◌≡◌, ◌+◌, ◌*◌, IfOk, option_copied};
ghost use Rattle.star_core.specs.Heaps as spec;
ghost use Rattle.star_core.specs.Heaps.{Changes, Makes, all_frozen, cell_at, empty_heap, given};
ghost use Rattle.star_core.specs.Heaps.{given_answer, literal_made, made, restarted, sum_for};
ghost use Rattle.star_core.specs.Heaps.{sum_with, taken, unwalked, walked};
ghost use Rattle.star_core.specs.Sizes as sizes;
ghost use Rattle.star_core.specs.Sizes.{size_of};

use crate::cells::Cell;
use crate::dict::Dict;
use crate::faults::Fault;
use crate::values::Val;
use bz_text::{May, Mem, Miss, OutOfMemory, Seq, Txt};
use std::alloc::Global;
use std::marker::Model;
use std::mem;

/// The most bytes of a text: 16 MiB.
pub const MOST_BYTES: usize = 16_777_216;

/// The most items or entries of a container.
pub const MOST_ENTRIES: usize = 1_048_576;

/// The most bytes that all values made in one run may cost: 64 MiB.
pub const MOST_SIZES: u64 = 67_108_864;

/// A cell, and how many walks of it are open.
#[derive(Drop)]
pub struct HeapCell {
    cell: Cell,
    walks: u64,
}

/// The cells of an evaluation. Contracts see them as a list, with how many of the first of them
/// are frozen and the sum of the sizes made so far.
#[derive(Drop)]
pub struct Heap {
    cells: Vec<HeapCell>,
    frozen: usize,
    sum: u64,
    alloc: Global,
}

impl Model for Heap {
    ghost use Rattle.star_core.specs.Heaps.{HeapState};

    ghost Value = { HeapState };

    ghost view = { λ h. record { cells = h.cells.items; frozen = h.frozen; sum = h.sum } };
}

impl Heap {
    /// The empty heap, which keeps the allocator.
    pub fn new(alloc: Global) -> Heap
        ensures { result ≡ empty_heap }
    {
        Heap {
            cells: Vec::new(alloc),
            frozen: 0,
            sum: 0,
            alloc,
        }
    }

    /// The allocator that the heap keeps.
    pub fn alloc(&self) -> Global {
        self.alloc
    }

    /// A new cell.
    pub fn make(&mut self, cell: Cell) -> May<Val, Fault>
        ensures { Makes (made cell self.old) result self.old self.new }
    {
        let Some(sum) = self.sum_with_cell(&cell) else {
            return Err(Miss::Because(Fault::Size));
        };
        let value = self.next_value()?;
        self.cells.push(HeapCell { cell, walks: 0 })?;
        self.sum = sum;
        Ok(value)
    }

    /// A new cell for a text that a file spells. It costs nothing.
    pub fn literal(&mut self, text: Txt) -> May<Val, Fault>
        ensures { Makes (literal_made text self.old) result self.old self.new }
    {
        let value = self.next_value()?;
        self.cells.push(HeapCell {
            cell: Cell::Text(text),
            walks: 0,
        })?;
        Ok(value)
    }

    /// The cell of a value; small values have none.
    pub fn cell(&self, val: &Val) -> Option<&Cell>
        ensures { option_copied result ≡ cell_at self.now val.now }
    {
        let Val::Cell(number) = *val else {
            return None;
        };
        Some(&self.cells.get(number as usize)?.cell)
    }

    /// Makes all cells unchangeable.
    pub fn freeze(&mut self)
        ensures { self.new ≡ all_frozen self.old }
    {
        self.frozen = self.cells.len();
    }

    /// Sets the sum of sizes to 0.
    pub fn restart(&mut self)
        ensures { self.new ≡ restarted self.old }
    {
        self.sum = 0;
    }

    /// Moves the content of a list or a dictionary out, and leaves it empty.
    pub fn take(&mut self, val: &Val) -> Result<Cell, Fault>
        ensures { Changes (taken val.now self.old) result self.old self.new }
    {
        let (number, empty) = self.changeable(val)?;
        self.swap(number, empty)
    }

    /// Puts the content of a list or a dictionary back, with so many bytes added to the sum of
    /// sizes. Also where it is refused the content stands.
    pub fn give(&mut self, val: &Val, cell: Cell, added: u64) -> Result<(), Fault>
        ensures answer { result ≡ given_answer (sum_for cell added self.old) }
        ensures after { self.new ≡ given val.now cell added self.old }
    {
        let sum = self.sum_for(&cell, added);
        self.put_back(val, cell);
        let Some(sum) = sum else {
            return Err(Fault::Size);
        };
        self.sum = sum;
        Ok(())
    }

    /// Begins a walk of a container.
    pub fn walk(&mut self, val: &Val)
        ensures { self.new ≡ walked val.now self.old }
    {
        if let Val::Cell(number) = *val {
            if let Some(held) = self.cells.get_mut(number as usize) {
                held.walks = held.walks.saturating_add(1);
            }
        }
    }

    /// Ends a walk of a container.
    pub fn unwalk(&mut self, val: &Val)
        ensures { self.new ≡ unwalked val.now self.old }
    {
        if let Val::Cell(number) = *val {
            if let Some(held) = self.cells.get_mut(number as usize) {
                held.walks = held.walks.saturating_sub(1);
            }
        }
    }

    /// The number of a list or a dictionary that may be changed, and an empty one of its kind.
    fn changeable(&self, val: &Val) -> Result<(u32, Cell), Fault>
        ensures { result ≡ spec.changeable val.now self.now }
    {
        let Val::Cell(number) = *val else {
            return Err(Fault::Kind);
        };
        let Some(held) = self.cells.get(number as usize) else {
            return Err(Fault::Kind);
        };
        let Some(empty) = emptied(self.alloc, &held.cell) else {
            return Err(Fault::Kind);
        };
        if (number as usize) < self.frozen {
            return Err(Fault::Frozen);
        }
        if held.walks != 0 {
            return Err(Fault::Iterating);
        }
        Ok((number, empty))
    }

    /// Puts another content into a cell, and gives the one that it had.
    fn swap(&mut self, number: u32, content: Cell) -> Result<Cell, Fault>
        ensures { Changes (spec.swapped number content self.old) result self.old self.new }
    {
        let Some(held) = self.cells.get_mut(number as usize) else {
            return Err(Fault::Kind);
        };
        Ok(mem::replace(&mut held.cell, content))
    }

    fn put_back(&mut self, val: &Val, cell: Cell)
        ensures { self.new ≡ spec.number_put_back (spec.cell_number val.now) cell self.old }
    {
        if let Val::Cell(number) = *val {
            if let Some(held) = self.cells.get_mut(number as usize) {
                held.cell = cell;
            }
        }
    }

    /// The value that names the next cell.
    fn next_value(&self) -> Mem<Val>
        ensures { IfOk result (λ value. value ≡ spec.next_value self.now) }
    {
        match u32::try_from(self.cells.len()) {
            Ok(number) => Ok(Val::Cell(number)),
            Err(_) => Err(OutOfMemory),
        }
    }

    /// The sum of sizes with so many bytes more; None where it is too large.
    fn sum_with(&self, added: u64) -> Option<u64>
        ensures { result ≡ sum_with added self.now }
    {
        let sum = self.sum.checked_add(added)?;
        if MOST_SIZES < sum { None } else { Some(sum) }
    }

    /// The same where the content itself may be so large.
    fn sum_for(&self, content: &Cell, added: u64) -> Option<u64>
        ensures { result ≡ sum_for content.now added self.now }
    {
        if is_too_large(content) {
            None
        } else {
            self.sum_with(added)
        }
    }

    /// The sum of sizes with so many parts of this size; None where it is too large.
    fn sum_with_parts(&self, size: u64, count: usize) -> Option<u64>
        ensures { result ≡ sum_with (16 + size * count) self.now }
    {
        let parts = size.checked_mul(count as u64)?;
        self.sum_with(parts.checked_add(16)?)
    }

    /// The sum of sizes with that of a cell; None where either is too large.
    fn sum_with_cell(&self, cell: &Cell) -> Option<u64>
        ensures { result ≡ sum_for cell.now (size_of cell.now) self.now }
    {
        if is_too_large(cell) {
            return None;
        }
        self.sum_with_size(cell)
    }

    #[tactic(auto, unfolding(crate::specs::Sizes::size_of))]
    fn sum_with_size(&self, cell: &Cell) -> Option<u64>
        ensures { result ≡ sum_with (size_of cell.now) self.now }
    {
        match cell {
            Cell::Text(text) => self.sum_with_parts(1, text.as_str().len()),
            Cell::List(items) => self.sum_with_parts(16, items.items().len()),
            Cell::Tuple(items) => self.sum_with_parts(16, items.items().len()),
            Cell::Dict(dict) => self.sum_with_parts(32, dict.len()),
            Cell::Struct(fields) => self.sum_with_parts(32, fields.items().len()),
            _ => self.sum_with(16),
        }
    }
}

/// Whether a text or a container is larger than any may be.
#[tactic(auto, unfolding(crate::specs::Sizes::is_too_large))]
fn is_too_large(cell: &Cell) -> bool
    ensures { result ≡ sizes.is_too_large cell.now }
{
    match cell {
        Cell::Text(text) => MOST_BYTES < text.as_str().len(),
        Cell::List(items) => MOST_ENTRIES < items.items().len(),
        Cell::Tuple(items) => MOST_ENTRIES < items.items().len(),
        Cell::Dict(dict) => MOST_ENTRIES < dict.len(),
        _ => false,
    }
}

/// An empty container of the kind of a list or a dictionary.
#[tactic(auto, unfolding(crate::specs::Heaps::emptied))]
fn emptied(alloc: Global, cell: &Cell) -> Option<Cell>
    ensures { result ≡ spec.emptied cell.now }
{
    match cell {
        Cell::List(_) => Some(Cell::List(Seq::new(alloc))),
        Cell::Dict(_) => Some(Cell::Dict(Dict::new(alloc))),
        _ => None,
    }
}
