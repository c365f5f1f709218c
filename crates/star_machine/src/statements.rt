//! The instructions that change variables and containers, choose blocks and run loops.
ghost use Rattle.std.specs.Prelude.{◌≡◌, ◌++◌, None, OnOk, Some, option_copied};
ghost use Rattle.star_library.specs.Calls.{Builds};
ghost use Rattle.star_machine.specs.Configs.{block_of, config_of, left_of, onward_of};
ghost use Rattle.star_machine.specs.Outcomes.{Acted};
ghost use Rattle.star_machine.specs.Steps as steps;
ghost use Rattle.star_meaning.specs.Expressions.{entry_displayed};
ghost use Rattle.star_meaning.specs.Statements as meaning;

use crate::machine::{Later, Machine, Next, Turns, fault, of_fault};
use crate::operators::count_step;
use bz_text::{May, Mem, Miss};
use star_code::Code;
use star_core::{BinOp, Cell, Fault, Heap, Stack, Val};
use star_library::{items, truth};
use star_meaning::{Exit, InPlace, Library, Reason};

/// An entry of a dictionary's display: its key may not be there yet.
#[tactic(auto, unfolding(star_meaning::specs::Expressions::entry_displayed))]
fn display_entry<L: Library>(
    library: &L,
    heap: &mut Heap,
    dict: Val,
    key: Val,
    value: Val,
) -> May<(), Fault>
    ensures { Builds (entry_displayed L.rows dict key value heap.old) result heap.new }
{
    match library.binary(heap, BinOp::Within, &key, &dict)? {
        Val::Bool(true) => Err(Miss::Because(Fault::Value)),
        _ => library.set_index(heap, &dict, &key, value),
    }
}

/// How an augmented assignment changes a cell.
#[tactic(auto, unfolding(star_meaning::specs::Statements::in_place))]
fn in_place(op: BinOp, cell: Option<&Cell>) -> InPlace
    ensures { result ≡ meaning.in_place op (option_copied cell.entry) }
{
    match (op, cell) {
        (BinOp::Add, Some(Cell::List(_))) => InPlace::Extends,
        (BinOp::BitOr, Some(Cell::Dict(_))) => InPlace::Merges,
        _ => InPlace::Elsewhere,
    }
}

/// What an augmented assignment puts in the place of a value; nothing where that is changed itself.
#[tactic(auto, unfolding(star_meaning::specs::Statements::augmented))]
fn augment<L: Library>(
    library: &L,
    heap: &mut Heap,
    op: BinOp,
    old: Val,
    by: Val,
) -> May<Option<Val>, Fault>
    ensures { Builds (meaning.augmented L.rows op old by heap.old) result heap.new }
{
    match in_place(op, heap.cell(&old)) {
        InPlace::Extends => {
            library.extend(heap, &old, &by)?;
            Ok(None)
        }
        InPlace::Merges => {
            library.merge(heap, &old, &by)?;
            Ok(None)
        }
        InPlace::Elsewhere => Ok(Some(library.binary(heap, op, &old, &by)?)),
    }
}

/// Puts values on a stack, the first on top.
fn push_values(stack: &mut Stack<Val>, values: &[Val]) -> Mem<()>
    ensures { OnOk result (stack.new ≡ values.now ++ stack.old) }
{
    let mut left = values.len();
    'values: while left > 0 {
        left -= 1;
        stack.push(values[left])?;
    }
    Ok(())
}

impl Machine {
    pub fn entry<L: Library>(&mut self, codes: &[Code], library: &L) -> May<Next, Reason>
        ensures { Acted (steps.entry_put L.rows (config_of codes.now self.old)) result
            (config_of codes.now self.new) }
    {
        let Some(value) = self.task.stack.pop() else {
            return fault(Fault::Kind);
        };
        let Some(key) = self.task.stack.pop() else {
            return fault(Fault::Kind);
        };
        let Some(dict) = self.task.stack.pop() else {
            return fault(Fault::Kind);
        };
        of_fault(display_entry(library, &mut self.heap, dict, key, value))?;
        self.task.stack.push(dict)?;
        Ok(Next::On)
    }

    pub fn set_index<L: Library>(&mut self, codes: &[Code], library: &L) -> May<Next, Reason>
        ensures { Acted (steps.index_put L.rows (config_of codes.now self.old)) result
            (config_of codes.now self.new) }
    {
        let Some(at) = self.task.stack.pop() else {
            return fault(Fault::Kind);
        };
        let Some(of) = self.task.stack.pop() else {
            return fault(Fault::Kind);
        };
        let Some(value) = self.task.stack.pop() else {
            return fault(Fault::Kind);
        };
        of_fault(library.set_index(&mut self.heap, &of, &at, value))?;
        Ok(Next::On)
    }

    #[tactic(auto, unfolding(star_meaning::specs::Worlds::unpacked))]
    pub fn unpack(&mut self, codes: &[Code], count: usize) -> May<Next, Reason>
        ensures { Acted (steps.unpacked_on count (config_of codes.now self.old)) result
            (config_of codes.now self.new) }
    {
        let Some(value) = self.task.stack.pop() else {
            return fault(Fault::Kind);
        };
        let values = of_fault(items(self.alloc, &self.heap, &value))?;
        if values.items().len() != count {
            return fault(Fault::Value);
        }
        push_values(&mut self.task.stack, values.items())?;
        Ok(Next::On)
    }

    #[tactic(auto, unfolding(star_meaning::specs::Worlds::assigned))]
    pub fn augment_name<L: Library>(
        &mut self,
        codes: &[Code],
        library: &L,
        op: BinOp,
        hops: u32,
        slot: u32,
    ) -> May<Next, Reason>
        ensures { Acted (steps.name_augmented L.rows op hops slot (config_of codes.now self.old)) result
            (config_of codes.now self.new) }
    {
        let Some(by) = self.task.stack.pop() else {
            return fault(Fault::Kind);
        };
        let Some(old) = self.task.stack.pop() else {
            return fault(Fault::Kind);
        };
        if let Some(value) = of_fault(augment(library, &mut self.heap, op, old, by))? {
            let scope = self.scopes.outwards(self.task.scope, hops);
            self.scopes.set(scope, slot, value)?;
        }
        Ok(Next::On)
    }

    pub fn augment_index<L: Library>(
        &mut self,
        codes: &[Code],
        library: &L,
        op: BinOp,
    ) -> May<Next, Reason>
        ensures { Acted (steps.index_augmented L.rows op (config_of codes.now self.old)) result
            (config_of codes.now self.new) }
    {
        let Some(by) = self.task.stack.pop() else {
            return fault(Fault::Kind);
        };
        let Some(old) = self.task.stack.pop() else {
            return fault(Fault::Kind);
        };
        let Some(at) = self.task.stack.pop() else {
            return fault(Fault::Kind);
        };
        let Some(of) = self.task.stack.pop() else {
            return fault(Fault::Kind);
        };
        if let Some(value) = of_fault(augment(library, &mut self.heap, op, old, by))? {
            of_fault(library.set_index(&mut self.heap, &of, &at, value))?;
        }
        Ok(Next::On)
    }

    /// A block is run, and then what is left of this one.
    #[tactic(auto, unfolding(crate::specs::Configs::left_of))]
    pub(crate) fn run_block(&mut self, codes: &[Code], block: usize) -> May<Next, Reason>
        requires { self.old.leaving ≡ None }
        ensures { Acted (steps.into_block (config_of codes.now self.old)
            (block_of codes.now self.old.task.file block) self.old.task.stack) result
            (config_of codes.now self.new) }
    {
        let behind = Later::Behind {
            block: self.task.block,
            next: self.task.next,
        };
        self.task.later.push(behind)?;
        self.task.block = block;
        self.task.next = 0;
        Ok(Next::On)
    }

    pub fn branch(&mut self, codes: &[Code], chosen: usize, other: usize) -> May<Next, Reason>
        requires { self.old.leaving ≡ None }
        ensures { Acted (steps.branched codes.now chosen other (config_of codes.now self.old))
            result (config_of codes.now self.new) }
    {
        let Some(value) = self.task.stack.pop() else {
            return fault(Fault::Kind);
        };
        let block = if truth(&self.heap, &value) {
            chosen
        } else {
            other
        };
        self.run_block(codes, block)
    }

    pub fn short(&mut self, codes: &[Code], wanted: bool, block: usize) -> May<Next, Reason>
        requires { self.old.leaving ≡ None }
        ensures { Acted (steps.short codes.now wanted block (config_of codes.now self.old)) result
            (config_of codes.now self.new) }
    {
        let Some(value) = self.task.stack.pop() else {
            return fault(Fault::Kind);
        };
        if truth(&self.heap, &value) == wanted {
            return self.run_block(codes, block);
        }
        self.task.stack.push(value)?;
        Ok(Next::On)
    }

    /// A loop begins.
    pub fn walk(&mut self, codes: &[Code], body: usize) -> May<Next, Reason>
        requires { self.old.leaving ≡ None }
        ensures { Acted (steps.looped codes.now body (config_of codes.now self.old)) result
            (config_of codes.now self.new) }
    {
        let Some(over) = self.task.stack.pop() else {
            return fault(Fault::Kind);
        };
        let values = of_fault(items(self.alloc, &self.heap, &over))?;
        self.heap.walk(&over);
        let turns = Turns {
            items: Stack::of_slice(self.alloc, values.items())?,
            over,
            body,
            place: self.task.place,
            block: self.task.block,
            next: self.task.next,
        };
        self.turn(codes, turns)
    }

    /// The next turn of a loop, or its end.
    #[tactic(auto, unfolding(crate::specs::Configs::left_of))]
    pub fn turn(&mut self, codes: &[Code], turns: Turns) -> May<Next, Reason>
        requires { self.old.leaving ≡ None }
        ensures { Acted (steps.turned turns.items turns.over
            (block_of codes.now self.old.task.file turns.body) turns.place
            (left_of codes.now self.old.task.file turns.block turns.next)
            (config_of codes.now self.old).onward (config_of codes.now self.old)) result
            (config_of codes.now self.new) }
    {
        let mut turns = turns;
        match turns.items.pop() {
            None => {
                self.heap.unwalk(&turns.over);
                self.task.block = turns.block;
                self.task.next = turns.next;
                Ok(Next::On)
            }
            Some(item) => {
                self.task.place = turns.place;
                count_step(&mut self.count, self.limit)?;
                self.task.stack.push(item)?;
                self.task.block = turns.body;
                self.task.next = 0;
                self.task.later.push(Later::Turns(turns))?;
                Ok(Next::On)
            }
        }
    }

    /// A loop or a function is left.
    pub fn leave_by(&mut self, codes: &[Code], exit: Exit) -> May<Next, Reason>
        ensures { Acted (steps.leaving exit (config_of codes.now self.old)) result
            (config_of codes.now self.new) }
    {
        self.leaving = Some(exit);
        Ok(Next::On)
    }

    pub fn give_back(&mut self, codes: &[Code]) -> May<Next, Reason>
        ensures { Acted (steps.given_back (config_of codes.now self.old)) result
            (config_of codes.now self.new) }
    {
        let Some(value) = self.task.stack.pop() else {
            return fault(Fault::Kind);
        };
        self.leaving = Some(Exit::Return(value));
        Ok(Next::On)
    }

    /// A block ended.
    pub fn end_block(&mut self, codes: &[Code]) -> May<Next, Reason>
        requires { self.old.leaving ≡ None }
        ensures { Acted (steps.block_ended (config_of codes.now self.old).onward
            (config_of codes.now self.old)) result (config_of codes.now self.new) }
    {
        match self.task.later.pop() {
            None => {
                self.leaving = Some(Exit::Return(Val::None));
                Ok(Next::On)
            }
            Some(Later::Behind { block, next }) => {
                self.task.block = block;
                self.task.next = next;
                Ok(Next::On)
            }
            Some(Later::Outwards { scope, block, next }) => {
                self.task.scope = scope;
                self.task.block = block;
                self.task.next = next;
                Ok(Next::On)
            }
            Some(Later::Turns(turns)) => self.turn(codes, turns),
        }
    }
}
