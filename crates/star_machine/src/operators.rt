//! The instructions that make a value of others.
ghost use Rattle.std.specs.Prelude.{◌≡◌};
ghost use Rattle.star_machine.specs.Configs.{config_of};
ghost use Rattle.star_machine.specs.Outcomes.{Acted, Counted};
ghost use Rattle.star_machine.specs.Steps as steps;

use crate::machine::{Machine, Next, fault, of_fault};
use bz_text::{May, Miss, Seq};
use star_code::Code;
use star_core::{BinOp, Cell, Dict, Fault, UnOp, Val};
use star_meaning::{Library, Place, Reason};

/// One step more; the one that reaches the limit is refused.
pub fn count_step(count: &mut u64, limit: u64) -> May<(), Reason>
    ensures { Counted limit result count.old count.new }
{
    let Some(next) = count.checked_add(1) else {
        return Err(Miss::OutOfMemory);
    };
    *count = next;
    if next < limit {
        Ok(())
    } else {
        Err(Miss::Because(Reason::Steps))
    }
}

impl Machine {
    /// A statement begins.
    pub fn begin(&mut self, codes: &[Code], line: u64) -> May<Next, Reason>
        ensures { Acted (steps.begun line (config_of codes.now self.old)) result
            (config_of codes.now self.new) }
    {
        self.task.place = Some(Place {
            file: self.task.file,
            line,
        });
        count_step(&mut self.count, self.limit)?;
        Ok(Next::On)
    }

    /// A node begins.
    pub fn tick(&mut self, codes: &[Code]) -> May<Next, Reason>
        ensures { Acted (steps.ticked (config_of codes.now self.old)) result
            (config_of codes.now self.new) }
    {
        count_step(&mut self.count, self.limit)?;
        Ok(Next::On)
    }

    pub fn constant(&mut self, codes: &[Code], value: Val) -> May<Next, Reason>
        ensures { Acted (steps.constant value (config_of codes.now self.old)) result
            (config_of codes.now self.new) }
    {
        count_step(&mut self.count, self.limit)?;
        self.task.stack.push(value)?;
        Ok(Next::On)
    }

    pub fn push(&mut self, codes: &[Code], value: Val) -> May<Next, Reason>
        ensures { Acted (steps.plain_pushed value (config_of codes.now self.old)) result
            (config_of codes.now self.new) }
    {
        self.task.stack.push(value)?;
        Ok(Next::On)
    }

    #[tactic(auto, unfolding(star_meaning::specs::Worlds::variable))]
    pub fn name(&mut self, codes: &[Code], hops: u32, slot: u32) -> May<Next, Reason>
        ensures { Acted (steps.named hops slot (config_of codes.now self.old)) result
            (config_of codes.now self.new) }
    {
        count_step(&mut self.count, self.limit)?;
        let scope = self.scopes.outwards(self.task.scope, hops);
        match self.scopes.get(scope, slot) {
            Some(value) => {
                self.task.stack.push(value)?;
                Ok(Next::On)
            }
            None => fault(Fault::Unbound),
        }
    }

    #[tactic(auto, unfolding(star_meaning::specs::Worlds::assigned))]
    pub fn set(&mut self, codes: &[Code], hops: u32, slot: u32) -> May<Next, Reason>
        ensures { Acted (steps.set hops slot (config_of codes.now self.old)) result
            (config_of codes.now self.new) }
    {
        let Some(value) = self.task.stack.pop() else {
            return fault(Fault::Kind);
        };
        let scope = self.scopes.outwards(self.task.scope, hops);
        self.scopes.set(scope, slot, value)?;
        Ok(Next::On)
    }

    pub fn forget(&mut self, codes: &[Code]) -> May<Next, Reason>
        ensures { Acted (steps.forgotten (config_of codes.now self.old)) result
            (config_of codes.now self.new) }
    {
        match self.task.stack.pop() {
            Some(_value) => Ok(Next::On),
            None => fault(Fault::Kind),
        }
    }

    pub fn list(&mut self, codes: &[Code], count: usize) -> May<Next, Reason>
        ensures { Acted (steps.listed count (config_of codes.now self.old)) result
            (config_of codes.now self.new) }
    {
        let Some(values) = self.task.stack.take_top(count)? else {
            return fault(Fault::Kind);
        };
        let list = of_fault(self.heap.make(Cell::List(Seq::of_vec(values))))?;
        self.task.stack.push(list)?;
        Ok(Next::On)
    }

    pub fn tuple(&mut self, codes: &[Code], count: usize) -> May<Next, Reason>
        ensures { Acted (steps.tupled count (config_of codes.now self.old)) result
            (config_of codes.now self.new) }
    {
        let Some(values) = self.task.stack.take_top(count)? else {
            return fault(Fault::Kind);
        };
        let tuple = of_fault(self.heap.make(Cell::Tuple(Seq::of_vec(values))))?;
        self.task.stack.push(tuple)?;
        Ok(Next::On)
    }

    pub fn dict(&mut self, codes: &[Code]) -> May<Next, Reason>
        ensures { Acted (steps.dict_made (config_of codes.now self.old)) result
            (config_of codes.now self.new) }
    {
        let dict = of_fault(self.heap.make(Cell::Dict(Dict::new(self.alloc))))?;
        self.task.stack.push(dict)?;
        Ok(Next::On)
    }

    pub fn unary<L: Library>(&mut self, codes: &[Code], library: &L, op: UnOp) -> May<Next, Reason>
        ensures { Acted (steps.unary_done L.rows op (config_of codes.now self.old)) result
            (config_of codes.now self.new) }
    {
        let Some(x) = self.task.stack.pop() else {
            return fault(Fault::Kind);
        };
        let value = of_fault(library.unary(&mut self.heap, op, &x))?;
        self.task.stack.push(value)?;
        Ok(Next::On)
    }

    pub fn binary<L: Library>(
        &mut self,
        codes: &[Code],
        library: &L,
        op: BinOp,
    ) -> May<Next, Reason>
        ensures { Acted (steps.binary_done L.rows op (config_of codes.now self.old)) result
            (config_of codes.now self.new) }
    {
        let Some(y) = self.task.stack.pop() else {
            return fault(Fault::Kind);
        };
        let Some(x) = self.task.stack.pop() else {
            return fault(Fault::Kind);
        };
        let value = of_fault(library.binary(&mut self.heap, op, &x, &y))?;
        self.task.stack.push(value)?;
        Ok(Next::On)
    }

    pub fn index<L: Library>(&mut self, codes: &[Code], library: &L) -> May<Next, Reason>
        ensures { Acted (steps.indexed L.rows (config_of codes.now self.old)) result
            (config_of codes.now self.new) }
    {
        let Some(at) = self.task.stack.pop() else {
            return fault(Fault::Kind);
        };
        let Some(of) = self.task.stack.pop() else {
            return fault(Fault::Kind);
        };
        let value = of_fault(library.index(&mut self.heap, &of, &at))?;
        self.task.stack.push(value)?;
        Ok(Next::On)
    }

    pub fn slice<L: Library>(&mut self, codes: &[Code], library: &L) -> May<Next, Reason>
        ensures { Acted (steps.sliced L.rows (config_of codes.now self.old)) result
            (config_of codes.now self.new) }
    {
        let Some(step) = self.task.stack.pop() else {
            return fault(Fault::Kind);
        };
        let Some(end) = self.task.stack.pop() else {
            return fault(Fault::Kind);
        };
        let Some(begin) = self.task.stack.pop() else {
            return fault(Fault::Kind);
        };
        let Some(of) = self.task.stack.pop() else {
            return fault(Fault::Kind);
        };
        let value = of_fault(library.slice(&mut self.heap, &of, begin, end, step))?;
        self.task.stack.push(value)?;
        Ok(Next::On)
    }

    /// A container's element above it and its index.
    pub fn fetch<L: Library>(&mut self, codes: &[Code], library: &L) -> May<Next, Reason>
        ensures { Acted (steps.fetched L.rows (config_of codes.now self.old)) result
            (config_of codes.now self.new) }
    {
        let Some(at) = self.task.stack.pop() else {
            return fault(Fault::Kind);
        };
        let Some(of) = self.task.stack.pop() else {
            return fault(Fault::Kind);
        };
        let value = of_fault(library.index(&mut self.heap, &of, &at))?;
        self.task.stack.push(of)?;
        self.task.stack.push(at)?;
        self.task.stack.push(value)?;
        Ok(Next::On)
    }
}
