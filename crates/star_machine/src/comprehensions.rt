//! The instructions of comprehensions.
ghost use Rattle.std.specs.Prelude.{◌≡◌, None};
ghost use Rattle.star_machine.specs.Configs.{config_of};
ghost use Rattle.star_machine.specs.Outcomes.{Acted};
ghost use Rattle.star_machine.specs.Steps as steps;

use crate::machine::{Later, Machine, Next, fault, of_fault};
use bz_text::{May, Miss};
use sqlite_items::Items;
use star_arguments::append;
use star_code::Code;
use star_core::{Fault, Val};
use star_meaning::{Library, Reason};

impl Machine {
    /// Runs a block in a scope of its own.
    #[tactic(auto, unfolding(crate::specs::Configs::left_of, star_meaning::specs::Worlds::opened))]
    pub fn go_within(&mut self, codes: &[Code], block: usize) -> May<Next, Reason>
        requires { self.old.leaving ≡ None }
        ensures { Acted (steps.inwards codes.now block (config_of codes.now self.old)) result
            (config_of codes.now self.new) }
    {
        let scope = self.scopes.open(self.task.scope, Items::new(self.alloc))?;
        let outwards = Later::Outwards {
            scope: self.task.scope,
            block: self.task.block,
            next: self.task.next,
        };
        self.task.later.push(outwards)?;
        self.task.scope = scope;
        self.task.block = block;
        self.task.next = 0;
        Ok(Next::On)
    }

    /// Puts the top behind the items of the list below it.
    pub fn collect(&mut self, codes: &[Code]) -> May<Next, Reason>
        ensures { Acted (steps.collected (config_of codes.now self.old)) result
            (config_of codes.now self.new) }
    {
        let Some(item) = self.task.stack.pop() else {
            return fault(Fault::Kind);
        };
        let Some(list) = self.task.stack.pop() else {
            return fault(Fault::Kind);
        };
        of_fault(append(&mut self.heap, &list, item))?;
        self.task.stack.push(list)?;
        Ok(Next::On)
    }

    /// Puts a key and a value into the dictionary below them.
    pub fn collect_entry<L: Library>(&mut self, codes: &[Code], library: &L) -> May<Next, Reason>
        ensures { Acted (steps.entry_collected L.rows (config_of codes.now self.old)) result
            (config_of codes.now self.new) }
    {
        let Some(value) = self.task.stack.pop() else {
            return fault(Fault::Kind);
        };
        let Some(key) = self.task.stack.pop() else {
            return fault(Fault::Kind);
        };
        let Some(dict) = self.task.stack.pop() else {
            return fault(Fault::Kind);
        };
        of_fault(library.set_index(&mut self.heap, &dict, &key, value))?;
        self.task.stack.push(dict)?;
        Ok(Next::On)
    }
}
