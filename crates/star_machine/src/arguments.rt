//! The instructions that gather a call's arguments.
ghost use Rattle.std.specs.Prelude.{◌≡◌, option_copied};
ghost use Rattle.star_machine.specs.Configs.{config_of};
ghost use Rattle.star_machine.specs.Outcomes.{Acted};
ghost use Rattle.star_machine.specs.Steps as steps;

use crate::machine::{Machine, Next, fault, of_fault};
use bz_text::{May, Miss};
use sqlite_items::Items;
use star_arguments::{check_items, check_keywords, gather};
use star_code::Code;
use star_core::Fault;
use star_meaning::{Reason, Way};

/// A shape of a call of a file's code.
#[tactic(auto, unfolding(crate::specs::Steps::shape_of))]
fn shape_of(codes: &[Code], file: usize, index: usize) -> Option<&Items<Way>>
    ensures { option_copied result ≡ steps.shape_of codes.now file index }
{
    codes.get(file)?.shapes.as_slice().get(index)
}

impl Machine {
    /// An operand whose items are to be arguments.
    pub fn check_items(&mut self, codes: &[Code]) -> May<Next, Reason>
        ensures { Acted (steps.items_tested (config_of codes.now self.old)) result
            (config_of codes.now self.new) }
    {
        let Some(value) = self.task.stack.pop() else {
            return fault(Fault::Kind);
        };
        of_fault(check_items(self.alloc, &self.heap, &value))?;
        self.task.stack.push(value)?;
        Ok(Next::On)
    }

    /// An operand whose entries are to be arguments.
    pub fn check_keywords(&mut self, codes: &[Code]) -> May<Next, Reason>
        ensures { Acted (steps.keywords_tested (config_of codes.now self.old)) result
            (config_of codes.now self.new) }
    {
        let Some(value) = self.task.stack.pop() else {
            return fault(Fault::Kind);
        };
        of_fault(check_keywords(self.alloc, &self.heap, &value))?;
        self.task.stack.push(value)?;
        Ok(Next::On)
    }

    /// Gathers the topmost operands as a call's arguments.
    pub fn gather(&mut self, codes: &[Code], shape: usize) -> May<Next, Reason>
        ensures { Acted (steps.gathered_step codes.now shape (config_of codes.now self.old)) result
            (config_of codes.now self.new) }
    {
        match shape_of(codes, self.task.file, shape) {
            None => fault(Fault::Kind),
            Some(ways) => self.gather_by(codes, ways.as_slice()),
        }
    }

    fn gather_by(&mut self, codes: &[Code], ways: &[Way]) -> May<Next, Reason>
        ensures { Acted (steps.gathered_in ways.now (config_of codes.now self.old)) result
            (config_of codes.now self.new) }
    {
        let Some(values) = self.task.stack.take_top(ways.len())? else {
            return fault(Fault::Kind);
        };
        self.gathered = of_fault(gather(self.alloc, &self.heap, ways, values.as_slice()))?;
        Ok(Next::On)
    }
}
