//! Which calls of an object in memory fail.
ghost use Rattle.std.specs.Prelude.{◌≡◌, OnErr, OnOk};
ghost use Rattle.bz_tree.specs.Plans.{fails_next, no_plan, one_made, with_failing};

use bz_base::Mem;
use std::alloc::Global;
use std::marker::Model;

/// How many calls were made, and the numbers of those that fail.
#[derive(Debug, Drop)]
pub(crate) struct Plan {
    made: u64,
    failing: Vec<u64>,
}

impl Model for Plan {
    ghost use Rattle.bz_tree.specs.Plans as plans;

    ghost Value = { plans.Plan };

    ghost view = { λ p. record { made = p.made; failing = p.failing.items } };
}

impl Plan {
    /// No call was made, and none fails.
    pub(crate) fn new(alloc: Global) -> Plan
        ensures { result ≡ no_plan }
    {
        Plan {
            made: 0,
            failing: Vec::new(alloc),
        }
    }

    /// Plans that the nth call from now fails too, the next one being the first.
    pub(crate) fn fail(&mut self, nth: u64) -> Mem<()>
        ensures planned { OnOk result (self.new ≡ with_failing self.old nth) }
        ensures unchanged { OnErr result (self.new ≡ self.old) }
    {
        self.failing.push(self.made.saturating_add(nth))?;
        Ok(())
    }

    /// Whether the next call fails.
    pub(crate) fn fails_next(&self) -> bool
        ensures { result ≡ fails_next self.now }
    {
        let next = self.made.saturating_add(1);
        self.failing.iter().any(|number| *number == next)
    }

    /// One more call is made.
    pub(crate) fn make(&mut self)
        ensures { self.new ≡ one_made self.old }
    {
        self.made = self.made.saturating_add(1);
    }
}
