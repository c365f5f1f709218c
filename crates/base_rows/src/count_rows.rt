//! The count of steps, on a ledger of its own.
ghost use Rattle.std.specs.Prelude.{◌≡◌};

use bz_base::Steps;
use std::marker::Brand;
use std::sync::ledger::{Blank, Ledger};

fn two_ticks<L: Ledger>(ledger: Blank) -> u64
    requires name { ledger.name ≡ L.name }
    requires parts { ledger.parts ≡ L.parts }
{
    let mut steps: Steps<L> = Steps::of(ledger);
    steps.tick();
    steps.tick();
    steps.spent()
}

#[test]
fn counts_ticks(rt: HostRuntime) {
    assert_eq!(rt; two_ticks::<Brand>(Blank::new(1)), 2);
}
