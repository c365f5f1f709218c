//! Worked examples, and steps at random, on each board. The lower job is `false`.
ghost use Rattle.std.specs.Prelude.{◌≡◌, []};
ghost use Rattle.board_pair.specs.declared.pair.Lower.TheVariants.{AsksBack, Reads, Refused, Value};

use crate::model::{Kind, sketch_of};
use crate::moves::{Move, Said};
use crate::pairs::{Cycled, LowerFirst, Reading, RefusedFirst, RefusedSecond};
use crate::plays::{plays, plays_alike};
use board_pair::{Lower, Pair};
use board_work::Parked;
use bz_base::TreePath;
use std::alloc::Global;
use std::marker::Brand;
use std::process::Abort;
use std::sync::ledger::Blank;
use std::test::Fail;

fn cycled() -> Pair
    ensures { result ≡ record { lower = AsksBack } }
{
    Pair {
        lower: Lower::AsksBack,
    }
}

fn refused() -> Pair
    ensures { result ≡ record { lower = Refused } }
{
    Pair {
        lower: Lower::Refused,
    }
}

fn valued() -> Pair
    ensures { result ≡ record { lower = Value } }
{
    Pair {
        lower: Lower::Value,
    }
}

fn reading(alloc: Global) -> Pair
    ensures { result ≡ record { lower = Reads [] } }
{
    Pair {
        lower: Lower::Reads(TreePath::workspace(alloc)),
    }
}

#[test]
fn two_goals_that_ask_one_another(rt: HostRuntime) -> Result<(), Fail> {
    let table = [
        (Move::Claim(true), Said::Job(false)),
        (Move::Claim(false), Said::Job(true)),
        (Move::Bring(true), Said::Parked(Parked::Waits)),
        (Move::Claim(true), Said::Nothing),
        (Move::Bring(false), Said::Parked(Parked::Cycle)),
        (Move::Claim(true), Said::Finished),
        (Move::Look(true), Said::InCycle),
        (Move::Look(false), Said::InCycle),
    ];
    assert!(rt; plays::<Cycled, Brand>(rt.alloc(), Blank::new(1), &cycled(), false, &table)?);
    Ok(())
}

#[test]
fn a_job_goes_on_with_a_shelved_file(rt: HostRuntime) -> Result<(), Fail> {
    let alloc = rt.alloc();
    let table = [
        (Move::Claim(true), Said::Job(true)),
        (Move::Bring(true), Said::Parked(Parked::Waits)),
        (Move::Claim(true), Said::Job(false)),
        (Move::Bring(true), Said::Parked(Parked::Waits)),
        (Move::Claim(true), Said::Nothing),
        (Move::Shelve, Said::Shelved(true)),
        (Move::Shelve, Said::Shelved(false)),
        (Move::Claim(true), Said::Job(false)),
        (Move::Bring(true), Said::Ended(true)),
        (Move::Claim(true), Said::Job(true)),
        (Move::Bring(true), Said::Ended(true)),
        (Move::Look(true), Said::Valued),
        (Move::Look(false), Said::Valued),
    ];
    assert!(rt; plays::<Reading, Brand>(alloc, Blank::new(1), &reading(alloc), true, &table)?);
    Ok(())
}

#[test]
fn a_refused_first_goal_ends_the_board(rt: HostRuntime) -> Result<(), Fail> {
    let table = [
        (Move::Claim(true), Said::Job(false)),
        (Move::Claim(false), Said::Job(true)),
        (Move::Bring(true), Said::Ended(true)),
        (Move::Claim(true), Said::Finished),
        (Move::Look(true), Said::Refused),
        (Move::Look(false), Said::Undone),
    ];
    assert!(rt;
        plays::<RefusedFirst, Brand>(rt.alloc(), Blank::new(1), &refused(), false, &table)?
    );
    Ok(())
}

#[test]
fn a_refused_second_goal_ends_nothing(rt: HostRuntime) -> Result<(), Fail> {
    let table = [
        (Move::Claim(true), Said::Job(true)),
        (Move::Claim(false), Said::Job(false)),
        (Move::Bring(false), Said::Ended(true)),
        (Move::Claim(false), Said::Nothing),
        (Move::Look(true), Said::Undone),
        (Move::Look(false), Said::Refused),
    ];
    assert!(rt;
        plays::<RefusedSecond, Brand>(rt.alloc(), Blank::new(1), &refused(), true, &table)?
    );
    Ok(())
}

#[test]
fn strangers_change_nothing(rt: HostRuntime) -> Result<(), Fail> {
    let table = [
        (Move::Claim(true), Said::Job(false)),
        (Move::Claim(false), Said::Job(true)),
        (Move::Stray(true), Said::Ended(false)),
        (Move::Stray(false), Said::Parked(Parked::Stray)),
        (Move::Shelve, Said::Shelved(false)),
        (Move::Claim(true), Said::Nothing),
        (Move::Look(true), Said::Undone),
        (Move::Look(false), Said::Undone),
    ];
    assert!(rt; plays::<LowerFirst, Brand>(rt.alloc(), Blank::new(1), &valued(), false, &table)?);
    Ok(())
}

#[test]
fn random_steps_with_a_value(rt: HostRuntime) -> Result<(), Fail> {
    let sketch = sketch_of(Kind::Value, false);
    let alloc = rt.alloc();
    assert!(rt; plays_alike::<LowerFirst, Brand>(alloc, Blank::new(1), &valued(), sketch, 200)?);
    Ok(())
}

#[test]
fn random_steps_with_a_refused_goal(rt: HostRuntime) -> Result<(), Fail> {
    let sketch = sketch_of(Kind::Refused, true);
    let alloc = rt.alloc();
    assert!(rt;
        plays_alike::<RefusedSecond, Brand>(alloc, Blank::new(1), &refused(), sketch, 200)?
    );
    Ok(())
}

#[test]
fn random_steps_in_a_cycle(rt: HostRuntime) -> Result<(), Fail> {
    let sketch = sketch_of(Kind::AsksBack, false);
    let alloc = rt.alloc();
    assert!(rt; plays_alike::<Cycled, Brand>(alloc, Blank::new(1), &cycled(), sketch, 200)?);
    Ok(())
}

#[test]
fn random_steps_with_a_file(rt: HostRuntime) -> Result<(), Fail> {
    let sketch = sketch_of(Kind::Reads, true);
    let alloc = rt.alloc();
    assert!(rt; plays_alike::<Reading, Brand>(alloc, Blank::new(1), &reading(alloc), sketch, 200)?);
    Ok(())
}
