//! A worker of a pair's board: it claims a job, makes its turn, and brings back what that came to.
ghost use Rattle.std.specs.Prelude.{◌≡◌, Some, true, ℕ, List, length, not, [], ◌∷◌};
ghost use Rattle.board_laws.specs.Results.{IsGiven};
ghost use Rattle.board_pair.specs.Pairs.{pair_meaning};
ghost use Rattle.board_rows.specs.Brought.{no_files};
ghost use Rattle.board_slots.specs.Views.{IsPartOf, queued_answers};
ghost use Rattle.board_work.specs.Turns.{after, rules_of};

use crate::moves::Said;
use board_core::Board;
use board_pair::Pair;
use board_work::{BoardOf, Claim, Given, Held, TurnOf, Work};
use bz_base::{Mem, Seq, Steps};
use bz_tree::Found;
use std::alloc::Global;
use std::marker::{Model, PhantomData};
use std::sync::ledger::Ledger;

/// What a worker brings back of a job that it claimed. Contracts see the worker.
#[derive(Drop)]
pub struct Brought<N: BoardOf<Pair>> {
    pub held: Held<Pair>,
    pub turn: TurnOf<bool, bool, u64>,
    of: PhantomData<N>,
}

impl<N: BoardOf<Pair>> Model for Brought<N> {
    ghost use Rattle.std.specs.Prelude.{ℕ, []};
    ghost use Rattle.board_pair.specs.Pairs.{pair_meaning};
    ghost use Rattle.board_rows.specs.Brought.{IsBrought};

    ghost Value = { ℕ };

    ghost view = { λ b. b.held.worker };

    ghost invariant = { λ b. IsBrought (pair_meaning N.work.lower) (λ part. part) (λ part. []) N.files b.held b.turn };
}

/// What a claim comes to.
#[derive(Drop)]
pub enum Taken<N: BoardOf<Pair>> {
    Job(Brought<N>),
    Nothing,
    Finished,
}

/// A board with both jobs as goals.
pub fn open_board<N: BoardOf<Pair>>(alloc: Global, work: &Pair, first: bool) -> Mem<Board<Pair, N>>
    requires named { work.now ≡ N.work }
    requires goals { first ∷ not first ∷ [] ≡ N.goals }
{
    let mut goals = Vec::new(alloc);
    goals.push(first)?;
    goals.push(!first)?;
    Board::begin(alloc, work, Seq::of_vec(goals))
}

/// Claims a job and makes its turn.
pub fn take<N: BoardOf<Pair>, L: Ledger>(
    alloc: Global,
    work: &Pair,
    board: &mut Board<Pair, N>,
    worker: u32,
    steps: &mut Steps<L>,
) -> Mem<Taken<N>>
    requires named { work.now ≡ N.work }
    requires told { N.files ≡ Some no_files }
{
    match board.claim(worker) {
        Claim::Job { held, part, given } => {
            Ok(Taken::Job(turned(alloc, work, held, part, given, steps)?))
        }
        Claim::Nothing => Ok(Taken::Nothing),
        Claim::Finished => Ok(Taken::Finished),
    }
}

/// The turn of a job that was claimed.
fn turned<N: BoardOf<Pair>, L: Ledger>(
    alloc: Global,
    work: &Pair,
    held: Held<Pair>,
    part: Option<bool>,
    given: Option<Given<u64>>,
    steps: &mut Steps<L>,
) -> Mem<Brought<N>>
    requires named { work.now ≡ N.work }
    requires told { N.files ≡ Some no_files }
    requires own { IsPartOf (λ own. own) held.job part given }
    requires many { length (queued_answers (λ own. []) part given) ≡ held.answers }
    requires given { IsGiven (rules_of (pair_meaning N.work.lower) no_files) held.job (queued_answers (λ own. []) part given) }
{
    match part {
        Some(part) => made(alloc, work, held, part, given, steps),
        None => {
            let part = work.start(alloc, &held.job)?;
            made(alloc, work, held, part, None, steps)
        }
    }
}

fn made<N: BoardOf<Pair>, L: Ledger>(
    alloc: Global,
    work: &Pair,
    held: Held<Pair>,
    part: bool,
    given: Option<Given<u64>>,
    steps: &mut Steps<L>,
) -> Mem<Brought<N>>
    requires named { work.now ≡ N.work }
    requires told { N.files ≡ Some no_files }
    requires own { part ≡ held.job }
    requires many { length (after [] given) ≡ held.answers }
    requires given { IsGiven (rules_of (pair_meaning N.work.lower) no_files) held.job (after [] given) }
{
    let turn = work.turn(alloc, part, given, steps)?;
    Ok(Brought {
        held,
        turn,
        of: PhantomData,
    })
}

/// Brings back what a turn came to.
pub fn bring<N: BoardOf<Pair>>(
    alloc: Global,
    work: &Pair,
    board: &mut Board<Pair, N>,
    brought: Brought<N>,
) -> Mem<Said>
    requires named { work.now ≡ N.work }
{
    let held = brought.held;
    match brought.turn {
        TurnOf::Done(value) => Ok(Said::Ended(board.finish(alloc, work, held, Ok(value), 1)?)),
        TurnOf::Refused(why) => Ok(Said::Ended(board.finish(alloc, work, held, Err(why), 1)?)),
        TurnOf::Needs(part, need) => Ok(Said::Parked(board.park(
            alloc, work, held, part, need, 1,
        )?)),
    }
}

/// What another worker brings back that has claimed nothing.
pub fn of_stranger<N: BoardOf<Pair>>(brought: Brought<N>) -> Brought<N> {
    let mut held = brought.held;
    held.worker = 9;
    Brought {
        held,
        turn: brought.turn,
        of: PhantomData,
    }
}

/// Puts the file that is wanted on the shelf, if one is.
pub fn put_wanted<N: BoardOf<Pair>>(alloc: Global, board: &mut Board<Pair, N>) -> Mem<bool>
    requires told { N.files ≡ Some no_files }
{
    let (need, path) = match board.wanted() {
        Some((need, path)) => (need, path.copy(alloc)?),
        None => return Ok(false),
    };
    board.shelve(alloc, need, &path, Found::Absent)
}
