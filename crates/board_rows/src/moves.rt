//! What two workers do on a board, step by step, and what each step comes to.
ghost use Rattle.std.specs.Prelude.{◌≡◌, Some};
ghost use Rattle.board_rows.specs.Brought.{no_files};

use crate::worker::{Brought, Taken, bring, of_stranger, put_wanted, take};
use board_core::Board;
use board_pair::Pair;
use board_work::{BoardOf, Parked, Stop};
use bz_base::{Mem, Steps};
use std::alloc::Global;
use std::sync::ledger::Ledger;

/// A step: the first worker or the other one claims, brings back what it holds, or has a stranger
/// bring it back; the wanted file is put on the shelf; the board is halted; one looks at the first
/// goal or at the other one.
#[derive(Clone, Copy)]
pub enum Move {
    Claim(bool),
    Bring(bool),
    Stray(bool),
    Shelve,
    Halt,
    Look(bool),
}

/// What a step comes to.
#[derive(Clone, Copy, PartialEq, Eq)]
pub enum Said {
    Job(bool),
    Nothing,
    Finished,
    Full,
    Empty,
    Ended(bool),
    Parked(Parked),
    Shelved(bool),
    Halted,
    Valued,
    Refused,
    InCycle,
    Undone,
}

/// What the two workers hold.
#[derive(Drop)]
pub struct Hands<N: BoardOf<Pair>> {
    pub one: Option<Brought<N>>,
    pub other: Option<Brought<N>>,
}

impl<N: BoardOf<Pair>> Hands<N> {
    fn hand(&mut self, one: bool) -> &mut Option<Brought<N>> {
        if one { &mut self.one } else { &mut self.other }
    }

    fn give(&mut self, one: bool) -> Option<Brought<N>> {
        self.hand(one).take()
    }
}

/// Makes a step.
pub fn act<N: BoardOf<Pair>, L: Ledger>(
    alloc: Global,
    work: &Pair,
    board: &mut Board<Pair, N>,
    hands: &mut Hands<N>,
    step: Move,
    steps: &mut Steps<L>,
) -> Mem<Said>
    requires named { work.now ≡ N.work }
    requires told { N.files ≡ Some no_files }
{
    match step {
        Move::Claim(one) => claim(alloc, work, board, hands.hand(one), one, steps),
        Move::Bring(one) => bring_back(alloc, work, board, hands.give(one), false),
        Move::Stray(one) => bring_back(alloc, work, board, hands.give(one), true),
        Move::Shelve => shelve(alloc, board),
        Move::Halt => Ok(halt(board)),
        Move::Look(first) => Ok(look(board, first)),
    }
}

fn claim<N: BoardOf<Pair>, L: Ledger>(
    alloc: Global,
    work: &Pair,
    board: &mut Board<Pair, N>,
    hand: &mut Option<Brought<N>>,
    one: bool,
    steps: &mut Steps<L>,
) -> Mem<Said>
    requires named { work.now ≡ N.work }
    requires told { N.files ≡ Some no_files }
{
    if hand.is_some() {
        return Ok(Said::Full);
    }
    let worker = if one { 1 } else { 2 };
    match take(alloc, work, board, worker, steps)? {
        Taken::Job(brought) => Ok(keep(hand, brought)),
        Taken::Nothing => Ok(Said::Nothing),
        Taken::Finished => Ok(Said::Finished),
    }
}

fn keep<N: BoardOf<Pair>>(hand: &mut Option<Brought<N>>, brought: Brought<N>) -> Said {
    let said = Said::Job(brought.held.job);
    *hand = Some(brought);
    said
}

fn bring_back<N: BoardOf<Pair>>(
    alloc: Global,
    work: &Pair,
    board: &mut Board<Pair, N>,
    held: Option<Brought<N>>,
    stray: bool,
) -> Mem<Said>
    requires named { work.now ≡ N.work }
{
    match held {
        Some(brought) if stray => bring(alloc, work, board, of_stranger(brought)),
        Some(brought) => bring(alloc, work, board, brought),
        None => Ok(Said::Empty),
    }
}

fn shelve<N: BoardOf<Pair>>(alloc: Global, board: &mut Board<Pair, N>) -> Mem<Said>
    requires told { N.files ≡ Some no_files }
{
    Ok(Said::Shelved(put_wanted(alloc, board)?))
}

fn halt<N: BoardOf<Pair>>(board: &mut Board<Pair, N>) -> Said {
    board.halt(Stop::Memory);
    Said::Halted
}

fn look<N: BoardOf<Pair>>(board: &Board<Pair, N>, first: bool) -> Said {
    match board.outcome(if first { 0 } else { 1 }) {
        Some(Ok(value)) if **value == 7 => Said::Valued,
        Some(Err(why)) if why.detail.as_str() == "a -> b -> a" => Said::InCycle,
        Some(Err(_)) => Said::Refused,
        _ => Said::Undone,
    }
}
