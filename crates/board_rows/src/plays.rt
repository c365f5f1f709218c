//! Plays on a board: worked examples as tables, and steps made at random beside the model.
ghost use Rattle.std.specs.Prelude.{◌≡◌, ◌∷◌, [], Some, not};
ghost use Rattle.board_rows.specs.Brought.{no_files};

use crate::model::Sketch;
use crate::moves::{Hands, Move, Said, act};
use crate::worker::open_board;
use board_core::Board;
use board_pair::Pair;
use board_work::BoardOf;
use bz_base::{Mem, Steps};
use std::alloc::Global;
use std::sync::ledger::{Blank, Ledger};

/// Whether each step of a table comes to what stands beside it.
pub fn plays<N: BoardOf<Pair>, L: Ledger>(
    alloc: Global,
    ledger: Blank,
    work: &Pair,
    first: bool,
    table: &[(Move, Said)],
) -> Mem<bool>
    requires name { ledger.name ≡ L.name }
    requires parts { ledger.parts ≡ L.parts }
    requires named { work.now ≡ N.work }
    requires told { N.files ≡ Some no_files }
    requires goals { first ∷ not first ∷ [] ≡ N.goals }
{
    let mut steps: Steps<L> = Steps::of(ledger);
    let mut board = open_board::<N>(alloc, work, first)?;
    let mut hands = Hands {
        one: None,
        other: None,
    };
    walks(alloc, work, &mut board, &mut hands, table, &mut steps)
}

fn walks<N: BoardOf<Pair>, L: Ledger>(
    alloc: Global,
    work: &Pair,
    board: &mut Board<Pair, N>,
    hands: &mut Hands<N>,
    table: &[(Move, Said)],
    steps: &mut Steps<L>,
) -> Mem<bool>
    requires named { work.now ≡ N.work }
    requires told { N.files ≡ Some no_files }
{
    for (step, said) in table {
        if act(alloc, work, board, hands, *step, steps)? != *said {
            return Ok(false);
        }
    }
    Ok(true)
}

/// Whether the board and the model say the same of forty steps of each of these seeds.
pub fn plays_alike<N: BoardOf<Pair>, L: Ledger>(
    alloc: Global,
    ledger: Blank,
    work: &Pair,
    sketch: Sketch,
    seeds: u64,
) -> Mem<bool>
    requires name { ledger.name ≡ L.name }
    requires parts { ledger.parts ≡ L.parts }
    requires named { work.now ≡ N.work }
    requires told { N.files ≡ Some no_files }
    requires goals { sketch.first ∷ not sketch.first ∷ [] ≡ N.goals }
{
    let mut steps: Steps<L> = Steps::of(ledger);
    for seed in 0..seeds {
        if !seed_alike::<N, L>(alloc, work, sketch, seed, &mut steps)? {
            return Ok(false);
        }
    }
    Ok(true)
}

fn seed_alike<N: BoardOf<Pair>, L: Ledger>(
    alloc: Global,
    work: &Pair,
    sketch: Sketch,
    seed: u64,
    steps: &mut Steps<L>,
) -> Mem<bool>
    requires named { work.now ≡ N.work }
    requires told { N.files ≡ Some no_files }
    requires goals { sketch.first ∷ not sketch.first ∷ [] ≡ N.goals }
{
    let mut board = open_board::<N>(alloc, work, sketch.first)?;
    let mut hands = Hands {
        one: None,
        other: None,
    };
    walks_alike(alloc, work, &mut board, &mut hands, sketch, seed, steps)
}

fn walks_alike<N: BoardOf<Pair>, L: Ledger>(
    alloc: Global,
    work: &Pair,
    board: &mut Board<Pair, N>,
    hands: &mut Hands<N>,
    sketch: Sketch,
    seed: u64,
    steps: &mut Steps<L>,
) -> Mem<bool>
    requires named { work.now ≡ N.work }
    requires told { N.files ≡ Some no_files }
{
    let mut sketch = sketch;
    let mut dice = seed;
    for _ in 0..40 {
        dice = dice
            .wrapping_mul(6364136223846793005)
            .wrapping_add(1442695040888963407);
        for step in [step_of(dice), Move::Look(true), Move::Look(false)] {
            if act(alloc, work, board, hands, step, steps)? != sketch.act(step) {
                return Ok(false);
            }
        }
    }
    Ok(true)
}

fn step_of(dice: u64) -> Move {
    let one = (dice >> 50) % 2 == 0;
    match (dice >> 40) % 128 {
        0..=59 => Move::Claim(one),
        60..=109 => Move::Bring(one),
        110..=123 => Move::Shelve,
        124..=126 => Move::Stray(one),
        _ => Move::Halt,
    }
}
