//! Rows for the board: two jobs on it, in worked examples as tables of steps, and in steps made at
//! random from a seed, which are compared with a small model. It holds tests alone.
#![tactic(auto)]

#[cfg(test)]
mod board_tables;
#[cfg(test)]
mod model;
#[cfg(test)]
mod moves;
#[cfg(test)]
mod pairs;
#[cfg(test)]
mod plays;
#[cfg(test)]
mod worker;
