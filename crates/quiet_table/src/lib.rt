//! A board: words and slots that seats of several threads share under one rule.
//!
//! Each shard has a cell and a box, which hold envelopes. A seat takes a slot, changes its value, counts what it sent and
//! handled, and gives the slot back. Two waves over the counters find out that no envelope is left anywhere, and the
//! verdict keeps it. Every step keeps the rule in every schedule (two-wave counting: Mattern 1987).
//! The rule stands in `specs/BoardRule.antt`, what each step tells in `specs/Told.antt`, what a seat knows in
//! `specs/Views.antt` and `specs/Hands.antt`. Only `Board::new` takes memory.
#![tactic(auto)]

mod board;
mod item;
mod laws;
mod load;
mod picks;
mod plays;
#[cfg(test)]
mod purses;
mod rule;
mod take;
#[cfg(test)]
mod tests;
mod view;
#[cfg(test)]
mod visits;
mod wave;

pub use board::{Board, BoardSeat, Remains};
pub use laws::quiet_means_empty;
pub use load::{LegalLoad, Load};
pub use take::Take;
pub use wave::{Verdict, Wave};
