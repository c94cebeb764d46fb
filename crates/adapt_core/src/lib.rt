//! The adapt phase: leaves agree by messages on levels. Each takes its opening level when it starts, tells its level
//! to the leaves that touch it, and rises to what their levels ask of it. In any order of delivery the phase comes to
//! rest, and then the levels are the least that meet the level rules.
//! Cells and messages stand in specs/Cells.antt and specs/React.antt, the problem in specs/Problem.antt, and what
//! stands in every state in specs/Holds.antt. specs/Lemmas/ proves the laws of the phase, which its impl cites.
#![tactic(auto)]

mod adapt;
mod adapt_msg;
mod cell;
mod first_cells;
mod laws;
mod making;
mod problem;
mod problem_laws;
mod siblings;

pub use adapt::{Adapt, levels, touching_lists};
pub use adapt_msg::AdaptMsg;
pub use cell::AdaptCell;
pub use laws::{
    every_run_agrees, few_messages, handling_needs_no_problem, levels_at_rest_are_least,
};
pub use problem::Problem;
pub use problem_laws::{one_problem, problem_exists};
