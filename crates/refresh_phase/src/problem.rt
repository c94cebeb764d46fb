//! The struct whose model is the problem.

use crate::cell::RefreshCell;
use crate::refresh::Refresh;
use std::marker::Model;

/// What a phase works on: what all blocks have in common, and each block's part. None is ever made.
#[derive(Drop)]
pub struct Problem {
    phase: Refresh,
    cells: Vec<RefreshCell>,
}

impl Model for Problem {
    ghost use Rattle.refresh_phase.specs.Cells.{RefreshProblem, problem_of};

    ghost Value = { RefreshProblem };

    ghost view = { λ p. problem_of p.phase p.cells.items };
}
