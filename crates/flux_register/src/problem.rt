//! The struct whose model is the problem.

use crate::cell::FluxCell;
use crate::flux_fix::FluxFix;
use std::marker::Model;

/// What a phase works on: what all blocks have in common, and each block's part. None is ever made.
#[derive(Drop)]
pub struct Problem {
    phase: FluxFix,
    cells: Vec<FluxCell>,
}

impl Model for Problem {
    ghost use Rattle.flux_register.specs.Cells.{FluxProblem, problem_of};

    ghost Value = { FluxProblem };

    ghost view = { λ p. problem_of p.phase p.cells.items };
}
