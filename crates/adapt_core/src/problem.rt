//! The struct whose model is the problem.

use crate::cell::AdaptCell;
use block_index::Domain;
use std::marker::Model;

/// What a phase works on: the domain, and each leaf's part. None is ever made.
#[derive(Drop)]
pub struct Problem {
    domain: Domain,
    cells: Vec<AdaptCell>,
}

impl Model for Problem {
    ghost use Rattle.adapt_core.specs.Cells.{AdaptProblem};
    ghost use Rattle.adapt_core.specs.Problem.{problem_of};

    ghost Value = { AdaptProblem };

    ghost view = { λ p. problem_of p.domain p.cells.items };
}
