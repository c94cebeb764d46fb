//! Faces of a leaf that have a coarser leaf across.

use block_index::Place;
use cello_neighbours::Direction;
use std::marker::Model;

/// A side of a coarse leaf with a finer leaf on it.
#[derive(Drop)]
pub(crate) struct CoarseFace {
    pub(crate) to: u32,
    pub(crate) from: u32,
    pub(crate) place: Place,
    pub(crate) side: Direction,
}

impl Model for CoarseFace {
    ghost use Rattle.flux_register.specs.Faces.{FluxFace};

    ghost Value = { FluxFace };

    ghost view = { λ f. record { to = f.to; from = f.from; place = f.place; side = f.side } };
}
