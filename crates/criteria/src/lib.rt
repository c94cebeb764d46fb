//! The wishes of blocks by the criteria of an adapt phase: boxes, and tests of a field's amounts.
//!
//! `wish` answers the wish of one block from its own amounts and its ghosts. Where the ghosts hold the samples of a
//! state, it is that state's wish of the leaf. `specs/Wishes.antt` defines it over plain samples, `specs/Cells.antt` the
//! tests of a cell. It makes one pass over a block for a criterion, where one plane of cells may be looked at twice, and
//! allocates nothing.
#![tactic(auto)]

mod box_test;
mod cell;
mod contrast;
mod deciding;
mod extremes;
mod faces;
mod laws;
mod mass;
mod row;
mod slope;

pub use deciding::wish;
pub use laws::{greatest_and_least_around, wishes_of_a_mesh};
