//! The amounts of a block that is made of others: a child gets the parts of its parent's cells, and a parent the sums
//! of its eight children's.
//!
//! Neither takes memory. What the amounts are stands in the specs of `block_fields`; how the blocks have to fit is in
//! `specs/`.
#![tactic(auto)]

mod cells;
mod join;
mod laws;
mod split;

pub use cells::{join_cells, split_cells};
pub use laws::joining_undoes_splitting;
