//! The first amounts of a run: the blocks of the roots, filled by the shapes of the parameters.
//!
//! `root_amount` answers the amount of one root cell, and `fill` makes the blocks of all roots. The amounts of cells are
//! defined in the specs of `params_check`; the blocks and the state that they make up stand in `specs/`.
#![tactic(auto)]

mod amount;
mod field;
mod filling;
mod laws;
mod stretch;

pub use amount::root_amount;
pub use filling::fill;
pub use laws::initial_totals;
