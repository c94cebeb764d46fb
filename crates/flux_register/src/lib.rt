//! The flux correction: each block that has coarser leaves across its faces sums its fluxes up and sends them, and the
//! coarse blocks put these sums in place of their own fluxes (Berger and Colella 1989). In any order of delivery the
//! phase comes to rest, and then the blocks hold the state after an advance of the composite grid of all levels, and
//! `outer` tells what flowed out of the domain. It begins over blocks that were advanced by their own fluxes.
//! Cells stand in specs/Cells.antt, messages in specs/React.antt, what an advance has made in specs/Made.antt, the
//! problem and the invariant in specs/Problem.antt, and what the invariant says in specs/States.antt.
#![tactic(auto)]

mod advance_laws;
mod cell;
mod coarse_face;
mod coarse_faces;
mod first_cells;
mod flux_fix;
mod flux_msg;
mod laws;
mod making;
mod outer_flow;
mod outer_sides;
mod problem;
mod settled;
mod sides;

pub use advance_laws::upwind_advances;
pub use cell::FluxCell;
pub use flux_fix::FluxFix;
pub use flux_msg::FluxMsg;
pub use laws::{every_run_corrects, every_state_of_a_run};
pub use outer_flow::outer;
pub use problem::Problem;
pub use settled::settled_blocks;
