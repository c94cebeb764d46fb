//! The refresh phase: each block sends the samples that others see of it, as pieces, and files what it is sent. In any
//! order of delivery the phase comes to rest, and then every shell holds the samples of its block's level, and no
//! amount has changed.
//! Cells stand in specs/Cells.antt, messages in specs/React.antt, the problem and the invariant in specs/Problem.antt,
//! and what the invariant says of each cell, region and message in specs/States.antt.
#![tactic(auto)]

mod cell;
mod first_cells;
mod header;
mod laws;
mod making;
mod problem;
mod refresh;
mod refresh_msg;

pub use cell::RefreshCell;
pub use laws::{every_run_refreshes, every_state_of_a_run};
pub use problem::Problem;
pub use refresh::{Refresh, settled_blocks};
pub use refresh_msg::RefreshMsg;
