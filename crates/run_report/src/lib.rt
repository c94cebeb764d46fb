//! What a run writes: the pieces of its report, and the files that are due after a cycle.
//!
//! What is told of a run is a list of actions, which `specs/Actions.antt` defines. `emit` does those of a cycle, in order:
//! its lines, and then its files, each created, written and sealed before the next. A call that fails is the last one
//! on either device, and what stands there then is a beginning of the actions: `specs/Outputs.antt` says how far they
//! came. The names of files stand in `specs/FileNames.antt`; no two files of a run have the same. None of the calls
//! takes memory.
#![tactic(auto)]

mod cycle_lines;
mod due;
mod emission;
mod file_name;
mod filing;
mod laws;
mod report;

pub use due::Due;
pub use emission::emit;
pub use file_name::{fields_name, mesh_name, state_name};
pub use laws::{names_of_their_own, pieces_begin};
pub use report::{write_end_list, write_first_line, write_second_line, write_told_phase};
