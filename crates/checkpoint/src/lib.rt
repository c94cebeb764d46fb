//! The checkpoint: a state of a run as bytes.
//!
//! `write` appends exactly the one spelling of a state, in pages of tens of kilobytes, and takes no memory; after
//! `Failed` a part of it was written.
//! `read` answers exactly the state that bytes spell, or their first fault.
//! A file is one part after another. The list of the parts stands in `specs/Parts.antt`, what a checkpoint keeps of a
//! run in `specs/SavedStates.antt`, its bytes in `specs/Spelling.antt`, and what bytes stand for in `specs/Reading.antt`.
#![tactic(auto)]

mod blocks;
mod fault;
mod front;
mod laws;
mod part;
mod reading;
mod rest;
mod state;
mod sums;
mod text;
mod view;
mod words;
mod writing;

pub use fault::CheckFault;
pub use laws::{each_file_reads, one_reading, one_state, written_states_read};
pub use part::Part;
pub use reading::read;
pub use state::State;
pub use view::StateView;
pub use writing::write;
