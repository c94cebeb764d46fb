//! Laws of runs that go on from a checkpoint: what a checkpoint keeps is a state that a file may keep, and its bytes read as
//! that state; a run that goes on from it ends where the whole run ends, and behind its first lines it writes exactly what
//! the whole run writes after the checkpoint. The definitions stand in `specs/`; there is no code beside the laws.
#![tactic(auto)]

mod laws;

pub use laws::{
    checkpoints_go_on, checkpoints_resume, earlier_ends_write_a_beginning, files_are_short,
    kept_states_read, resumed_runs_agree, resumed_runs_write_the_rest, written_checkpoints_resume,
};
