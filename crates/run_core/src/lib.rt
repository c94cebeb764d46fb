//! The run of parameters as a sequence of works: its adapt phases and its cycles, one after another, and what is told
//! of its states.
//!
//! A `Run` gives out one work after another and goes on with what comes back. Its state is always that of the run that
//! `specs/Runs.antt` defines; `specs/Courses.antt` says where a run begins and ends and what is told of it,
//! `specs/Works.antt` what each work is, and `specs/Steps.antt` which one comes next. The laws say that a course has
//! one run and one count of messages, that each mesh of a run is balanced, and that what is there and what is gone
//! stay the initial totals.
#![tactic(auto)]

mod fault;
mod flux;
mod giving;
mod laws;
mod maker;
mod phase;
mod phase_laws;
mod readers;
mod refresh;
mod room;
mod run;
mod step;
mod taking;
mod totals;
mod work;

pub use fault::RunFault;
pub use laws::{one_count, one_run, run_exists, what_is_told_stays, whole_runs};
pub use maker::Maker;
pub use phase_laws::{every_phase_keeps_a_mesh, totals_stay};
pub use run::{Run, Start, Whole};
pub use step::{Stage, Step};
pub use work::{Emission, Work};
