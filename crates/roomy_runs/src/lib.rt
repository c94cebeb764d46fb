//! Laws of runs with room: where the parameters aren't strict, and there may be as many blocks as the domain has places of
//! the finest level, no phase passes a limit, so the run ends after its last phase. Each run of the demonstration is one
//! of these. What the demonstration writes of its run stands in `specs/Summaries.antt`: each has one summary. There is
//! no code beside the laws.
#![tactic(auto)]

mod laws;

pub use laws::{demo_runs_meet_no_limit, each_demo_has_a_summary, roomy_runs_meet_no_limit};
