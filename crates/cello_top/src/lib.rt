//! The commands: words and the bytes of a source or of a past file in, the bytes of a report or of a text out.
//!
//! `solo` answers each list of words, each text and each checkpoint as `specs/Answers.antt` says, over any source, sink
//! and shelf, and names the cause of each refusal. `enter` does so by several workers where they are asked for, with the
//! same answer. `specs/Solo.antt` has what a call leaves behind, and `specs/Faults.antt` how it ends by each class of
//! faults. The run of parameters stands in `run_core`, who does its works in `crew`.
#![tactic(auto)]

mod by_workers;
mod commands;
mod demonstration;
mod engine;
mod entry;
mod fault;
mod fault_class;
mod fault_lines;
mod file_lines;
mod laws;
mod obeying;
mod one_thread;
mod opening;
mod outcome;
mod parameters;
mod quiet_run;
mod resumption;
mod summary;
mod word_forms;
mod words;
mod worker_words;
mod works;

pub use entry::enter;
pub use fault::Fault;
pub use fault_lines::write_fault;
pub use laws::{answer_exists, checkpoints_are_gone_on_from, every_cycle_balances, one_answer};
pub use one_thread::solo;
pub use outcome::Outcome;
