//! Phases: cells that handle messages, one envelope at a time, until none is in flight.
//! A phase says what handling does by `react`, over plain data, and proves that each handling keeps `holds` and
//! lowers `weight`. So every run ends, in any order of delivery; `drive` runs one thread, first in first out.
//! The machine over plain data stands in specs/Machine.antt, the laws of a phase in specs/PhaseLaws.antt, the
//! condition of `handle` in specs/Stands.antt. specs/Lemmas/ has what the laws of phases cite.
#![tactic(auto)]

mod delivery;
mod envelope;
mod flight;
mod laws;
mod outbox;
mod phase;
mod picked;
mod quiet;
#[cfg(test)]
mod ring;
#[cfg(test)]
mod tests;

pub use delivery::drive;
pub use envelope::Envelope;
pub use laws::{
    a_run_by_picks_is_a_run, every_envelope_is_handled, every_run_from_the_start_keeps,
    every_run_keeps, one_plain_run,
};
pub use outbox::Outbox;
pub use phase::Phase;
pub use picked::{Delivered, deliver};
pub use quiet::Quiet;
