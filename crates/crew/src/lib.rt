//! Who does the works of a run: one thread, or several workers, with one contract for both.
//!
//! A `Crew` brings a phase to its rest, answers the wishes of blocks, and advances blocks. `Alone` does all of it on the
//! thread that asks. `Workers` are made of closures, one for each call: of `bring_to_rest` and `adapt_to_rest`, which take a
//! phase over a post, and of the wishes and advances of parallel_maps. src/tests.rt shows how one is made. What either
//! answers is the same, but for how many messages an adapt phase handled: `specs/Counts.antt` says what each knows of that.
#![tactic(auto)]

mod alone;
mod owners;
mod resting;
mod trait_of_crews;
mod workers;

pub use alone::Alone;
pub use resting::{adapt_to_rest, bring_to_rest};
pub use trait_of_crews::Crew;
pub use workers::Workers;

#[cfg(test)]
mod tests;
