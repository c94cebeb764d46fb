//! A phase in the hands of workers, from its cells to rest.
//!
//! `serve` opens a post of the cells, has each worker serve shards in a thread of its own until a verdict was seen, and
//! closes the post. On `Ok` it promises of the phase at rest what `drive` of phase_core promises: the same problem, its
//! invariant with nothing in flight, at least one message handled for each cell, and at most as many as the problem
//! tells. What it doesn't say is which order of delivery it was: `drive` handles first in first out, `serve` as it comes.
#![tactic(auto)]

mod serving;
mod working;

pub use serving::serve;
