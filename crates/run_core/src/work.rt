//! What a run gives out to be done.

use adapt_core::{Adapt, AdaptCell};
use block_fields::Block;
use flux_register::{FluxCell, FluxFix};
use refresh_phase::{Refresh, RefreshCell};

/// A work of a run.
#[derive(Drop)]
pub enum Work {
    /// A refresh phase over the blocks of the state and its cells, to be driven until it is at rest.
    Refresh(Refresh, Vec<RefreshCell>),
    /// The blocks of the state, with its samples around them: the wishes of their leaves are asked for.
    Wishes(Vec<Block>),
    /// An adapt phase and its cells, to be driven until it is at rest.
    Adapt(Adapt, Vec<AdaptCell>),
    /// The blocks of the state, with its samples around them: each is to be advanced by its own fluxes, which are noted.
    Advance(Vec<Block>),
    /// The flux correction over the advanced blocks and its cells, to be driven until it is at rest.
    Flux(FluxFix, Vec<FluxCell>),
    /// The state of a cycle, to be told.
    Emit(Emission),
    /// There is no more work.
    Ended,
}

/// What is to be told of a state: the lines of this cycle, and which files are due after it.
#[derive(Debug, Clone, Copy, PartialEq, Eq)]
pub struct Emission {
    pub cycle: u32,
    pub mesh: bool,
    pub fields: bool,
    pub checkpoint: bool,
}
