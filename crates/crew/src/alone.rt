//! A run on one thread.
use crate::trait_of_crews::Crew;
use adapt_core::{Adapt, AdaptCell};
use advect::FaceFluxes;
use block_fields::Block;
use block_index::Wish;
use cello_num::Memory;
use flux_register::{FluxCell, FluxFix};
use leaf_set::LeafSet;
use parallel_maps::{advance_blocks, block_wishes};
use params_check::{Criterion, Params};
use phase_core::{Quiet, drive};
use refresh_phase::{Refresh, RefreshCell};
use run_core::Maker;
use std::alloc::Global;

/// The crew of one thread: messages are delivered first in, first out, and blocks are taken one after another.
#[derive(Clone, Copy, Debug, PartialEq, Eq)]
pub struct Alone;

impl Maker for Alone {
    ghost ready = { λ _. Unit {0} };

    fn begin_refresh(
        &self,
        alloc: Global,
        set: &LeafSet,
        blocks: Vec<Block>,
    ) -> Result<(Refresh, Vec<RefreshCell>), Memory> {
        let begun = Refresh::begin(alloc, set, blocks)?;
        Ok(begun)
    }

    fn begin_adapt(
        &self,
        alloc: Global,
        set: &LeafSet,
        wishes: &[Wish],
    ) -> Result<(Adapt, Vec<AdaptCell>), Memory> {
        let begun = Adapt::begin(alloc, set, wishes)?;
        Ok(begun)
    }

    fn begin_flux(
        &self,
        alloc: Global,
        set: &LeafSet,
        blocks: Vec<Block>,
        faces: Vec<FaceFluxes>,
    ) -> Result<(FluxFix, Vec<FluxCell>), Memory> {
        let begun = FluxFix::begin(alloc, set, blocks, faces)?;
        Ok(begun)
    }
}

impl Crew for Alone {
    ghost use Rattle.crew.specs.Counts.{CountsPlainly};

    ghost counts = { CountsPlainly };

    fn refresh(
        &self,
        alloc: Global,
        phase: Refresh,
        cells: Vec<RefreshCell>,
    ) -> Result<Quiet<Refresh>, Memory> {
        drive(alloc, phase, cells)
    }

    fn adapt(
        &self,
        alloc: Global,
        phase: Adapt,
        cells: Vec<AdaptCell>,
    ) -> Result<Quiet<Adapt>, Memory> {
        drive(alloc, phase, cells)
    }

    fn correct(
        &self,
        alloc: Global,
        phase: FluxFix,
        cells: Vec<FluxCell>,
    ) -> Result<Quiet<FluxFix>, Memory> {
        drive(alloc, phase, cells)
    }

    fn wishes(
        &self,
        alloc: Global,
        criteria: &[Criterion],
        phase: u32,
        blocks: &[Block],
    ) -> Result<Vec<Wish>, Memory> {
        block_wishes(alloc, criteria, phase, blocks)
    }

    fn advance(
        &self,
        alloc: Global,
        params: &Params,
        blocks: &mut Vec<Block>,
    ) -> Result<Vec<FaceFluxes>, Memory> {
        advance_blocks(alloc, params, blocks)
    }
}
