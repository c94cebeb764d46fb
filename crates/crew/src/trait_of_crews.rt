//! The trait of crews.
ghost use Rattle.std.specs.Prelude.{◌≡◌, ℕ, All, IfOk, Some, length, map, slice_get};
ghost use Rattle.block_fields.specs.Blocks.{BlockState, seen_at};
ghost use Rattle.params_check.specs.Limits.{KeepsCriterion};
ghost use Rattle.criteria.specs.Samples.{IsSmall};
ghost use Rattle.criteria.specs.Wishes.{criteria_wish};
ghost use Rattle.adapt_core.specs.Cells.{AdaptProblem};
ghost use Rattle.adapt_core.specs.Problem as adapt;
ghost use Rattle.refresh_phase.specs.Cells as refresh_cells;
ghost use Rattle.refresh_phase.specs.Problem.{RefreshBegins};
ghost use Rattle.flux_register.specs.Cells as flux_cells;
ghost use Rattle.flux_register.specs.Made.{AreUpwindAdvanced};
ghost use Rattle.flux_register.specs.Problem.{FluxFixBegins};
ghost use Rattle.parallel_maps.specs.Advances.{CanAdvance};

use adapt_core::{Adapt, AdaptCell};
use advect::FaceFluxes;
use block_fields::Block;
use block_index::Wish;
use cello_num::Memory;
use flux_register::{FluxCell, FluxFix};
use params_check::{Criterion, Params};
use phase_core::Quiet;
use refresh_phase::{Refresh, RefreshCell};
use run_core::Maker;
use std::alloc::Global;

/// Who does the works of a run, and makes the cells of its refresh phases. Each call answers want of memory, or what its
/// clauses say.
pub trait Crew: Maker {
    // What is known of how many messages an adapt phase handled.
    ghost counts: { AdaptProblem → ℕ → Type 0 };

    /// Brings a refresh phase to its rest.
    fn refresh(
        &self,
        alloc: Global,
        phase: Refresh,
        cells: Vec<RefreshCell>,
    ) -> Result<Quiet<Refresh>, Memory>
        requires ready { Self.ready self.now }
        requires begins { RefreshBegins (refresh_cells.problem_of phase cells.items) cells.items }
        ensures problem { IfOk result (λ quiet. quiet.problem ≡ refresh_cells.problem_of phase cells.items) };

    /// Brings an adapt phase to its rest.
    fn adapt(
        &self,
        alloc: Global,
        phase: Adapt,
        cells: Vec<AdaptCell>,
    ) -> Result<Quiet<Adapt>, Memory>
        requires ready { Self.ready self.now }
        requires begins { adapt.AdaptBegins (adapt.problem_of phase cells.items) cells.items }
        ensures problem { IfOk result (λ quiet. quiet.problem ≡ adapt.problem_of phase cells.items) }
        ensures counts { IfOk result (λ quiet. counts (adapt.problem_of phase cells.items) quiet.handled) };

    /// Brings a flux correction to its rest.
    fn correct(
        &self,
        alloc: Global,
        phase: FluxFix,
        cells: Vec<FluxCell>,
    ) -> Result<Quiet<FluxFix>, Memory>
        requires ready { Self.ready self.now }
        requires begins { FluxFixBegins (flux_cells.problem_of phase cells.items) cells.items }
        ensures problem { IfOk result (λ quiet. quiet.problem ≡ flux_cells.problem_of phase cells.items) };

    /// The wish of each block in a phase, in order, from its amounts and its ghosts.
    fn wishes(
        &self,
        alloc: Global,
        criteria: &[Criterion],
        phase: u32,
        blocks: &[Block],
    ) -> Result<Vec<Wish>, Memory>
        requires ready { Self.ready self.now }
        requires limits { (i : ℕ) (b : BlockState) → slice_get blocks.now i ≡ Some b → All (KeepsCriterion (length b.amounts)) criteria.now }
        requires small { (i : ℕ) (b : BlockState) → slice_get blocks.now i ≡ Some b → IsSmall b }
        ensures wishes { IfOk result (λ wishes. wishes.items ≡ map (λ b. criteria_wish b.edge phase criteria.now (seen_at b) b.place) blocks.now) };

    /// Advances each block by its own fluxes, in place, and answers the fluxes of their outermost faces, in order.
    /// Where memory is refused the blocks may be gone.
    fn advance(
        &self,
        alloc: Global,
        params: &Params,
        blocks: &mut Vec<Block>,
    ) -> Result<Vec<FaceFluxes>, Memory>
        requires ready { Self.ready self.now }
        requires can { (i : ℕ) (b : BlockState) → slice_get blocks.old.items i ≡ Some b → CanAdvance params.now b }
        ensures advanced { IfOk result (λ faces. AreUpwindAdvanced params.now blocks.old.items blocks.new.items faces.items) };
}
