//! The trait of those who make a run's cells.
ghost use Rattle.std.specs.Prelude.{◌≡◌, ℕ, ◌^◌, ◌≤◌, IfOk, Some, length, map, slice_get, sum};
ghost use Rattle.block_fields.specs.Blocks.{BlockState, amounts_of};
ghost use Rattle.block_fields.specs.BlockStates.{AreBlocksOf, state_before, state_of};
ghost use Rattle.adapt_core.specs.Problem as adapt;
ghost use Rattle.refresh_phase.specs.Cells.{problem_of, state_in};
ghost use Rattle.refresh_phase.specs.Problem.{RefreshBegins};
ghost use Rattle.grid_fluxes.specs.Fluxes.{Fluxes};
ghost use Rattle.flux_register.specs.Cells as flux;
ghost use Rattle.flux_register.specs.Made.{AreAdvancedBy, IsMadeBy};
ghost use Rattle.flux_register.specs.Problem.{FluxFixBegins};

use adapt_core::{Adapt, AdaptCell};
use advect::FaceFluxes;
use block_fields::Block;
use block_index::Wish;
use cello_num::Memory;
use flux_register::{FluxCell, FluxFix};
use leaf_set::LeafSet;
use refresh_phase::{Refresh, RefreshCell};
use std::alloc::Global;

/// Who makes the cells with which phases of a run begin: one thread or several, with one contract for both.
pub trait Maker {
    // What a maker must keep to be asked at all. One that is made of closures says here what these do.
    ghost ready: { Self → Type 0 };

    /// The refresh phase over the blocks of a leaf set, which are all of one size, and its cells in the order of the
    /// leaves, with the room of all pieces.
    fn begin_refresh(
        &self,
        alloc: Global,
        set: &LeafSet,
        blocks: Vec<Block>,
    ) -> Result<(Refresh, Vec<RefreshCell>), Memory>
        requires ready { ready self.now }
        requires blocks { (n : ℕ) × (fields : ℕ) × (depth : ℕ) × AreBlocksOf set.now.places n fields depth blocks.items }
        requires few { (i f : ℕ) (b : BlockState) → slice_get blocks.items i ≡ Some b → sum (amounts_of b f) ≤ 2 ^ 42 }
        ensures sizes { (n fields depth : ℕ) → AreBlocksOf set.now.places n fields depth blocks.items →
            IfOk result (λ r. r.0 ≡ record { grid = set.now.grid; edge = n; fields = fields; depth = depth }) }
        ensures state { (n fields depth : ℕ) → AreBlocksOf set.now.places n fields depth blocks.items →
            IfOk result (λ r. state_in (problem_of r.0 r.1.items) ≡ state_of set.now.grid n fields blocks.items) }
        ensures begins { IfOk result (λ r. RefreshBegins (problem_of r.0 r.1.items) r.1.items) };

    /// The adapt phase over a leaf set, with a wish for each leaf, and its cells in the order of the leaves.
    fn begin_adapt(
        &self,
        alloc: Global,
        set: &LeafSet,
        wishes: &[Wish],
    ) -> Result<(Adapt, Vec<AdaptCell>), Memory>
        requires ready { ready self.now }
        requires one_each { length wishes.now ≡ length set.now.places }
        ensures grid { IfOk result (λ r. (adapt.problem_of r.0 r.1.items).grid ≡ set.now.grid) }
        ensures places { IfOk result (λ r. adapt.mesh_of (adapt.problem_of r.0 r.1.items) ≡ set.now.places) }
        ensures wishes { IfOk result (λ r. adapt.wishes_of (adapt.problem_of r.0 r.1.items) ≡ wishes.now) }
        ensures begins { IfOk result (λ r. adapt.AdaptBegins (adapt.problem_of r.0 r.1.items) r.1.items) };

    /// The flux correction over the blocks of a leaf set, which are all of one size, and its cells in the order of the
    /// leaves, with the room of all pieces. The blocks and the fluxes of their faces are what an advance by each block's
    /// own fluxes made of them.
    fn begin_flux(
        &self,
        alloc: Global,
        set: &LeafSet,
        blocks: Vec<Block>,
        faces: Vec<FaceFluxes>,
    ) -> Result<(FluxFix, Vec<FluxCell>), Memory>
        requires ready { ready self.now }
        requires made { (n : ℕ) × (fields : ℕ) × (depth : ℕ) × (fluxes : Fluxes) × AreAdvancedBy set.now.grid set.now.places n fields depth blocks.items faces.items fluxes }
        ensures sizes { (n fields depth : ℕ) → AreBlocksOf set.now.places n fields depth blocks.items →
            IfOk result (λ r. r.0 ≡ record { grid = set.now.grid; edge = n; fields = fields }) }
        ensures state { (n fields depth : ℕ) → AreBlocksOf set.now.places n fields depth blocks.items →
            IfOk result (λ r. flux.state_in (flux.problem_of r.0 r.1.items) ≡ state_before set.now.grid n fields blocks.items) }
        ensures parts { IfOk result (λ r. map (λ k. k.before) (flux.problem_of r.0 r.1.items).parts ≡ map flux.unadvanced blocks.items) }
        ensures made { (n fields depth : ℕ) (fluxes : Fluxes) → AreAdvancedBy set.now.grid set.now.places n fields depth blocks.items faces.items fluxes →
            IfOk result (λ r. IsMadeBy (flux.problem_of r.0 r.1.items) fluxes) }
        ensures begins { IfOk result (λ r. FluxFixBegins (flux.problem_of r.0 r.1.items) r.1.items) };
}
