//! A crew of several workers.
use crate::trait_of_crews::Crew;
use adapt_core::{Adapt, AdaptCell};
use advect::FaceFluxes;
use block_fields::Block;
use block_index::Wish;
use cello_num::Memory;
use flux_register::{FluxCell, FluxFix};
use leaf_set::LeafSet;
use params_check::{Criterion, Params};
use phase_core::Quiet;
use refresh_phase::{Refresh, RefreshCell};
use run_core::Maker;
use std::alloc::Global;

/// A crew of workers, whose calls are closures. So they can capture a handle that starts threads, and a gate: of those
/// that a struct holds, the prover doesn't know in an impl of a trait that threads may share them. `ready` says what each
/// closure asks and answers.
#[derive(Drop)]
pub struct Workers<A, B, C, D, E, F, G, H> {
    pub begin_refresh: F,
    pub begin_adapt: G,
    pub begin_flux: H,
    pub refresh: A,
    pub adapt: B,
    pub correct: C,
    pub wishes: D,
    pub advance: E,
}

impl<
    A: Fn(Global, Refresh, Vec<RefreshCell>) -> Result<Quiet<Refresh>, Memory>,
    B: Fn(Global, Adapt, Vec<AdaptCell>) -> Result<Quiet<Adapt>, Memory>,
    C: Fn(Global, FluxFix, Vec<FluxCell>) -> Result<Quiet<FluxFix>, Memory>,
    D: Fn(Global, &[Criterion], u32, &[Block]) -> Result<Vec<Wish>, Memory>,
    E: Fn(Global, &Params, &mut Vec<Block>) -> Result<Vec<FaceFluxes>, Memory>,
    F: Fn(Global, &LeafSet, Vec<Block>) -> Result<(Refresh, Vec<RefreshCell>), Memory>,
    G: Fn(Global, &LeafSet, &[Wish]) -> Result<(Adapt, Vec<AdaptCell>), Memory>,
    H: Fn(
        Global,
        &LeafSet,
        Vec<Block>,
        Vec<FaceFluxes>,
    ) -> Result<(FluxFix, Vec<FluxCell>), Memory>,
> Maker for Workers<A, B, C, D, E, F, G, H> {
    ghost use Rattle.std.specs.Prelude.{◌≡◌, ℕ, ◌^◌, ◌≤◌, All, IfOk, Some, length, map, slice_get, sum};
    ghost use Rattle.block_fields.specs.Blocks.{BlockState, amounts_of, seen_at};
    ghost use Rattle.block_fields.specs.BlockStates.{AreBlocksOf, state_before, state_of};
    ghost use Rattle.params_check.specs.Limits.{KeepsCriterion};
    ghost use Rattle.criteria.specs.Samples.{IsSmall};
    ghost use Rattle.criteria.specs.Wishes.{criteria_wish};
    ghost use Rattle.adapt_core.specs.Problem as adapt_problem;
    ghost use Rattle.refresh_phase.specs.Cells as refresh_cells;
    ghost use Rattle.refresh_phase.specs.Problem.{RefreshBegins};
    ghost use Rattle.flux_register.specs.Cells as flux_cells;
    ghost use Rattle.grid_fluxes.specs.Fluxes.{Fluxes};
    ghost use Rattle.flux_register.specs.Made.{AreAdvancedBy, AreUpwindAdvanced, IsMadeBy};
    ghost use Rattle.flux_register.specs.Problem.{FluxFixBegins};
    ghost use Rattle.parallel_maps.specs.Advances.{CanAdvance};
    ghost use Rattle.crew.specs.Counts.{CountsWithin};

    ghost ready = { λ w.
        ((a p c : _) → RefreshBegins (refresh_cells.problem_of p c.items) c.items → A.pre w.refresh a p c)
        × ((a p c r : _) → A.post w.refresh a p c r → IfOk r (λ quiet. quiet.problem ≡ refresh_cells.problem_of p c.items))
        × ((a p c : _) → adapt_problem.AdaptBegins (adapt_problem.problem_of p c.items) c.items → B.pre w.adapt a p c)
        × ((a p c r : _) → B.post w.adapt a p c r → IfOk r (λ quiet.
        (quiet.problem ≡ adapt_problem.problem_of p c.items) × CountsWithin (adapt_problem.problem_of p c.items) quiet.handled))
        × ((a p c : _) → FluxFixBegins (flux_cells.problem_of p c.items) c.items → C.pre w.correct a p c)
        × ((a p c r : _) → C.post w.correct a p c r → IfOk r (λ quiet. quiet.problem ≡ flux_cells.problem_of p c.items))
        × ((a k p bs : _) → ((i : ℕ) (b : BlockState) → slice_get bs.now i ≡ Some b → All (KeepsCriterion (length b.amounts)) k.now)
        → ((i : ℕ) (b : BlockState) → slice_get bs.now i ≡ Some b → IsSmall b) → D.pre w.wishes a k p bs)
        × ((a k p bs r : _) → D.post w.wishes a k p bs r → IfOk r (λ wishes.
        wishes.items ≡ map (λ b. criteria_wish b.edge p k.now (seen_at b) b.place) bs.now))
        × ((a q bs : _) → ((i : ℕ) (b : BlockState) → slice_get bs.now.items i ≡ Some b → CanAdvance q.now b) → E.pre w.advance a q bs)
        × ((a q bs r after : _) → E.post w.advance a q bs r after → IfOk r (λ faces.
        AreUpwindAdvanced q.now bs.now.items after.now.items faces.items))
        × ((a s bs : _) → ((n : ℕ) × (fields : ℕ) × (depth : ℕ) × AreBlocksOf s.now.places n fields depth bs.items)
        → ((i f : ℕ) (b : BlockState) → slice_get bs.items i ≡ Some b → sum (amounts_of b f) ≤ 2 ^ 42) → F.pre w.begin_refresh a s bs)
        × ((a s bs r : _) → F.post w.begin_refresh a s bs r → (n fields depth : ℕ) → AreBlocksOf s.now.places n fields depth bs.items →
        IfOk r (λ r. r.0 ≡ record { grid = s.now.grid; edge = n; fields = fields; depth = depth }))
        × ((a s bs r : _) → F.post w.begin_refresh a s bs r → (n fields depth : ℕ) → AreBlocksOf s.now.places n fields depth bs.items →
        IfOk r (λ r. refresh_cells.state_in (refresh_cells.problem_of r.0 r.1.items) ≡ state_of s.now.grid n fields bs.items))
        × ((a s bs r : _) → F.post w.begin_refresh a s bs r → IfOk r (λ r. RefreshBegins (refresh_cells.problem_of r.0 r.1.items) r.1.items))
        × ((a s ws : _) → length ws.now ≡ length s.now.places → G.pre w.begin_adapt a s ws)
        × ((a s ws r : _) → G.post w.begin_adapt a s ws r → IfOk r (λ r. ((adapt_problem.problem_of r.0 r.1.items).grid ≡ s.now.grid)
        × (adapt_problem.mesh_of (adapt_problem.problem_of r.0 r.1.items) ≡ s.now.places)
        × (adapt_problem.wishes_of (adapt_problem.problem_of r.0 r.1.items) ≡ ws.now)
        × adapt_problem.AdaptBegins (adapt_problem.problem_of r.0 r.1.items) r.1.items))
        × ((a s bs fs : _) → ((n : ℕ) × (fields : ℕ) × (depth : ℕ) × (fluxes : Fluxes) × AreAdvancedBy s.now.grid s.now.places n fields depth bs.items fs.items fluxes)
        → H.pre w.begin_flux a s bs fs)
        × ((a s bs fs r : _) → H.post w.begin_flux a s bs fs r → (n fields depth : ℕ) → AreBlocksOf s.now.places n fields depth bs.items →
        IfOk r (λ r. r.0 ≡ record { grid = s.now.grid; edge = n; fields = fields }))
        × ((a s bs fs r : _) → H.post w.begin_flux a s bs fs r → (n fields depth : ℕ) → AreBlocksOf s.now.places n fields depth bs.items →
        IfOk r (λ r. flux_cells.state_in (flux_cells.problem_of r.0 r.1.items) ≡ state_before s.now.grid n fields bs.items))
        × ((a s bs fs r : _) → H.post w.begin_flux a s bs fs r → IfOk r (λ r.
        map (λ k. k.before) (flux_cells.problem_of r.0 r.1.items).parts ≡ map flux_cells.unadvanced bs.items))
        × ((a s bs fs r : _) → H.post w.begin_flux a s bs fs r → (n fields depth : ℕ) (fluxes : Fluxes)
        → AreAdvancedBy s.now.grid s.now.places n fields depth bs.items fs.items fluxes → IfOk r (λ r. IsMadeBy (flux_cells.problem_of r.0 r.1.items) fluxes))
        × ((a s bs fs r : _) → H.post w.begin_flux a s bs fs r → IfOk r (λ r. FluxFixBegins (flux_cells.problem_of r.0 r.1.items) r.1.items)) };

    fn begin_refresh(
        &self,
        alloc: Global,
        set: &LeafSet,
        blocks: Vec<Block>,
    ) -> Result<(Refresh, Vec<RefreshCell>), Memory> {
        (self.begin_refresh)(alloc, set, blocks)
    }

    fn begin_adapt(
        &self,
        alloc: Global,
        set: &LeafSet,
        wishes: &[Wish],
    ) -> Result<(Adapt, Vec<AdaptCell>), Memory> {
        let begun = (self.begin_adapt)(alloc, set, wishes)?;
        Ok(begun)
    }

    fn begin_flux(
        &self,
        alloc: Global,
        set: &LeafSet,
        blocks: Vec<Block>,
        faces: Vec<FaceFluxes>,
    ) -> Result<(FluxFix, Vec<FluxCell>), Memory> {
        (self.begin_flux)(alloc, set, blocks, faces)
    }
}

impl<
    A: Fn(Global, Refresh, Vec<RefreshCell>) -> Result<Quiet<Refresh>, Memory>,
    B: Fn(Global, Adapt, Vec<AdaptCell>) -> Result<Quiet<Adapt>, Memory>,
    C: Fn(Global, FluxFix, Vec<FluxCell>) -> Result<Quiet<FluxFix>, Memory>,
    D: Fn(Global, &[Criterion], u32, &[Block]) -> Result<Vec<Wish>, Memory>,
    E: Fn(Global, &Params, &mut Vec<Block>) -> Result<Vec<FaceFluxes>, Memory>,
    F: Fn(Global, &LeafSet, Vec<Block>) -> Result<(Refresh, Vec<RefreshCell>), Memory>,
    G: Fn(Global, &LeafSet, &[Wish]) -> Result<(Adapt, Vec<AdaptCell>), Memory>,
    H: Fn(
        Global,
        &LeafSet,
        Vec<Block>,
        Vec<FaceFluxes>,
    ) -> Result<(FluxFix, Vec<FluxCell>), Memory>,
> Crew for Workers<A, B, C, D, E, F, G, H> {
    ghost use Rattle.crew.specs.Counts.{CountsWithin};

    ghost counts = { CountsWithin };

    fn refresh(
        &self,
        alloc: Global,
        phase: Refresh,
        cells: Vec<RefreshCell>,
    ) -> Result<Quiet<Refresh>, Memory> {
        (self.refresh)(alloc, phase, cells)
    }

    fn adapt(
        &self,
        alloc: Global,
        phase: Adapt,
        cells: Vec<AdaptCell>,
    ) -> Result<Quiet<Adapt>, Memory> {
        let quiet = (self.adapt)(alloc, phase, cells)?;
        Ok(quiet)
    }

    fn correct(
        &self,
        alloc: Global,
        phase: FluxFix,
        cells: Vec<FluxCell>,
    ) -> Result<Quiet<FluxFix>, Memory> {
        (self.correct)(alloc, phase, cells)
    }

    fn wishes(
        &self,
        alloc: Global,
        criteria: &[Criterion],
        phase: u32,
        blocks: &[Block],
    ) -> Result<Vec<Wish>, Memory> {
        (self.wishes)(alloc, criteria, phase, blocks)
    }

    fn advance(
        &self,
        alloc: Global,
        params: &Params,
        blocks: &mut Vec<Block>,
    ) -> Result<Vec<FaceFluxes>, Memory> {
        (self.advance)(alloc, params, blocks)
    }
}
