//! A crew of workers, as a run makes it, over no blocks.
ghost use Rattle.std.specs.Prelude.{◌≡◌, ◌^◌, ◌≤◌, ℕ, [], All, IfOk, Some, length, map, slice_get, sum};
ghost use Rattle.block_fields.specs.Blocks.{BlockState, amounts_of, seen_at};
ghost use Rattle.block_fields.specs.BlockStates.{AreBlocksOf, state_before, state_of};
ghost use Rattle.params_check.specs.Limits.{KeepsCriterion};
ghost use Rattle.criteria.specs.Samples.{IsSmall};
ghost use Rattle.criteria.specs.Wishes.{criteria_wish};
ghost use Rattle.adapt_core.specs.Problem as adapt_problem;
ghost use Rattle.refresh_phase.specs.Cells as refresh_cells;
ghost use Rattle.refresh_phase.specs.Problem.{RefreshBegins};
ghost use Rattle.flux_register.specs.Cells as flux_cells;
ghost use Rattle.grid_fluxes.specs.Fluxes.{Fluxes};
ghost use Rattle.flux_register.specs.Made.{AreAdvancedBy, AreUpwindAdvanced, IsMadeBy};
ghost use Rattle.flux_register.specs.Problem.{FluxFixBegins};
ghost use Rattle.parallel_maps.specs.Advances.{CanAdvance};
ghost use Rattle.crew.specs.Counts.{CountsWithin};

use crate::resting::{adapt_to_rest, bring_to_rest};
use crate::trait_of_crews::Crew;
use crate::workers::Workers;
use adapt_core::{Adapt, AdaptCell};
use advect::FaceFluxes;
use block_fields::Block;
use block_index::Wish;
use cello_io::{Gate, OpenGate};
use cello_num::Memory;
use flux_register::{FluxCell, FluxFix};
use leaf_set::LeafSet;
use parallel_maps::{advances, wishes};
use params_check::{Criterion, Params};
use phase_core::Quiet;
use refresh_phase::{Refresh, RefreshCell};
use std::alloc::Global;
use std::sync::Wait;
use std::test::Fail;
use std::thread::Threads;

// Asks a crew for the wishes of no blocks.
fn wishes_of_none<C: Crew>(crew: &C, alloc: Global) -> Result<Vec<Wish>, Memory>
    requires ready { C.ready crew.now }
    ensures none { IfOk result (λ wishes. wishes.items ≡ []) }
{
    crew.wishes(alloc, &[], 1, &[])
}

// Makes a crew of workers, and asks it.
fn by_workers<R: Threads + Wait + Sync, G: Gate + Sync>(
    rt: &R,
    gate: &G,
    workers: u32,
    alloc: Global,
) -> Result<Vec<Wish>, Memory>
    requires workers { (1 ≤ workers) × (workers ≤ 16) }
    ensures none { IfOk result (λ wishes. wishes.items ≡ []) }
{
    let crew = Workers {
        begin_refresh: |alloc: Global, set: &LeafSet, blocks: Vec<Block>| -> Result<
            (Refresh, Vec<RefreshCell>),
            Memory,
        >
            requires workers { (1 ≤ workers) × (workers ≤ 16) }
            requires blocks { (n : ℕ) × (fields : ℕ) × (depth : ℕ) × AreBlocksOf set.now.places n fields depth blocks.items }
            requires few { (i f : ℕ) (b : BlockState) → slice_get blocks.items i ≡ Some b → sum (amounts_of b f) ≤ 2 ^ 42 }
            ensures sizes { (n fields depth : ℕ) → AreBlocksOf set.now.places n fields depth blocks.items →
                IfOk result (λ r. r.0 ≡ record { grid = set.now.grid; edge = n; fields = fields; depth = depth }) }
            ensures state { (n fields depth : ℕ) → AreBlocksOf set.now.places n fields depth blocks.items →
                IfOk result (λ r. refresh_cells.state_in (refresh_cells.problem_of r.0 r.1.items) ≡ state_of set.now.grid n fields blocks.items) }
            ensures begins { IfOk result (λ r. RefreshBegins (refresh_cells.problem_of r.0 r.1.items) r.1.items) }
        { Refresh::begin_in_threads(rt, alloc, workers, set, blocks) },
        begin_adapt: |alloc: Global, set: &LeafSet, wishes: &[Wish]| -> Result<
            (Adapt, Vec<AdaptCell>),
            Memory,
        >
            requires workers { (1 ≤ workers) × (workers ≤ 16) }
            requires one_each { length wishes.now ≡ length set.now.places }
            ensures grid { IfOk result (λ r. (adapt_problem.problem_of r.0 r.1.items).grid ≡ set.now.grid) }
            ensures places { IfOk result (λ r. adapt_problem.mesh_of (adapt_problem.problem_of r.0 r.1.items) ≡ set.now.places) }
            ensures wishes { IfOk result (λ r. adapt_problem.wishes_of (adapt_problem.problem_of r.0 r.1.items) ≡ wishes.now) }
            ensures begins { IfOk result (λ r. adapt_problem.AdaptBegins (adapt_problem.problem_of r.0 r.1.items) r.1.items) }
        { Adapt::begin_in_threads(rt, alloc, workers, set, wishes) },
        begin_flux: |alloc: Global, set: &LeafSet, blocks: Vec<Block>, faces: Vec<
            FaceFluxes,
        >| -> Result<(FluxFix, Vec<FluxCell>), Memory>
            requires workers { (1 ≤ workers) × (workers ≤ 16) }
            requires made { (n : ℕ) × (fields : ℕ) × (depth : ℕ) × (fluxes : Fluxes) × AreAdvancedBy set.now.grid set.now.places n fields depth blocks.items faces.items fluxes }
            ensures sizes { (n fields depth : ℕ) → AreBlocksOf set.now.places n fields depth blocks.items →
                IfOk result (λ r. r.0 ≡ record { grid = set.now.grid; edge = n; fields = fields }) }
            ensures state { (n fields depth : ℕ) → AreBlocksOf set.now.places n fields depth blocks.items →
                IfOk result (λ r. flux_cells.state_in (flux_cells.problem_of r.0 r.1.items) ≡ state_before set.now.grid n fields blocks.items) }
            ensures parts { IfOk result (λ r. map (λ k. k.before) (flux_cells.problem_of r.0 r.1.items).parts ≡ map flux_cells.unadvanced blocks.items) }
            ensures made { (n fields depth : ℕ) (fluxes : Fluxes) → AreAdvancedBy set.now.grid set.now.places n fields depth blocks.items faces.items fluxes →
                IfOk result (λ r. IsMadeBy (flux_cells.problem_of r.0 r.1.items) fluxes) }
            ensures begins { IfOk result (λ r. FluxFixBegins (flux_cells.problem_of r.0 r.1.items) r.1.items) }
        { FluxFix::begin_in_threads(rt, alloc, workers, set, blocks, faces) },
        refresh: |alloc: Global, phase: Refresh, cells: Vec<RefreshCell>| -> Result<
            Quiet<Refresh>,
            Memory,
        >
            requires workers { (1 ≤ workers) × (workers ≤ 16) }
            requires begins { RefreshBegins (refresh_cells.problem_of phase cells.items) cells.items }
            ensures problem { IfOk result (λ quiet. quiet.problem ≡ refresh_cells.problem_of phase cells.items) }
        { bring_to_rest(rt, alloc, phase, cells, workers, gate) },
        adapt: |alloc: Global, phase: Adapt, cells: Vec<AdaptCell>| -> Result<Quiet<Adapt>, Memory>
            requires workers { (1 ≤ workers) × (workers ≤ 16) }
            requires begins { adapt_problem.AdaptBegins (adapt_problem.problem_of phase cells.items) cells.items }
            ensures problem { IfOk result (λ quiet. quiet.problem ≡ adapt_problem.problem_of phase cells.items) }
            ensures counts { IfOk result (λ quiet. CountsWithin (adapt_problem.problem_of phase cells.items) quiet.handled) }
        { adapt_to_rest(rt, alloc, phase, cells, workers, gate) },
        correct: |alloc: Global, phase: FluxFix, cells: Vec<FluxCell>| -> Result<
            Quiet<FluxFix>,
            Memory,
        >
            requires workers { (1 ≤ workers) × (workers ≤ 16) }
            requires begins { FluxFixBegins (flux_cells.problem_of phase cells.items) cells.items }
            ensures problem { IfOk result (λ quiet. quiet.problem ≡ flux_cells.problem_of phase cells.items) }
        { bring_to_rest(rt, alloc, phase, cells, workers, gate) },
        wishes: |alloc: Global, criteria: &[Criterion], phase: u32, blocks: &[Block]| -> Result<
            Vec<Wish>,
            Memory,
        >
            requires workers { (1 ≤ workers) × (workers ≤ 16) }
            requires limits { (i : ℕ) (b : BlockState) → slice_get blocks.now i ≡ Some b → All (KeepsCriterion (length b.amounts)) criteria.now }
            requires small { (i : ℕ) (b : BlockState) → slice_get blocks.now i ≡ Some b → IsSmall b }
            ensures wishes { IfOk result (λ wishes. wishes.items ≡ map (λ b. criteria_wish b.edge phase criteria.now (seen_at b) b.place) blocks.now) }
        { wishes(rt, alloc, workers, criteria, phase, blocks) },
        advance: |alloc: Global, params: &Params, blocks: &mut Vec<Block>| -> Result<
            Vec<FaceFluxes>,
            Memory,
        >
            requires workers { (1 ≤ workers) × (workers ≤ 16) }
            requires can { (i : ℕ) (b : BlockState) → slice_get blocks.old.items i ≡ Some b → CanAdvance params.now b }
            ensures advanced { IfOk result (λ faces. AreUpwindAdvanced params.now blocks.old.items blocks.new.items faces.items) }
        { advances(rt, alloc, workers, params, blocks) },
    };
    wishes_of_none(&crew, alloc)
}

#[test]
fn nothing_is_wished(rt: HostRuntime) -> Result<(), Fail> {
    let wishes = by_workers(&rt, &OpenGate, 3, rt.alloc())?;
    assert!(rt; wishes.is_empty());
    Ok(())
}
