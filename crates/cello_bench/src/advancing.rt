//! Advancing blocks by their own fluxes. `rustc -O` builds the yardstick that stands beside the papers.
ghost use Rattle.std.specs.Prelude.{◌≡◌, ◌^◌, true, length};
ghost use Rattle.block_index.specs.Places.{IsInside};
ghost use Rattle.advect.specs.OwnFluxes.{HoldsAtMost};
ghost use Rattle.cello_bench.specs.Inputs.{AllSmall};

use crate::fault::Fault;
use crate::inputs::flowing;
use crate::small_blocks::small_ones;
use crate::stopwatch::{Best, RUNS};
use advect::{FaceFluxes, advance};
use block_fields::Block;
use block_index::inside;
use cello_num::Memory;
use initial_fill::fill;
use params_check::Params;
use std::alloc::Global;
use std::time::{Duration, Instant};

/// Whether the fluxes were made for a block of this size.
fn are_for(faces: &FaceFluxes, block: &Block) -> bool
    ensures edge { result ≡ true → faces.now.edge ≡ block.now.edge }
    ensures fields { result ≡ true → faces.now.fields ≡ length block.now.amounts }
{
    faces.edge() == block.edge() && faces.fields() == block.fields()
}

/// Whether a block lies in the domain of the parameters.
fn is_inside(params: &Params, block: &Block) -> bool
    ensures inside { result ≡ true → IsInside params.now.grid block.now.place }
{
    inside(block.place(), params.domain())
}

/// Advances a block, where it is one of the parameters' mesh.
fn advance_one(block: &mut Block, params: &Params, faces: &mut FaceFluxes)
    requires small { HoldsAtMost (2 ^ 42) block.old }
{
    if !is_inside(params, block) {
        return;
    }
    if are_for(faces, block) {
        advance(block, params, faces);
    }
}

/// Advances blocks, one after another.
fn advance_all(
    alloc: Global,
    blocks: Vec<Block>,
    params: &Params,
    faces: &mut FaceFluxes,
) -> Result<Vec<Block>, Memory>
    requires small { AllSmall blocks.items }
{
    let mut done = Vec::with_capacity(alloc, blocks.len())?;
    for block in blocks {
        let block = advanced(block, params, faces);
        done.push(block)?;
    }
    Ok(done)
}

/// Advances a block.
fn advanced(mut block: Block, params: &Params, faces: &mut FaceFluxes) -> Block
    requires small { HoldsAtMost (2 ^ 42) block }
{
    advance_one(&mut block, params, faces);
    block
}

/// Room for the fluxes of the blocks of the parameters.
fn faces_for(alloc: Global, params: &Params) -> Result<FaceFluxes, Memory> {
    FaceFluxes::new(alloc, params.block(), 1)
}

/// How long all root blocks take.
fn time_advance(rt: &HostRuntime, params: &Params) -> Result<Duration, Fault> {
    let mut faces = faces_for(rt.alloc(), params)?;
    let blocks = small_ones(rt.alloc(), fill(rt.alloc(), params)?)?;
    let start = Instant::now(rt)?;
    let done = advance_all(rt.alloc(), blocks, params, &mut faces)?;
    let took = start.elapsed(rt)?;
    drop(done);
    Ok(took)
}

/// Measures `advance` for a cube of trees with one field, where amounts move along all axes or along x alone.
pub fn bench_advance(rt: &HostRuntime, all: bool, trees: u64, block: u64) -> Result<(), Fault> {
    let params = flowing(rt.alloc(), trees, block, all)?;
    let mut best = Best::new();
    for _ in 0..RUNS {
        best.note(time_advance(rt, &params)?);
    }
    let edge = trees.saturating_mul(block);
    let cells = edge.saturating_mul(edge).saturating_mul(edge);
    best.tell(rt, "advance", cells, "cells")
}
