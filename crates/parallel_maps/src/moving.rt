//! The advance of blocks by their own fluxes, in several threads.
ghost use Rattle.std.specs.Prelude.{◌≡◌, ℕ, ◌≤◌, [], IfOk, Some, length, map, slice_get};
ghost use Rattle.block_fields.specs.Blocks.{BlockState};
ghost use Rattle.flux_register.specs.Made.{AreUpwindAdvanced};
ghost use Rattle.parallel_maps.specs.Advances.{CanAdvance, WasAdvanced};

use crate::advancing::advance_block;
use advect::FaceFluxes;
use block_fields::Block;
use cello_num::Memory;
use params_check::Params;
use std::alloc::Global;
use std::thread::Threads;
use std::{mem, thread};
use thread_runs::try_for_each_mut;

/// A block, and the fluxes of its outermost faces once it is advanced.
#[derive(Drop)]
struct Moving {
    block: Block,
    faces: Option<FaceFluxes>,
}

/// Advances each block by its own fluxes, as `advance_blocks` does, in at most as many threads as there are workers.
/// Each thread has a run of blocks that follow one another. Where memory is refused the blocks may be gone.
pub fn advances<R: Threads + Sync>(
    rt: &R,
    alloc: Global,
    workers: u32,
    params: &Params,
    blocks: &mut Vec<Block>,
) -> Result<Vec<FaceFluxes>, Memory>
    requires workers { (1 ≤ workers) × (workers ≤ 16) }
    requires can { (i : ℕ) (b : BlockState) → slice_get blocks.old.items i ≡ Some b → CanAdvance params.now b }
    ensures advanced { IfOk result (λ faces. AreUpwindAdvanced params.now blocks.old.items blocks.new.items faces.items) }
{
    let bare = Vec::with_capacity(alloc, blocks.len())?;
    let still = mem::replace(blocks, bare);
    let mut moving = all_still(alloc, still)?;
    advance_each(rt, alloc, workers, params, moving.as_mut_slice())?;
    let faces = take_apart(alloc, moving, blocks)?;
    Ok(faces)
}

/// The blocks before they are advanced.
fn all_still(alloc: Global, blocks: Vec<Block>) -> Result<Vec<Moving>, Memory>
    ensures blocks { IfOk result (λ moving. map (λ m. m.block) moving.items ≡ blocks.items) }
{
    let mut moving = Vec::with_capacity(alloc, blocks.len())?;
    for block in blocks {
        moving.push(Moving { block, faces: None })?;
    }
    Ok(moving)
}

/// Advances all of them, each in its place.
fn advance_each<R: Threads + Sync>(
    rt: &R,
    alloc: Global,
    workers: u32,
    params: &Params,
    moving: &mut [Moving],
) -> Result<(), Memory>
    requires workers { 1 ≤ workers }
    requires can { (i : ℕ) (m : _) → slice_get moving.old i ≡ Some m → CanAdvance params.now m.block }
    ensures one_each { length moving.new ≡ length moving.old }
    ensures each { IfOk result (λ _. (i : ℕ) (m n : _) → slice_get moving.old i ≡ Some m → slice_get moving.new i ≡ Some n → WasAdvanced params.now m.block n.block n.faces) }
{
    try_for_each_mut(
        rt,
        moving,
        workers as usize,
        &|_at: usize, one: &mut Moving| -> Result<(), Memory>
            requires can { CanAdvance params.now one.old.block }
            ensures advanced { IfOk result (λ _. WasAdvanced params.entry.now one.old.block one.new.block one.new.faces) }
        {
            one.faces = Some(advance_block(alloc, params, &mut one.block)?);
            Ok(())
        },
    )
}

/// Puts the blocks back, in order, and answers their fluxes.
fn take_apart(
    alloc: Global,
    moving: Vec<Moving>,
    blocks: &mut Vec<Block>,
) -> Result<Vec<FaceFluxes>, Memory>
    requires bare { blocks.old.items ≡ [] }
    ensures blocks { IfOk result (λ _. blocks.new.items ≡ map (λ m. m.block) moving.items) }
    ensures faces { IfOk result (λ faces. map Some faces.items ≡ map (λ m. m.faces) moving.items) }
{
    let mut all = Vec::with_capacity(alloc, moving.len())?;
    for one in moving {
        let Moving { block, faces } = one;
        let Some(faces) = faces else {
            return Err(Memory);
        };
        blocks.push(block)?;
        all.push(faces)?;
    }
    Ok(all)
}
