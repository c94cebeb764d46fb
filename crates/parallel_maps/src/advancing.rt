//! The advance of blocks by their own fluxes, one after another.
ghost use Rattle.std.specs.Prelude.{◌≡◌, ℕ, IfOk, Some, slice_get};
ghost use Rattle.block_fields.specs.Blocks.{BlockState};
ghost use Rattle.flux_register.specs.Made.{AreUpwindAdvanced};
ghost use Rattle.parallel_maps.specs.Advances.{CanAdvance, IsAdvanced};

use advect::{FaceFluxes, advance};
use block_fields::Block;
use cello_num::Memory;
use params_check::Params;
use std::alloc::Global;

/// Advances each block by its own fluxes, in place, and answers the fluxes of their outermost faces, in order.
pub fn advance_blocks(
    alloc: Global,
    params: &Params,
    blocks: &mut Vec<Block>,
) -> Result<Vec<FaceFluxes>, Memory>
    requires can { (i : ℕ) (b : BlockState) → slice_get blocks.old.items i ≡ Some b → CanAdvance params.now b }
    ensures advanced { IfOk result (λ faces. AreUpwindAdvanced params.now blocks.old.items blocks.new.items faces.items) }
{
    let mut all = Vec::with_capacity(alloc, blocks.len())?;
    for at in 0..blocks.len() {
        let faces = advance_block(alloc, params, &mut blocks[at])?;
        all.push(faces)?;
    }
    Ok(all)
}

/// Advances a block by its own fluxes, and answers those of its outermost faces.
pub(crate) fn advance_block(
    alloc: Global,
    params: &Params,
    block: &mut Block,
) -> Result<FaceFluxes, Memory>
    requires can { CanAdvance params.now block.old }
    ensures advanced { IfOk result (λ faces. IsAdvanced params.now block.old block.new faces) }
{
    let mut faces = FaceFluxes::new(alloc, params.block(), params.fields().items().len() as u8)?;
    advance(block, params, &mut faces);
    let _limits = faces.edge();
    Ok(faces)
}
