//! The blocks of the flux correction at rest.

ghost use Rattle.std.specs.Prelude.{◌≡◌, ℕ, IfOk, Some, map, slice_get};
ghost use Rattle.block_fields.specs.Blocks.{BlockState};
ghost use Rattle.block_fields.specs.BlockStates.{IsBlockOf, state_of};
ghost use Rattle.grid_fluxes.specs.Fluxes.{Fluxes, advanced};
ghost use Rattle.flux_register.specs.Cells.{state_in, unadvanced};
ghost use Rattle.flux_register.specs.Made.{IsMadeBy};

use crate::cell::FluxCell;
use crate::flux_fix::FluxFix;
use block_fields::Block;
use cello_num::Memory;
use phase_core::Quiet;
use std::alloc::Global;

/// The blocks of a phase at rest, in the order of the leaves. They hold the state after an advance of the composite grid
/// of all levels, and in their second copies the state before it.
pub fn settled_blocks(alloc: Global, quiet: Quiet<FluxFix>) -> Result<Vec<Block>, Memory>
    ensures advanced { IfOk result (λ blocks. (fluxes : Fluxes) → IsMadeBy quiet.problem fluxes →
        state_of quiet.problem.setting.grid quiet.problem.setting.edge quiet.problem.setting.fields blocks.items ≡ advanced (state_in quiet.problem) fluxes) }
    ensures before { IfOk result (λ blocks. map unadvanced blocks.items ≡ map (λ k. k.before) quiet.problem.parts) }
    ensures sizes { IfOk result (λ blocks. (i : ℕ) (b : BlockState) → slice_get blocks.items i ≡ Some b →
        IsBlockOf quiet.problem.setting.edge quiet.problem.setting.fields b.depth b) }
{
    let blocks = blocks_of(alloc, quiet.into_cells())?;
    Ok(blocks)
}

/// The blocks of cells, in order.
fn blocks_of(alloc: Global, cells: Vec<FluxCell>) -> Result<Vec<Block>, Memory>
    ensures { IfOk result (λ blocks. blocks.items ≡ map (λ c. c.block) cells.items) }
{
    Ok(
        cells
            .into_iter()
            .map(|cell| cell.into_block())
            .collect(alloc)?,
    )
}
