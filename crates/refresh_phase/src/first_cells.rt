//! The cells with which a phase over the blocks of a mesh begins.

ghost use Rattle.std.specs.Prelude.{◌≡◌, ℕ, IfOk, Some, slice_get};
ghost use Rattle.block_fields.specs.Blocks.{IsBlock};
ghost use Rattle.block_fields.specs.BlockStates.{AreBlocksOf};
ghost use Rattle.refresh_phase.specs.Lemmas.FirstCells.{AreFirstCells, IsFirstCell};

use crate::cell::RefreshCell;
use block_fields::Block;
use cello_num::Memory;
use leaf_set::LeafSet;
use std::alloc::Global;

/// The cells of the blocks of a leaf set before anything is handled, in order. They have the room of all pieces.
pub(crate) fn first_cells(
    alloc: Global,
    set: &LeafSet,
    blocks: Vec<Block>,
) -> Result<Vec<RefreshCell>, Memory>
    requires { (n : ℕ) × (fields : ℕ) × (depth : ℕ) × AreBlocksOf set.now.places n fields depth blocks.items }
    ensures { IfOk result (λ cells. AreFirstCells set.now.grid set.now.places blocks.items cells.items) }
{
    let mut cells = Vec::with_capacity(alloc, set.len())?;
    for block in blocks {
        let at = cells.len() as u32;
        cells.push(first_cell(alloc, set, at, block)?)?;
    }
    Ok(cells)
}

/// The cell of the block of the leaf at position `at`.
fn first_cell(alloc: Global, set: &LeafSet, at: u32, block: Block) -> Result<RefreshCell, Memory>
    requires leaf { slice_get set.now.places at ≡ Some block.place }
    requires limits { IsBlock block }
    ensures first { IfOk result (λ cell. IsFirstCell set.now.grid set.now.places at cell) }
    ensures block { IfOk result (λ cell. cell.block ≡ block) }
{
    let mut cell = RefreshCell::bare(alloc, block);
    cell.take_pieces(alloc, set, at)?;
    Ok(cell)
}
