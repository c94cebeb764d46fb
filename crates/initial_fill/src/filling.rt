//! The blocks of the roots.
ghost use Rattle.std.specs.Prelude.{◌≡◌, IfOk, length, map};
ghost use Rattle.block_fields.specs.BlockStates.{AreBlocksOf, state_of};
ghost use Rattle.leaf_set.specs.RootMesh.{root_mesh};
ghost use Rattle.initial_fill.specs.RootBlocks.{initial_state, root_block, root_depth};

use crate::field::fill_field;
use block_fields::Block;
use block_index::Place;
use cello_num::Memory;
use leaf_set::LeafSet;
use params_check::Params;
use std::alloc::Global;

/// The blocks of the roots in order, with the amounts that the shapes give to their cells.
pub fn fill(alloc: Global, params: &Params) -> Result<Vec<Block>, Memory>
    ensures each { IfOk result (λ blocks. blocks.items ≡ map (root_block params.now) (root_mesh params.now.grid)) }
    ensures blocks { IfOk result (λ blocks.
        AreBlocksOf (root_mesh params.now.grid) params.now.block (length params.now.fields) root_depth blocks.items) }
    ensures state { IfOk result (λ blocks.
        state_of params.now.grid params.now.block (length params.now.fields) blocks.items ≡ initial_state params.now) }
{
    let roots = LeafSet::roots(alloc, *params.domain())?;
    let mut blocks = Vec::with_capacity(alloc, roots.len())?;
    for place in roots.places() {
        blocks.push(root_block(alloc, params, *place)?)?;
    }
    Ok(blocks)
}

/// The block of a root.
fn root_block(alloc: Global, params: &Params, place: Place) -> Result<Block, Memory>
    ensures { IfOk result (λ block. block ≡ root_block params.now place) }
{
    let fields = params.fields().items().len() as u8;
    let mut block = Block::new(alloc, place, params.block(), fields, params.depth())?;
    for f in 0..fields {
        fill_field(params, f, place, block.field_mut(f));
    }
    Ok(block)
}
