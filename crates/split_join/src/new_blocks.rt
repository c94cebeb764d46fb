//! Blocks that a phase makes anew: the children of a block, and the parent of eight.
ghost use Rattle.std.specs.Prelude.{◌≡◌, ℕ, ◌++◌, ◌<◌, IfOk, OnOk};
ghost use Rattle.prolong_restrict.specs.Families.{FieldsFit};
ghost use Rattle.split_join.specs.Lemmas.NewBlocks.{IsFamily, child_block, children_blocks, joined_block};

use block_fields::Block;
use block_index::Place;
use cello_num::Memory;
use prolong_restrict::{join_cells, split_cells};
use std::alloc::Global;

/// Appends the eight children of a block in order.
pub(crate) fn push_children(
    alloc: Global,
    block: &Block,
    next: &mut Vec<Block>,
) -> Result<(), Memory>
    requires room { block.now.place.level < 6 }
    ensures { OnOk result (next.new.items ≡ next.old.items ++ children_blocks block.now) }
{
    for k in 0..8 {
        next.push(child_from(alloc, block, k)?)?;
    }
    Ok(())
}

/// Child `k` of a block, with the parts of the block's cells.
fn child_from(alloc: Global, block: &Block, k: u8) -> Result<Block, Memory>
    requires number { k < 8 }
    requires room { block.now.place.level < 6 }
    ensures { IfOk result (λ child. child ≡ child_block block.now k) }
{
    let place = block.place().child(k);
    let mut child = Block::new(alloc, place, block.edge(), block.fields(), block.depth())?;
    split_cells(block, k, &mut child);
    Ok(child)
}

/// The parent of eight blocks, with the sums of their cells.
pub(crate) fn parent_from(alloc: Global, at: Place, family: &[Block]) -> Result<Block, Memory>
    requires family { (n : ℕ) × (fields : ℕ) × (depth : ℕ) × IsFamily at n fields depth family.now }
    requires few { FieldsFit family.now }
    ensures { (n fields depth : ℕ) → IsFamily at n fields depth family.now → IfOk result (λ parent. parent ≡ joined_block n fields depth at family.now) }
{
    let first = &family[0];
    let mut parent = Block::new(alloc, at, first.edge(), first.fields(), first.depth())?;
    join_cells(family, &mut parent);
    Ok(parent)
}
