//! Blocks that hold no more than an advance allows, by looking at each number.
ghost use Rattle.std.specs.Prelude.{◌≡◌, ℕ, ◌^◌, ◌<◌, ◌≤◌, true, IfOk, length, slice_index};
ghost use Rattle.block_fields.specs.Blocks.{ghosts_of};
ghost use Rattle.advect.specs.OwnFluxes.{HoldsAtMost};
ghost use Rattle.cello_bench.specs.Inputs.{AllSmall, IsSmallField};

use block_fields::Block;
use cello_num::Memory;
use std::alloc::Global;

/// Whether no number of a list is above the limit of amounts.
fn are_small(list: &[u64]) -> bool
    ensures small { result ≡ true → (i : ℕ) → slice_index list.now i ≤ 2 ^ 42 }
{
    let limit = 1u64 << 42;
    for k in 0..list.len() {
        if list[k] > limit {
            return false;
        }
    }
    true
}

/// Whether no ghost of a field is.
fn has_small_ghosts(block: &Block, field: u8) -> bool
    requires field { field < length block.now.amounts }
    ensures small { result ≡ true → (d i : ℕ) → d < 27 → slice_index (ghosts_of block.now field d) i ≤ 2 ^ 42 }
{
    for d in 0..27 {
        if !are_small(block.ghosts(field, d)) {
            return false;
        }
    }
    true
}

/// Whether no number of a field is.
fn is_small_field(block: &Block, field: u8) -> bool
    requires field { field < length block.now.amounts }
    ensures small { result ≡ true → IsSmallField block.now field }
{
    if !are_small(block.field(field)) {
        return false;
    }
    has_small_ghosts(block, field)
}

/// Whether no number of a block is.
fn is_small(block: &Block) -> bool
    ensures small { result ≡ true → HoldsAtMost (2 ^ 42) block.now }
{
    for field in 0..block.fields() {
        if !is_small_field(block, field) {
            return false;
        }
    }
    true
}

/// Adds a block, where it is small.
fn push_small(blocks: &mut Vec<Block>, block: Block) -> Result<(), Memory>
    requires small { AllSmall blocks.old.items }
    ensures small { IfOk result (λ unit. AllSmall blocks.new.items) }
{
    if !is_small(&block) {
        return Ok(());
    }
    blocks.push(block)?;
    Ok(())
}

/// Those of these blocks that are small.
pub fn small_ones(alloc: Global, blocks: Vec<Block>) -> Result<Vec<Block>, Memory>
    ensures small { IfOk result (λ blocks. AllSmall blocks.items) }
{
    let mut small = Vec::with_capacity(alloc, blocks.len())?;
    for block in blocks {
        push_small(&mut small, block)?;
    }
    Ok(small)
}
