//! New blocks.
ghost use Rattle.std.specs.Prelude.{◌≡◌, ℕ, ◌*◌, ◌%◌, ◌<◌, ◌≤◌, IfOk, length, map, replicate};
ghost use Rattle.block_fields.specs.Blocks.{IsBlock, zero_block};

use crate::block::Block;
use crate::shell::ghost_count;
use block_index::Place;
use cello_num::Memory;
use std::alloc::Global;

impl Block {
    /// A block whose amounts and ghosts are all 0. Everything that it will ever hold is allocated here.
    pub fn new(alloc: Global, place: Place, n: u16, fields: u8, depth: u8) -> Result<Block, Memory>
        requires even { n % 2 ≡ 0 }
        requires least { 4 ≤ n }
        requires most { n ≤ 16 }
        requires few { fields ≤ 4 }
        requires shallowest { 1 ≤ depth }
        requires deepest { depth ≤ 2 }
        ensures zeros { IfOk result (λ block. block ≡ zero_block place n fields depth) }
        ensures limits { IfOk result (λ block. IsBlock block) }
    {
        let cells = n as usize * n as usize * n as usize;
        Ok(Block {
            place,
            edge: n,
            depth,
            amounts: zero_lists(alloc, fields, cells)?,
            before: zero_lists(alloc, fields, cells)?,
            ghosts: zero_lists(alloc, fields, ghost_count(n, depth))?,
        })
    }
}

/// As many lists of as many zeros.
fn zero_lists(alloc: Global, count: u8, length: usize) -> Result<Vec<Vec<u64>>, Memory>
    requires short { length ≤ 8000 }
    ensures lists { IfOk result (λ lists. map (λ v. v.items) lists.items ≡ replicate count (replicate length 0)) }
{
    let mut lists = Vec::with_capacity(alloc, count as usize)?;
    for _ in 0..count {
        lists.push(zeros(alloc, length)?)?;
    }
    Ok(lists)
}

/// A list of zeros.
fn zeros(alloc: Global, length: usize) -> Result<Vec<u64>, Memory>
    ensures zeros { IfOk result (λ list. list.items ≡ replicate length 0) }
{
    Ok(vec![in alloc; 0u64; length]?)
}
