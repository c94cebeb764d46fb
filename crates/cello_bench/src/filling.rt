//! Filling the root blocks, beside writing as much memory once.

ghost use Rattle.std.specs.Prelude.{◌<◌, length};

use crate::fault::Fault;
use crate::inputs::parameters;
use crate::stopwatch::{Best, RUNS};
use block_fields::Block;
use cello_num::Memory;
use initial_fill::fill;
use std::alloc::Global;
use std::time::Instant;

/// How many numbers the ghosts of a field hold.
fn ghosts_of(block: &Block, field: u8) -> usize
    requires field { field < length block.now.amounts }
{
    let mut count = 0usize;
    for direction in 0..27u8 {
        count = count.wrapping_add(block.ghosts(field, direction).len());
    }
    count
}

/// Writes as much memory as blocks hold once, list by list: amounts, their second copies, and ghosts.
fn written(alloc: Global, blocks: &[Block]) -> Result<Vec<Vec<u64>>, Memory> {
    let mut lists = Vec::new(alloc);
    for block in blocks {
        for field in 0..block.fields() {
            lists.push(vec![in alloc; 1u64; block.field(field).len()]?)?;
            lists.push(vec![in alloc; 1u64; block.before(field).len()]?)?;
            lists.push(vec![in alloc; 1u64; ghosts_of(block, field)]?)?;
        }
    }
    Ok(lists)
}

/// How many numbers lists hold.
fn numbers_of(lists: &[Vec<u64>]) -> u64 {
    let mut count = 0u64;
    for list in lists {
        count = count.wrapping_add(list.len() as u64);
    }
    count
}

/// Measures `fill` for cubes of trees.
pub fn bench_fill(rt: &HostRuntime, trees: u64, block: u64, fields: u64) -> Result<(), Fault> {
    let most = trees.saturating_mul(trees).saturating_mul(trees);
    let params = parameters(rt.alloc(), trees, block, fields, most)?;
    let mut filling = Best::new();
    let mut writing = Best::new();
    let mut numbers = 0u64;
    for _ in 0..RUNS {
        let start = Instant::now(rt)?;
        let blocks = fill(rt.alloc(), &params)?;
        filling.note(start.elapsed(rt)?);
        let start = Instant::now(rt)?;
        let lists = written(rt.alloc(), &blocks)?;
        writing.note(start.elapsed(rt)?);
        numbers = numbers_of(&lists);
        drop(blocks);
        drop(lists);
    }
    filling.tell(rt, "fill", numbers, "numbers")?;
    writing.tell(rt, "writing as much memory once", numbers, "numbers")?;
    filling.compare(rt, "fill to writing", writing)
}
