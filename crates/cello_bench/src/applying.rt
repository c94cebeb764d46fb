//! Keeping, splitting and joining blocks, beside a plain copy of the new amounts.
ghost use Rattle.std.specs.Prelude.{◌≡◌, IfOk};
ghost use Rattle.split_join.specs.Applying.{AreBlocksOfSet, IsNextMesh};

use crate::fault::Fault;
use crate::inputs::{Grid, moved, next_set, parameters, roots};
use crate::stopwatch::{Best, RUNS};
use block_fields::Block;
use block_index::Wish;
use cello_num::Memory;
use leaf_set::LeafSet;
use params_check::Params;
use split_join::apply;
use std::alloc::Global;
use std::time::{Duration, Instant};

/// What is done to all blocks.
#[derive(Clone, Copy)]
pub enum Change {
    Stay,
    Split,
    Join,
}

/// The grid before the change: the roots, or their children where these are to join.
fn grid_before(alloc: Global, params: &Params, change: Change) -> Result<Grid, Memory>
    ensures blocks { IfOk result (λ grid. AreBlocksOfSet grid.set grid.blocks.items) }
{
    let grid = roots(alloc, params)?;
    match change {
        Change::Stay | Change::Split => Ok(grid),
        Change::Join => split(alloc, grid),
    }
}

/// The grid in which each leaf is split.
fn split(alloc: Global, grid: Grid) -> Result<Grid, Memory>
    requires blocks { AreBlocksOfSet grid.set grid.blocks.items }
    ensures blocks { IfOk result (λ grid. AreBlocksOfSet grid.set grid.blocks.items) }
{
    let next = next_set(alloc, &grid.set, Wish::Refine)?;
    moved(alloc, grid, next)
}

/// The wish of each leaf for a change.
fn wish_for(change: Change) -> Wish {
    match change {
        Change::Stay => Wish::Stay,
        Change::Split => Wish::Refine,
        Change::Join => Wish::Coarsen,
    }
}

/// A plain copy of the amounts of blocks, into memory that is taken for it.
fn copied(alloc: Global, blocks: &[Block]) -> Result<Vec<Vec<u64>>, Memory> {
    let mut copies = Vec::new(alloc);
    for block in blocks {
        for field in 0..block.fields() {
            copies.push(block.field(field).to_vec(alloc)?)?;
        }
    }
    Ok(copies)
}

/// How many amounts blocks have.
fn amounts_of(blocks: &[Block]) -> u64 {
    let mut count = 0u64;
    for block in blocks {
        for field in 0..block.fields() {
            count = count.wrapping_add(block.field(field).len() as u64);
        }
    }
    count
}

/// How long a change and a copy of the amounts that change hands took, which are the old or the new ones, whichever are
/// more; and how many these were.
#[derive(Clone, Copy, Drop)]
struct Times {
    applied: Duration,
    copied: Duration,
    amounts: u64,
}

/// The blocks of the next mesh.
fn changed(alloc: Global, grid: Grid, next: &LeafSet) -> Result<Vec<Block>, Memory>
    requires blocks { AreBlocksOfSet grid.set grid.blocks.items }
    requires next { IsNextMesh grid.set next.now.places }
{
    let Grid { set, blocks } = grid;
    apply(alloc, blocks, &set, next)
}

/// Changes the blocks of a grid once, and copies the old and the new ones.
fn times_of(rt: &HostRuntime, grid: Grid, wish: Wish) -> Result<Times, Fault>
    requires blocks { AreBlocksOfSet grid.set grid.blocks.items }
{
    let next = next_set(rt.alloc(), &grid.set, wish)?;
    let start = Instant::now(rt)?;
    let copies = copied(rt.alloc(), &grid.blocks)?;
    let before = start.elapsed(rt)?;
    let old = amounts_of(&grid.blocks);
    drop(copies);
    let start = Instant::now(rt)?;
    let blocks = changed(rt.alloc(), grid, &next)?;
    let applied = start.elapsed(rt)?;
    let start = Instant::now(rt)?;
    let copies = copied(rt.alloc(), &blocks)?;
    let after = start.elapsed(rt)?;
    drop(copies);
    let new = amounts_of(&blocks);
    Ok(Times {
        applied,
        copied: if old > new { before } else { after },
        amounts: old.max(new),
    })
}

/// Measures `apply` for a cube of trees whose blocks all change alike.
pub fn bench_apply(
    rt: &HostRuntime,
    change: Change,
    trees: u64,
    block: u64,
    fields: u64,
) -> Result<(), Fault> {
    let most = trees
        .saturating_mul(trees)
        .saturating_mul(trees)
        .saturating_mul(8);
    let params = parameters(rt.alloc(), trees, block, fields, most)?;
    let mut applied = Best::new();
    let mut copied = Best::new();
    let mut amounts = 0;
    for _ in 0..RUNS {
        let grid = grid_before(rt.alloc(), &params, change)?;
        let times = times_of(rt, grid, wish_for(change))?;
        applied.note(times.applied);
        copied.note(times.copied);
        amounts = times.amounts;
    }
    applied.tell(rt, "apply", amounts, "amounts")?;
    copied.tell(
        rt,
        "a copy of the amounts that change hands",
        amounts,
        "amounts",
    )?;
    applied.compare(rt, "apply to a copy", copied)
}
