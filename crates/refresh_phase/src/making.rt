//! The cells with which a phase over the blocks of a mesh begins, made in several threads.

ghost use Rattle.std.specs.Prelude.{◌≡◌, ℕ, ◌≤◌, IfOk, Some, length, map, slice_get};
ghost use Rattle.block_fields.specs.Blocks.{IsBlock};
ghost use Rattle.block_fields.specs.BlockStates.{AreBlocksOf};
ghost use Rattle.refresh_phase.specs.Lemmas.FirstCells.{AreFirstCells, IsFirstCell, bare};

use crate::cell::RefreshCell;
use block_fields::Block;
use cello_num::Memory;
use leaf_set::LeafSet;
use std::alloc::Global;
use std::thread::Threads;
use thread_runs::try_for_each_mut;

/// The cells that `first_cells` makes, in at most as many threads as there are workers. Each thread has a run of cells
/// that follow one another.
pub(crate) fn cells_in_threads<R: Threads + Sync>(
    rt: &R,
    alloc: Global,
    workers: u32,
    set: &LeafSet,
    blocks: Vec<Block>,
) -> Result<Vec<RefreshCell>, Memory>
    requires workers { 1 ≤ workers }
    requires blocks { (n : ℕ) × (fields : ℕ) × (depth : ℕ) × AreBlocksOf set.now.places n fields depth blocks.items }
    ensures { IfOk result (λ cells. AreFirstCells set.now.grid set.now.places blocks.items cells.items) }
{
    let _leaves = set.len();
    let mut cells = bare_cells(alloc, blocks)?;
    take_each(rt, alloc, workers, set, cells.as_mut_slice())?;
    Ok(cells)
}

/// Bare cells of the blocks, in order.
fn bare_cells(alloc: Global, blocks: Vec<Block>) -> Result<Vec<RefreshCell>, Memory>
    ensures { IfOk result (λ cells. cells.items ≡ map bare blocks.items) }
{
    Ok(
        blocks
            .into_iter()
            .map(|block| RefreshCell::bare(alloc, block))
            .collect(alloc)?,
    )
}

/// Gives each of the bare cells its pieces, in its place.
fn take_each<R: Threads + Sync>(
    rt: &R,
    alloc: Global,
    workers: u32,
    set: &LeafSet,
    cells: &mut [RefreshCell],
) -> Result<(), Memory>
    requires workers { 1 ≤ workers }
    requires each { (i : ℕ) (c : _) → slice_get cells.old i ≡ Some c → (c ≡ bare c.block) × (slice_get set.now.places i ≡ Some c.block.place) × IsBlock c.block }
    ensures many { length cells.new ≡ length cells.old }
    ensures each { IfOk result (λ _. (i : ℕ) (c d : _) → slice_get cells.old i ≡ Some c → slice_get cells.new i ≡ Some d → IsFirstCell set.now.grid set.now.places i d × (d.block ≡ c.block)) }
{
    try_for_each_mut(
        rt,
        cells,
        workers as usize,
        &|at: usize, one: &mut RefreshCell| -> Result<(), Memory>
            requires bare { one.old ≡ bare one.old.block }
            requires leaf { slice_get set.now.places at ≡ Some one.old.block.place }
            requires limits { IsBlock one.old.block }
            ensures first { IfOk result (λ _. IsFirstCell set.entry.now.grid set.entry.now.places at one.new) }
            ensures block { IfOk result (λ _. one.new.block ≡ one.old.block) }
        { take_pieces(alloc, set, at, one) },
    )
}

/// Gives a bare cell, which is that of the leaf at `at`, its pieces.
fn take_pieces(
    alloc: Global,
    set: &LeafSet,
    at: usize,
    cell: &mut RefreshCell,
) -> Result<(), Memory>
    requires bare { cell.old ≡ bare cell.old.block }
    requires leaf { slice_get set.now.places at ≡ Some cell.old.block.place }
    requires limits { IsBlock cell.old.block }
    ensures first { IfOk result (λ _. IsFirstCell set.now.grid set.now.places at cell.new) }
    ensures block { IfOk result (λ _. cell.new.block ≡ cell.old.block) }
{
    let _leaves = set.len();
    cell.take_pieces(alloc, set, at as u32)
}
