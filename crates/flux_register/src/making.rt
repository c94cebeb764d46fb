//! The cells with which a phase over the blocks of a mesh begins, made in several threads.

ghost use Rattle.std.specs.Prelude.{◌≡◌, ℕ, ◌<◌, ◌≤◌, IfOk, Some, length, map, slice_get};
ghost use Rattle.std.specs.List.{zip};
ghost use Rattle.block_fields.specs.Blocks.{BlockState};
ghost use Rattle.block_fields.specs.BlockStates.{AreBlocksOf};
ghost use Rattle.advect.specs.FaceFluxes.{FaceFluxState};
ghost use Rattle.flux_register.specs.Lemmas.FirstCells.{AreFirstCells, IsFirstCell, bare};

use crate::cell::FluxCell;
use crate::first_cells::take_faces;
use advect::FaceFluxes;
use block_fields::Block;
use cello_num::Memory;
use leaf_set::LeafSet;
use std::alloc::Global;
use std::thread::Threads;
use thread_runs::{threads_for, try_for_each_mut};

/// How many cells a thread makes at least. Starting a thread takes about as long.
const FEWEST: usize = 256;

/// The cells that `first_cells` makes, in at most as many threads as there are workers. Each thread has a run of cells
/// that follow one another.
pub(crate) fn cells_in_threads<R: Threads + Sync>(
    rt: &R,
    alloc: Global,
    workers: u32,
    set: &LeafSet,
    blocks: Vec<Block>,
    faces: Vec<FaceFluxes>,
) -> Result<Vec<FluxCell>, Memory>
    requires workers { 1 ≤ workers }
    requires blocks { (n : ℕ) × (fields : ℕ) × (depth : ℕ) × AreBlocksOf set.now.places n fields depth blocks.items }
    requires one_each { length faces.items ≡ length blocks.items }
    ensures { IfOk result (λ cells. AreFirstCells set.now.grid set.now.places blocks.items faces.items cells.items) }
{
    let _leaves = set.len();
    let mut cells = bare_cells(alloc, blocks, faces)?;
    take_each(
        rt,
        alloc,
        threads_for(workers as usize, set.len(), FEWEST),
        set,
        cells.as_mut_slice(),
    )?;
    Ok(cells)
}

/// Bare cells of the blocks and the fluxes of their faces, in order.
fn bare_cells(
    alloc: Global,
    blocks: Vec<Block>,
    faces: Vec<FaceFluxes>,
) -> Result<Vec<FluxCell>, Memory>
    ensures { IfOk result (λ cells. cells.items ≡ map (λ (p : BlockState × FaceFluxState). bare p.0 p.1) (zip blocks.items faces.items)) }
{
    Ok(
        blocks
            .into_iter()
            .zip(faces)
            .map(|(block, faces)| FluxCell::bare(alloc, block, faces))
            .collect(alloc)?,
    )
}

/// Gives each of the bare cells its faces and pieces, in its place.
fn take_each<R: Threads + Sync>(
    rt: &R,
    alloc: Global,
    threads: usize,
    set: &LeafSet,
    cells: &mut [FluxCell],
) -> Result<(), Memory>
    requires threads { 1 ≤ threads }
    requires each { (i : ℕ) (c : _) → slice_get cells.old i ≡ Some c → (c ≡ bare c.block c.faces) × i < length set.now.places }
    ensures many { length cells.new ≡ length cells.old }
    ensures each { IfOk result (λ _. (i : ℕ) (c d : _) → slice_get cells.old i ≡ Some c → slice_get cells.new i ≡ Some d → IsFirstCell set.now.grid set.now.places i d × (d.block ≡ c.block) × (d.faces ≡ c.faces)) }
{
    try_for_each_mut(
        rt,
        cells,
        threads,
        &|at: usize, one: &mut FluxCell| -> Result<(), Memory>
            requires bare { one.old ≡ bare one.old.block one.old.faces }
            requires leaf { at < length set.now.places }
            ensures first { IfOk result (λ _. IsFirstCell set.entry.now.grid set.entry.now.places at one.new) }
            ensures block { IfOk result (λ _. one.new.block ≡ one.old.block) }
            ensures faces { IfOk result (λ _. one.new.faces ≡ one.old.faces) }
        { take_own(alloc, set, at, one) },
    )
}

/// Gives a bare cell, which is that of the leaf at `at`, its faces and pieces.
fn take_own(alloc: Global, set: &LeafSet, at: usize, cell: &mut FluxCell) -> Result<(), Memory>
    requires bare { cell.old ≡ bare cell.old.block cell.old.faces }
    requires leaf { at < length set.now.places }
    ensures first { IfOk result (λ _. IsFirstCell set.now.grid set.now.places at cell.new) }
    ensures block { IfOk result (λ _. cell.new.block ≡ cell.old.block) }
    ensures faces { IfOk result (λ _. cell.new.faces ≡ cell.old.faces) }
{
    let _leaves = set.len();
    take_faces(alloc, set, at as u32, cell)
}
