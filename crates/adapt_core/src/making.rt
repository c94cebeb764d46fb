//! The cells with which a phase over a leaf set begins, made in several threads.

ghost use Rattle.std.specs.Prelude.{◌≡◌, ℕ, ◌<◌, ◌≤◌, IfOk, IfSome, Some, length, map, slice_get};
ghost use Rattle.leaf_set.specs.Meshes.{most_leaves};
ghost use Rattle.adapt_core.specs.Lemmas.FirstCells.{AreFirstCells, IsFirstCell};

use crate::cell::AdaptCell;
use crate::first_cells::first_cell;
use block_index::Wish;
use cello_num::Memory;
use leaf_set::LeafSet;
use sibling_rule::opening;
use std::alloc::Global;
use std::thread::Threads;
use thread_runs::{threads_for, try_for_each_mut};

/// How many cells take about as long as starting a thread, where touching leaves are looked up.
const FEWEST: usize = 32;

/// The same where the set keeps lists of touching leaves.
const FEWEST_KEPT: usize = 256;

/// The cells that `first_cells` makes, in at most as many threads as there are workers. Each thread has a run of leaves
/// that follow one another.
pub(crate) fn cells_in_threads<R: Threads + Sync>(
    rt: &R,
    alloc: Global,
    workers: u32,
    set: &LeafSet,
    wishes: &[Wish],
) -> Result<Vec<AdaptCell>, Memory>
    requires workers { 1 ≤ workers }
    requires one_each { length wishes.now ≡ length set.now.places }
    ensures { IfOk result (λ cells. AreFirstCells set.now.grid set.now.places wishes.now cells.items) }
{
    let openings = opening(alloc, set, wishes)?;
    let mut slots = empty_slots(alloc, set.len())?;
    make_each(
        rt,
        alloc,
        threads_for(workers as usize, set.len(), fewest(set)),
        set,
        wishes,
        &openings,
        slots.as_mut_slice(),
    )?;
    let cells = cells_of(alloc, slots)?;
    Ok(cells)
}

/// How many cells of a leaf set a thread makes at least.
fn fewest(set: &LeafSet) -> usize
    ensures { 0 < result }
{
    match set.kept_touching(0) {
        Some(_) => FEWEST_KEPT,
        None => FEWEST,
    }
}

/// So many slots without a cell.
fn empty_slots(alloc: Global, count: usize) -> Result<Vec<Option<AdaptCell>>, Memory>
    ensures { IfOk result (λ slots. length slots.items ≡ count) }
{
    let mut slots = Vec::with_capacity(alloc, count)?;
    for _ in 0..count {
        slots.push(None)?;
    }
    Ok(slots)
}

/// Puts the first cell of each leaf into its slot.
fn make_each<R: Threads + Sync>(
    rt: &R,
    alloc: Global,
    threads: usize,
    set: &LeafSet,
    wishes: &[Wish],
    openings: &[u8],
    slots: &mut [Option<AdaptCell>],
) -> Result<(), Memory>
    requires threads { 1 ≤ threads }
    requires limit { length set.now.places ≤ most_leaves }
    requires wishes { length wishes.now ≡ length set.now.places }
    requires openings { length openings.now ≡ length set.now.places }
    requires one_each { length slots.old ≡ length set.now.places }
    ensures one_each { length slots.new ≡ length slots.old }
    ensures each { IfOk result (λ _. (i : ℕ) (slot : _) → slice_get slots.new i ≡ Some slot → IfSome slot (λ cell. IsFirstCell set.now.grid set.now.places wishes.now openings.now i cell)) }
{
    try_for_each_mut(
        rt,
        slots,
        threads,
        &|at: usize, one: &mut Option<AdaptCell>| -> Result<(), Memory>
            requires leaf { at < length set.now.places }
            requires limit { length set.now.places ≤ most_leaves }
            requires wishes { length wishes.now ≡ length set.now.places }
            requires openings { length openings.now ≡ length set.now.places }
            ensures first { IfOk result (λ _. IfSome one.new (λ cell. IsFirstCell set.entry.now.grid set.entry.now.places wishes.entry.now openings.entry.now at cell)) }
        {
            *one = Some(first_cell(alloc, set, wishes, openings, at)?);
            Ok(())
        },
    )
}

/// The cells of slots that all have one; else memory was wanting.
fn cells_of(alloc: Global, slots: Vec<Option<AdaptCell>>) -> Result<Vec<AdaptCell>, Memory>
    ensures { IfOk result (λ cells. map Some cells.items ≡ slots.items) }
{
    let mut cells = Vec::with_capacity(alloc, slots.len())?;
    for slot in slots {
        let Some(cell) = slot else {
            return Err(Memory);
        };
        cells.push(cell)?;
    }
    Ok(cells)
}
