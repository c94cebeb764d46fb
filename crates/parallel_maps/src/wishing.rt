//! The wishes of blocks.
ghost use Rattle.std.specs.Prelude.{◌≡◌, ℕ, ◌≤◌, All, ◌<◌, IfOk, Some, length, map, slice_get};
ghost use Rattle.block_fields.specs.Blocks.{BlockState, seen_at};
ghost use Rattle.params_check.specs.Limits.{KeepsCriterion};
ghost use Rattle.criteria.specs.Samples.{IsSmall};
ghost use Rattle.criteria.specs.Wishes.{criteria_wish};

use block_fields::Block;
use block_index::Wish;
use cello_num::Memory;
use criteria::wish;
use params_check::Criterion;
use std::alloc::Global;
use std::thread::Threads;
use thread_runs::try_for_each_mut;

/// The wish of each block in a phase, in order, from its amounts and its ghosts.
pub fn block_wishes(
    alloc: Global,
    criteria: &[Criterion],
    phase: u32,
    blocks: &[Block],
) -> Result<Vec<Wish>, Memory>
    requires limits { (i : ℕ) (b : BlockState) → slice_get blocks.now i ≡ Some b → All (KeepsCriterion (length b.amounts)) criteria.now }
    requires small { (i : ℕ) (b : BlockState) → slice_get blocks.now i ≡ Some b → IsSmall b }
    ensures wishes { IfOk result (λ wishes. wishes.items ≡ map (λ b. criteria_wish b.edge phase criteria.now (seen_at b) b.place) blocks.now) }
{
    let mut wishes = Vec::with_capacity(alloc, blocks.len())?;
    for block in blocks {
        wishes.push(wish(block, criteria, phase))?;
    }
    Ok(wishes)
}

/// The wish of each block, as `block_wishes` answers them, in at most as many threads as there are workers. Each thread
/// has a run of blocks that follow one another.
pub fn wishes<R: Threads + Sync>(
    rt: &R,
    alloc: Global,
    workers: u32,
    criteria: &[Criterion],
    phase: u32,
    blocks: &[Block],
) -> Result<Vec<Wish>, Memory>
    requires workers { (1 ≤ workers) × (workers ≤ 16) }
    requires limits { (i : ℕ) (b : BlockState) → slice_get blocks.now i ≡ Some b → All (KeepsCriterion (length b.amounts)) criteria.now }
    requires small { (i : ℕ) (b : BlockState) → slice_get blocks.now i ≡ Some b → IsSmall b }
    ensures wishes { IfOk result (λ wishes. wishes.items ≡ map (λ b. criteria_wish b.edge phase criteria.now (seen_at b) b.place) blocks.now) }
{
    let mut wishes = vec![in alloc; Wish::Stay; blocks.len()]?;
    wish_each(rt, workers, criteria, phase, blocks, wishes.as_mut_slice())?;
    Ok(wishes)
}

/// Puts the wish of each block at its place.
fn wish_each<R: Threads + Sync>(
    rt: &R,
    workers: u32,
    criteria: &[Criterion],
    phase: u32,
    blocks: &[Block],
    wishes: &mut [Wish],
) -> Result<(), Memory>
    requires workers { 1 ≤ workers }
    requires one_each { length wishes.old ≡ length blocks.now }
    requires limits { (i : ℕ) (b : BlockState) → slice_get blocks.now i ≡ Some b → All (KeepsCriterion (length b.amounts)) criteria.now }
    requires small { (i : ℕ) (b : BlockState) → slice_get blocks.now i ≡ Some b → IsSmall b }
    ensures one_each { length wishes.new ≡ length wishes.old }
    ensures each { IfOk result (λ _. (i : ℕ) (w : _) → slice_get wishes.new i ≡ Some w → (b : BlockState) → slice_get blocks.now i ≡ Some b → w ≡ criteria_wish b.edge phase criteria.now (seen_at b) b.place) }
{
    try_for_each_mut(
        rt,
        wishes,
        workers as usize,
        &|at: usize, one: &mut Wish| -> Result<(), Memory>
            requires inside { at < length blocks.now }
            requires limits { (i : ℕ) (b : BlockState) → slice_get blocks.now i ≡ Some b → All (KeepsCriterion (length b.amounts)) criteria.now }
            requires small { (i : ℕ) (b : BlockState) → slice_get blocks.now i ≡ Some b → IsSmall b }
            ensures wish { (b : BlockState) → slice_get blocks.entry.now at ≡ Some b → one.new ≡ criteria_wish b.edge phase criteria.entry.now (seen_at b) b.place }
        {
            *one = wish(&blocks[at], criteria, phase);
            Ok(())
        },
    )
}
