//! One adapt phase of a run: how it begins, and the state that it leads to.
ghost use Rattle.std.specs.Prelude.{◌≡◌, ℕ, ◌^◌, ◌<◌, ◌≤◌, ◌⊎◌, ◌↔◌, true, IfOk, IfErr, IfSome, IfNone, length};
ghost use Rattle.block_index.specs.declared.wish.Wish.TheVariants.{Refine};
ghost use Rattle.leaf_set.specs.LevelRules.{IsLeast};
ghost use Rattle.block_fields.specs.States.{total};
ghost use Rattle.adapt_core.specs.Problem.{AdaptBegins, mesh_of, problem_of, wishes_of};
ghost use Rattle.run_core.specs.Lemmas.Decisions.{LeadsTo};
ghost use Rattle.run_core.specs.Runs.{Adapts, AreBlocksFor, KeepsLevelLimit, PassesLimit, blocks_state, phase_wishes};

use crate::fault::RunFault;
use crate::maker::Maker;
use adapt_core::{Adapt, AdaptCell, levels, touching_lists};
use block_fields::Block;
use block_index::{Place, Wish};
use cello_num::Memory;
use leaf_set::LeafSet;
use params_check::Params;
use phase_core::Quiet;
use sibling_rule::{count_after, decide};
use split_join::apply;
use std::alloc::Global;

/// The state after a phase: its mesh, and the blocks on it.
#[derive(Drop)]
pub(crate) struct NextState {
    pub(crate) set: LeafSet,
    pub(crate) blocks: Vec<Block>,
}

/// Whether a leaf is of the finest level and wishes to refine.
fn is_too_fine(leaf: Place, wish: Wish, finest: u8) -> bool
    ensures too_fine { (result ≡ true) ↔ ((leaf.level ≡ finest) × (wish ≡ Refine)) }
{
    match wish {
        Wish::Coarsen | Wish::Stay => false,
        Wish::Refine => leaf.level() == finest,
    }
}

/// The first leaf of the finest level that wishes to refine, where the parameters are strict.
fn level_limit(params: &Params, phase: u32, set: &LeafSet, wishes: &[Wish]) -> Option<RunFault>
    requires one_each { length wishes.now ≡ length set.now.places }
    ensures found { IfSome result (λ fault. PassesLimit params.now phase set.now.places wishes.now fault) }
    ensures none { IfNone result (KeepsLevelLimit params.now set.now.places wishes.now) }
{
    if !params.strict() {
        return None;
    }
    let finest = params.domain().max_level();
    for i in 0..set.len() {
        let place = set.place(i);
        if is_too_fine(place, wishes[i], finest) {
            return Some(RunFault::LevelLimit { phase, place });
        }
    }
    None
}

/// The adapt phase over a set with these wishes, and its cells, which the maker makes, unless a leaf wishes past the level
/// limit.
pub(crate) fn begin_adapt<M: Maker>(
    alloc: Global,
    maker: &M,
    params: &Params,
    phase: u32,
    set: &LeafSet,
    wishes: &[Wish],
) -> Result<(Adapt, Vec<AdaptCell>), RunFault>
    requires ready { M.ready maker.now }
    requires one_each { length wishes.now ≡ length set.now.places }
    ensures level_limit { IfOk result (λ _. KeepsLevelLimit params.now set.now.places wishes.now) }
    ensures grid { IfOk result (λ r. (problem_of r.0 r.1.items).grid ≡ set.now.grid) }
    ensures places { IfOk result (λ r. mesh_of (problem_of r.0 r.1.items) ≡ set.now.places) }
    ensures asked { IfOk result (λ r. wishes_of (problem_of r.0 r.1.items) ≡ wishes.now) }
    ensures begins { IfOk result (λ r. AdaptBegins (problem_of r.0 r.1.items) r.1.items) }
    ensures ended { IfErr result (λ fault. (fault ≡ RunFault.Memory) ⊎ PassesLimit params.now phase set.now.places wishes.now fault) }
{
    if let Some(limit) = level_limit(params, phase, set, wishes) {
        return Err(limit);
    }
    match maker.begin_adapt(alloc, set, wishes) {
        Ok(begun) => Ok(begun),
        Err(_) => Err(RunFault::Memory),
    }
}

/// The levels of a phase at rest: the least for its wishes.
fn least_levels(alloc: Global, set: &LeafSet, quiet: &Quiet<Adapt>) -> Result<Vec<u8>, Memory>
    requires grid { quiet.now.problem.grid ≡ set.now.grid }
    requires places { mesh_of quiet.now.problem ≡ set.now.places }
    ensures least { IfOk result (λ levels. IsLeast set.now.grid set.now.places (wishes_of quiet.now.problem) levels.items) }
{
    levels(alloc, quiet)
}

/// The next mesh by the levels of a phase at rest, unless it has more leaves than there may be blocks.
fn next_set(
    alloc: Global,
    params: &Params,
    phase: u32,
    set: &LeafSet,
    quiet: &Quiet<Adapt>,
) -> Result<LeafSet, RunFault>
    requires grid { set.now.grid ≡ params.now.grid }
    requires level_limit { KeepsLevelLimit params.now set.now.places (wishes_of quiet.now.problem) }
    requires same_grid { quiet.now.problem.grid ≡ set.now.grid }
    requires places { mesh_of quiet.now.problem ≡ set.now.places }
    ensures decides { IfOk result (λ next. LeadsTo params.now set.now.places (wishes_of quiet.now.problem) next.places) }
    ensures grid { IfOk result (λ next. next.grid ≡ params.now.grid) }
    ensures ended { IfErr result (λ fault. (fault ≡ RunFault.Memory) ⊎ PassesLimit params.now phase set.now.places (wishes_of quiet.now.problem) fault) }
{
    let levels = least_levels(alloc, set, quiet)?;
    let count = count_after(set, &levels);
    let limit = params.max_blocks();
    if count > limit {
        return Err(RunFault::BlockLimit {
            phase,
            count,
            limit,
        });
    }
    let next = decide(alloc, set, &levels)?;
    Ok(next)
}

/// Keeps the lists of touching leaves that a phase over a set made, where the next set has the same leaves.
fn keep_lists(
    alloc: Global,
    set: &LeafSet,
    next: &mut LeafSet,
    quiet: Quiet<Adapt>,
) -> Result<(), Memory>
    requires grid { next.old.grid ≡ set.now.grid }
    requires same_grid { quiet.problem.grid ≡ set.now.grid }
    requires places { mesh_of quiet.problem ≡ set.now.places }
    ensures same { next.new ≡ next.old }
{
    if next.places() == set.places() {
        next.keep_touching(touching_lists(alloc, quiet)?);
    }
    Ok(())
}

/// The state after the adapt phase of this number, which came to rest over these blocks.
pub(crate) fn next_state(
    alloc: Global,
    params: &Params,
    phase: u32,
    set: &LeafSet,
    blocks: Vec<Block>,
    quiet: Quiet<Adapt>,
) -> Result<NextState, RunFault>
    requires grid { set.now.grid ≡ params.now.grid }
    requires blocks { AreBlocksFor params.now set.now.places blocks.items }
    requires few { (f : ℕ) → f < length params.now.fields → total (blocks_state params.now blocks.items) f ≤ 2 ^ 40 }
    requires level_limit { KeepsLevelLimit params.now set.now.places (wishes_of quiet.problem) }
    requires same_grid { quiet.problem.grid ≡ set.now.grid }
    requires places { mesh_of quiet.problem ≡ set.now.places }
    requires wishes { wishes_of quiet.problem ≡ phase_wishes params.now phase (blocks_state params.now blocks.items) }
    ensures grid { IfOk result (λ next. next.set.grid ≡ params.now.grid) }
    ensures blocks { IfOk result (λ next. AreBlocksFor params.now next.set.places next.blocks.items) }
    ensures adapts { IfOk result (λ next. Adapts params.now phase (blocks_state params.now blocks.items) (blocks_state params.now next.blocks.items)) }
    ensures ended { IfErr result (λ fault. (fault ≡ RunFault.Memory) ⊎ PassesLimit params.now phase set.now.places (wishes_of quiet.problem) fault) }
{
    let mut next = next_set(alloc, params, phase, set, &quiet)?;
    keep_lists(alloc, set, &mut next, quiet)?;
    let blocks = apply(alloc, blocks, set, &next)?;
    Ok(NextState { set: next, blocks })
}
