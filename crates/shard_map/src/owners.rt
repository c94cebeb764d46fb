//! The shards that own the leaves.
ghost use Rattle.std.specs.Prelude.{◌≡◌, ℕ, ◌<◌, ◌≤◌, IfOk, All, length, slice_index};
ghost use Rattle.leaf_set.specs.Meshes.{most_leaves};
ghost use Rattle.shard_map.specs.Owners.{most_shards, owner_of};

use cello_num::Memory;
use leaf_set::LeafSet;
use std::alloc::Global;

/// The owner of each leaf, in the order of the leaves: leaf `i` of `N` belongs to shard `i * shards / N`, so each shard
/// has a run of leaves that follow one another. Shards are numbered from 0.
pub fn assign(alloc: Global, set: &LeafSet, shards: u32) -> Result<Vec<u8>, Memory>
    requires some { 1 ≤ shards }
    requires few { shards ≤ most_shards }
    ensures one_each { IfOk result (λ owners. length owners.items ≡ length set.now.places) }
    ensures owner { IfOk result (λ owners. (i : ℕ) → i < length set.now.places →
        slice_index owners.items i ≡ owner_of shards (length set.now.places) i) }
    ensures below { IfOk result (λ owners. All (λ owner. owner < shards) owners.items) }
{
    let leaves = set.len();
    let mut owners = Vec::with_capacity(alloc, leaves)?;
    for i in 0..leaves {
        owners.push(owner_of(i, leaves, shards))?;
    }
    Ok(owners)
}

/// The owner of one leaf.
fn owner_of(leaf: usize, leaves: usize, shards: u32) -> u8
    requires leaf { leaf < leaves }
    requires leaves { leaves ≤ most_leaves }
    requires some { 1 ≤ shards }
    requires few { shards ≤ most_shards }
    ensures owner { result ≡ owner_of shards leaves leaf }
    ensures below { result < shards }
{
    (leaf * shards as usize / leaves) as u8
}
