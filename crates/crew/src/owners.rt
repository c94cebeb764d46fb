//! The shards that own the cells of a phase.
ghost use Rattle.std.specs.Prelude.{◌≡◌, ℕ, ◌<◌, ◌≤◌, IfOk, All, length, slice_index};
ghost use Rattle.crew.specs.Owners.{owner_of};

use cello_num::Memory;
use std::alloc::Global;

/// The owner of each leaf, in the order of the leaves, which are so many. Each shard has a run of leaves that follow one
/// another.
pub(crate) fn owners_of(alloc: Global, leaves: u32, shards: u32) -> Result<Vec<u8>, Memory>
    requires shards { (1 ≤ shards) × (shards ≤ 64) }
    ensures one_each { IfOk result (λ owners. length owners.items ≡ leaves) }
    ensures owner { IfOk result (λ owners. (i : ℕ) → i < leaves → slice_index owners.items i ≡ owner_of shards leaves i) }
    ensures below { IfOk result (λ owners. All (λ owner. owner < shards) owners.items) }
{
    let mut owners = Vec::with_capacity(alloc, leaves as usize)?;
    for leaf in 0..leaves {
        owners.push(owner_of(leaf, leaves, shards))?;
    }
    Ok(owners)
}

/// The owner of one leaf.
fn owner_of(leaf: u32, leaves: u32, shards: u32) -> u8
    requires leaf { leaf < leaves }
    requires shards { (1 ≤ shards) × (shards ≤ 64) }
    ensures owner { result ≡ owner_of shards leaves leaf }
    ensures below { result < shards }
{
    (leaf as u64 * shards as u64 / leaves as u64) as u8
}
