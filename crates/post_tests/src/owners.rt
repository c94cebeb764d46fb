//! Owners of leaves, by hand: leaf `i` of `N` belongs to shard `i * shards / N`.
ghost use Rattle.std.specs.Prelude.{◌≤◌};

use block_index::Domain;
use leaf_set::LeafSet;
use shard_map::assign;
use std::alloc::Global;

/// Whether the leaves of so many trees along x have these owners.
fn have_owners(alloc: Global, trees: u16, shards: u32, owners: &[u8]) -> Option<bool>
    requires counts { (1 ≤ shards) × (shards ≤ 64) }
{
    let domain = Domain::new([trees, 1, 1], [false, false, false], 0)?;
    let set = LeafSet::roots(alloc, domain).ok()?;
    let found = assign(alloc, &set, shards).ok()?;
    Some(found.as_slice() == owners)
}

#[test]
fn each_shard_has_a_run_of_leaves(rt: HostRuntime) {
    assert!(rt; have_owners(rt.alloc(), 3, 2, b"\x00\x00\x01") == Some(true));
    assert!(rt; have_owners(rt.alloc(), 5, 3, b"\x00\x00\x01\x01\x02") == Some(true));
    assert!(rt; have_owners(rt.alloc(), 2, 4, b"\x00\x02") == Some(true));
    assert!(rt; have_owners(rt.alloc(), 1, 64, b"\x00") == Some(true));
}
