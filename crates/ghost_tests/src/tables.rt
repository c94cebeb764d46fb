//! Meshes of one to three levels with ends of each kind, each with blocks of 4 and of 6 cells and both depths.
ghost use Rattle.std.specs.Prelude.{◌≡◌, ◌≤◌, ◌%◌};

use crate::delivering::{Size, refresh};
use crate::meshes::{blocks_of, mesh};
use crate::shells::all_agree;
use block_index::Domain;
use leaf_set::LeafSet;
use std::alloc::Global;

/// Whether all shells of a mesh hold samples once all pieces are filed.
fn holds_samples(alloc: Global, set: &LeafSet, edge: u16, depth: u8) -> Option<bool>
    requires even { edge % 2 ≡ 0 }
    requires least { 4 ≤ edge }
    requires most { edge ≤ 16 }
    requires shallowest { 1 ≤ depth }
    requires deepest { depth ≤ 2 }
{
    let mut blocks = blocks_of(alloc, set, edge, depth)?;
    let filed = refresh(alloc, set, Size { edge, depth }, &mut blocks).ok()?;
    Some(filed && all_agree(set.domain(), &blocks))
}

/// The same for blocks of 4 and of 6 cells, with both depths.
fn holds_in_each_size(alloc: Global, set: &LeafSet) -> bool {
    holds_samples(alloc, set, 4, 1) == Some(true)
        && holds_samples(alloc, set, 4, 2) == Some(true)
        && holds_samples(alloc, set, 6, 1) == Some(true)
        && holds_samples(alloc, set, 6, 2) == Some(true)
}

/// Whether a mesh has so many leaves and holds samples. It comes from roots by splitting places.
fn holds(alloc: Global, trees: [u16; 3], wraps: [bool; 3], splits: &[u8], leaves: usize) -> bool {
    let Some(domain) = Domain::new(trees, wraps, 2) else {
        return false;
    };
    match mesh(alloc, domain, splits) {
        Some(set) => set.len() == leaves && holds_in_each_size(alloc, &set),
        None => false,
    }
}

#[test]
fn two_closed_trees(rt: HostRuntime) {
    let wraps = [false, false, false];
    assert!(rt; holds(rt.alloc(), [2, 1, 1], wraps, b"00001000", 16));
    assert!(rt; holds(rt.alloc(), [2, 1, 1], wraps, b"000001001100", 23));
}

#[test]
fn eight_closed_trees(rt: HostRuntime) {
    assert!(rt;
        holds(
            rt.alloc(),
            [2, 2, 2],
            [false, false, false],
            b"00001000",
            22
        )
    );
}

#[test]
fn eight_periodic_trees(rt: HostRuntime) {
    let all = b"000001000010011000010101001101111000";
    assert!(rt; holds(rt.alloc(), [2, 2, 2], [true, true, true], all, 71));
}

#[test]
fn a_periodic_tree_of_three_levels(rt: HostRuntime) {
    assert!(rt; holds(rt.alloc(), [1, 1, 1], [true, true, true], b"00001000", 15));
}

#[test]
fn three_levels_with_one_periodic_axis(rt: HostRuntime) {
    let splits = b"000002001000";
    assert!(rt; holds(rt.alloc(), [3, 2, 1], [true, false, false], splits, 27));
    assert!(rt;
        holds(
            rt.alloc(),
            [1, 2, 3],
            [false, false, true],
            b"000000021000",
            27
        )
    );
}

#[test]
fn a_leaf_that_meets_itself(rt: HostRuntime) {
    assert!(rt; holds(rt.alloc(), [1, 1, 1], [true, true, true], b"", 1));
    assert!(rt; holds(rt.alloc(), [1, 2, 1], [true, false, false], b"", 2));
}

#[test]
fn two_leaves_that_meet_twice(rt: HostRuntime) {
    assert!(rt; holds(rt.alloc(), [1, 1, 1], [true, true, true], b"0000", 8));
    assert!(rt; holds(rt.alloc(), [2, 1, 1], [true, false, true], b"0000", 9));
}
