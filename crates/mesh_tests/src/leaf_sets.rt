//! Leaf sets: what they hold, and the faults of lists of places.
use crate::places::place;
use block_index::{Domain, Place};
use leaf_set::{LeafFault, LeafSet};
use std::alloc::Global;

/// The places that are written, each as four digits.
fn places(alloc: Global, written: &[u8]) -> Option<Vec<Place>> {
    let mut list = Vec::new(alloc);
    for one in written.chunks_exact(4) {
        list.push(place(one)?).ok()?;
    }
    Some(list)
}

/// The leaf set of written places, on trees along x of which all axes wrap, or none, with a finest level of 2.
pub fn leaf_set(
    alloc: Global,
    trees: u16,
    wraps: bool,
    written: &[u8],
) -> Result<LeafSet, LeafFault> {
    let domain = Domain::new([trees, 1, 1], [wraps, wraps, wraps], 2).ok_or(LeafFault::Memory)?;
    let list = places(alloc, written).ok_or(LeafFault::Memory)?;
    LeafSet::from_places(alloc, domain, list)
}

/// Whether written places on closed trees have this fault.
fn has_fault(alloc: Global, trees: u16, written: &[u8], fault: LeafFault) -> bool {
    leaf_set(alloc, trees, false, written).err() == Some(fault)
}

/// Whether written places on a closed tree leave this place of the finest level bare first.
fn leaves_bare(alloc: Global, written: &[u8], bare: &[u8]) -> bool {
    match place(bare) {
        Some(at) => has_fault(alloc, 1, written, LeafFault::Hole { at }),
        None => false,
    }
}

#[test]
fn lists_of_places_have_their_first_fault(rt: HostRuntime) {
    let alloc = rt.alloc();
    assert!(rt; leaves_bare(alloc, b"", b"2000"));
    assert!(rt; leaves_bare(alloc, b"1000", b"2200"));
    assert!(rt; has_fault(alloc, 1, b"00001000", LeafFault::Overlap { a: 0, b: 1 }));
    assert!(rt; has_fault(alloc, 1, b"0000120011111111", LeafFault::Order { at: 2 }));
    assert!(rt; has_fault(alloc, 1, b"000010001200", LeafFault::Outside { at: 2 }));
    // Of two trees the first as its children, of which the second is split again, then the other tree.
    let jumping = b"1000220023002210231022012301221123111010111010011101101111110100";
    assert!(rt; has_fault(alloc, 2, jumping, LeafFault::Jump { a: 2, b: 15 }));
}

/// Whether a leaf set of two roots along x has them.
fn has_two_roots(set: &LeafSet, first: Place, second: Place) -> bool {
    set.len() == 2
        && set.place(0) == first
        && set.place(1) == second
        && set.position(second) == Some(1)
}

#[test]
fn two_roots_are_a_leaf_set(rt: HostRuntime) {
    let set = leaf_set(rt.alloc(), 2, false, b"00000100")
        .ok()
        .expect(&rt, "a leaf set");
    let first = place(b"0000").expect(&rt, "a root");
    let second = place(b"0100").expect(&rt, "a root");
    let inner = place(b"2733").expect(&rt, "a place");
    assert!(rt; has_two_roots(&set, first, second));
    assert!(rt; set.covering(inner) == Some(1) && set.position(inner) == None);
}

/// The fault of the roots of the largest domain but the last.
fn fault_of_a_large_list(alloc: Global) -> Option<LeafFault> {
    let large = Domain::new([16, 16, 16], [false, false, false], 6)?;
    let roots = LeafSet::roots(alloc, large).ok()?;
    let mut places = roots.places().to_vec(alloc).ok()?;
    places.truncate(4095);
    LeafSet::from_places(alloc, large, places).err()
}

#[test]
fn what_is_bare_in_a_large_domain_is_found_at_once(rt: HostRuntime) {
    let at = Place::new(6, 960, 960, 960).expect(&rt, "a place");
    assert!(rt; fault_of_a_large_list(rt.alloc()) == Some(LeafFault::Hole { at }));
}
