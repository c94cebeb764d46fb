//! The leaves that touch a leaf, and what covers the place beside it.
use crate::leaf_sets::leaf_set;
use cello_neighbours::{Cover, Direction, in_direction, touching};
use leaf_set::LeafSet;

/// Of two roots along x the first as its eight children, then the second.
const NINE_LEAVES: &[u8] = b"100011001010111010011101101111110100";

/// Whether positions are those that stand as digits.
fn are_digits(positions: &[u32], digits: &[u8]) -> bool {
    positions.len() == digits.len()
        && positions.iter().zip(digits).all(|(position, digit)| position.saturating_add(48)
            == u32::from(*digit))
}

/// Whether the leaves that touch leaf `b` are those that stand as digits.
fn touches(set: &LeafSet, b: usize, digits: &[u8]) -> bool {
    b < set.len() && are_digits(touching(set, b).items(), digits)
}

#[test]
fn leaves_of_unlike_levels_touch(rt: HostRuntime) {
    let closed = leaf_set(rt.alloc(), 2, false, NINE_LEAVES)
        .ok()
        .expect(&rt, "a mesh");
    assert!(rt; touches(&closed, 0, b"1234567") && touches(&closed, 8, b"1357"));
    // Across the ends of x the left children touch the second root too.
    let periodic = leaf_set(rt.alloc(), 2, true, NINE_LEAVES)
        .ok()
        .expect(&rt, "a mesh");
    assert!(rt; touches(&periodic, 0, b"12345678") && touches(&periodic, 8, b"01234567"));
}

/// Whether the cover of leaf `b` in a direction is of this kind, with the leaves that stand as digits.
fn is_cover(set: &LeafSet, b: usize, d: Option<Direction>, kind: u8, digits: &[u8]) -> bool {
    let Some(d) = d else {
        return false;
    };
    if b >= set.len() {
        return false;
    }
    match in_direction(set, b, d) {
        Cover::Same(j) => kind == b's' && are_digits(&[j], digits),
        Cover::Coarser(j) => kind == b'c' && are_digits(&[j], digits),
        Cover::Finer(list) => kind == b'f' && are_digits(list.items(), digits),
        Cover::Outside => kind == b'o' && digits.is_empty(),
    }
}

fn covers_of_closed(set: &LeafSet) -> bool {
    is_cover(set, 0, Direction::new(1, 0, 0), b's', b"1")
        && is_cover(set, 0, Direction::new(-1, 0, 0), b'o', b"")
        && is_cover(set, 7, Direction::new(1, -1, -1), b'c', b"8")
        && is_cover(set, 8, Direction::new(-1, 0, 0), b'f', b"1357")
}

/// Along y and z the second root meets itself.
fn covers_of_periodic(set: &LeafSet) -> bool {
    is_cover(set, 0, Direction::new(-1, 0, 0), b'c', b"8")
        && is_cover(set, 8, Direction::new(-1, 1, 0), b'f', b"15")
        && is_cover(set, 8, Direction::new(1, 1, 1), b'f', b"0")
        && is_cover(set, 8, Direction::new(0, 1, -1), b's', b"8")
}

#[test]
fn places_beside_a_leaf_are_covered(rt: HostRuntime) {
    let closed = leaf_set(rt.alloc(), 2, false, NINE_LEAVES)
        .ok()
        .expect(&rt, "a mesh");
    assert!(rt; covers_of_closed(&closed));
    let periodic = leaf_set(rt.alloc(), 2, true, NINE_LEAVES)
        .ok()
        .expect(&rt, "a mesh");
    assert!(rt; covers_of_periodic(&periodic));
    assert!(rt; Direction::new(0, 0, 0) == None && Direction::new(1, 0, -2) == None);
}
