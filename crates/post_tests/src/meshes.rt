//! Meshes of the tests, and the wishes of their leaves.
ghost use Rattle.std.specs.Prelude.{◌≡◌, IfOk, length};

use block_index::{Domain, Place, Wish};
use cello_num::Memory;
use leaf_set::LeafSet;
use std::alloc::Global;

/// One tree, of which the child at the origin is split again.
pub const ONE_TREE: &[u8] = b"200021002010211020012101201121111100101011101001110110111111";

/// A cube of eight trees, of which the one at the origin is split.
pub const EIGHT_TREES: &[u8] = b"100011001010111010011101101111110100001001100001010100110111";

/// The place that is written as four digits: its level and coordinates.
fn place(written: &[u8]) -> Option<Place> {
    match written {
        [level, x, y, z] => Place::new(
            digit(*level),
            coordinate(*x),
            coordinate(*y),
            coordinate(*z),
        ),
        _ => None,
    }
}

fn digit(byte: u8) -> u8 {
    byte.saturating_sub(b'0')
}

fn coordinate(byte: u8) -> u16 {
    u16::from(digit(byte))
}

/// The mesh of written places on a cube of trees with this edge, of which all axes wrap or none.
pub fn mesh(alloc: Global, edge: u16, wraps: bool, finest: u8, written: &[u8]) -> Option<LeafSet> {
    let domain = Domain::new([edge, edge, edge], [wraps, wraps, wraps], finest)?;
    let mut list = Vec::new(alloc);
    for one in written.chunks_exact(4) {
        list.push(place(one)?).ok()?;
    }
    LeafSet::from_places(alloc, domain, list).ok()
}

/// The wishes of so many leaves: the first has this one, and all others wish to coarsen.
pub fn wishes(alloc: Global, first: Wish, count: usize) -> Result<Vec<Wish>, Memory>
    ensures { IfOk result (λ wishes. length wishes.items ≡ count) }
{
    let mut wishes = Vec::new(alloc);
    for k in 0..count {
        wishes.push(if k == 0 { first } else { Wish::Coarsen })?;
    }
    Ok(wishes)
}
