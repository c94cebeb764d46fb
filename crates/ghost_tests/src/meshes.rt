//! Meshes by the places that are split, and blocks with amounts that tell leaves, fields and cells apart.
ghost use Rattle.std.specs.Prelude.{◌≡◌, ◌≤◌, ◌<◌, ◌%◌};

use block_fields::Block;
use block_index::{Domain, Place};
use leaf_set::LeafSet;
use std::alloc::Global;

/// A digit.
fn digit(byte: u8) -> u8 {
    byte.wrapping_sub(48)
}

/// The place that is written as four digits: level, x, y, z.
fn place(written: &[u8]) -> Option<Place> {
    match written {
        [level, x, y, z] => Place::new(
            digit(*level),
            u16::from(digit(*x)),
            u16::from(digit(*y)),
            u16::from(digit(*z)),
        ),
        _ => None,
    }
}

/// Adds the children of a place.
fn push_children(places: &mut Vec<Place>, at: Place) -> Option<()> {
    if at.level() >= 6 {
        return None;
    }
    for k in 0..8 {
        places.push(at.child(k)).ok()?;
    }
    Some(())
}

/// The places with one of them split.
fn split(alloc: Global, places: &[Place], at: Place) -> Option<Vec<Place>> {
    let mut next = Vec::new(alloc);
    for place in places {
        if *place == at {
            push_children(&mut next, at)?;
        } else {
            next.push(*place).ok()?;
        }
    }
    Some(next)
}

/// The mesh that comes from the roots by splitting the places that are written, one after another.
pub fn mesh(alloc: Global, domain: Domain, splits: &[u8]) -> Option<LeafSet> {
    let roots = LeafSet::roots(alloc, domain).ok()?;
    let mut places = roots.places().to_vec(alloc).ok()?;
    for written in splits.chunks_exact(4) {
        places = split(alloc, &places, place(written)?)?;
    }
    LeafSet::from_places(alloc, domain, places).ok()
}

/// An amount for a cell of a leaf, at most 1008.
fn amount(leaf: u64, field: u8, cell: u64) -> u64 {
    let mixed = leaf
        .wrapping_mul(331)
        .wrapping_add(u64::from(field).wrapping_mul(97))
        .wrapping_add(cell.wrapping_mul(cell).wrapping_mul(7))
        .wrapping_add(cell.wrapping_mul(13));
    mixed % 1009
}

/// Gives each cell of a list its amount.
fn fill_list(list: &mut [u64], leaf: u64, field: u8) {
    for k in 0..list.len() {
        list[k] = amount(leaf, field, k as u64);
    }
}

/// Gives each cell of a field its amount.
fn fill_field(block: &mut Block, leaf: u64, field: u8) {
    if field < block.fields() {
        fill_list(block.field_mut(field), leaf, field);
    }
}

/// A block of two fields with amounts.
fn block_of(alloc: Global, place: Place, leaf: u64, n: u16, depth: u8) -> Option<Block>
    requires even { n % 2 ≡ 0 }
    requires least { 4 ≤ n }
    requires most { n ≤ 16 }
    requires shallowest { 1 ≤ depth }
    requires deepest { depth ≤ 2 }
{
    let mut block = Block::new(alloc, place, n, 2, depth).ok()?;
    fill_field(&mut block, leaf, 0);
    fill_field(&mut block, leaf, 1);
    Some(block)
}

/// The blocks of all leaves, in order.
pub fn blocks_of(alloc: Global, set: &LeafSet, n: u16, depth: u8) -> Option<Vec<Block>>
    requires even { n % 2 ≡ 0 }
    requires least { 4 ≤ n }
    requires most { n ≤ 16 }
    requires shallowest { 1 ≤ depth }
    requires deepest { depth ≤ 2 }
{
    let mut blocks = Vec::new(alloc);
    for place in set.places() {
        let leaf = blocks.len() as u64;
        blocks.push(block_of(alloc, *place, leaf, n, depth)?).ok()?;
    }
    Some(blocks)
}
