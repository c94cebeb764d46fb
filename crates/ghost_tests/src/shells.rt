//! Whether the shells of blocks hold the plain samples.
ghost use Rattle.std.specs.Prelude.{◌≡◌, ◌<◌};

use crate::plain_samples::{Cell, length, moved, sample};
use block_fields::Block;
use block_index::Domain;

/// The side of a block of edge `n` with a shell of `depth` on which a coordinate lies that is counted from the first
/// ghost.
fn side(n: u32, depth: u32, u: u32) -> u8
    ensures three { result < 3 }
{
    if u < depth {
        0
    } else if u < depth.wrapping_add(n) {
        1
    } else {
        2
    }
}

/// The coordinate on its side.
fn on_side(n: u32, depth: u32, u: u32) -> u32 {
    match side(n, depth, u) {
        0 => u,
        1 => u.wrapping_sub(depth),
        _ => u.wrapping_sub(depth).wrapping_sub(n),
    }
}

/// How long a side is.
fn side_length(n: u32, depth: u32, side: u8) -> u32 {
    if side == 1 { n } else { depth }
}

/// What the shell of a block holds at coordinates that are counted from the first ghost along each axis, outside the
/// block.
fn ghost_at(block: &Block, field: u8, x: u32, y: u32, z: u32) -> Option<u64> {
    if field >= block.fields() {
        return None;
    }
    let n = u32::from(block.edge());
    let depth = u32::from(block.depth());
    let side_x = side(n, depth, x);
    let side_y = side(n, depth, y);
    let side_z = side(n, depth, z);
    let wide = side_length(n, depth, side_x);
    let high = side_length(n, depth, side_y);
    let row = on_side(n, depth, z)
        .wrapping_mul(high)
        .wrapping_add(on_side(n, depth, y));
    let number = row.wrapping_mul(wide).wrapping_add(on_side(n, depth, x));
    let list = block.ghosts(field, side_x + 3 * side_y + 9 * side_z);
    list.get(number as usize).copied()
}

/// A coordinate of a block at a place along an axis, counted from the axis' length before its first cell.
fn shifted(trees: u16, n: u32, depth: u32, level: u8, at: u16, u: u32) -> u32 {
    length(trees, n, level)
        .wrapping_add(u32::from(at).wrapping_mul(n))
        .wrapping_add(u)
        .wrapping_sub(depth)
}

/// The cell at coordinates that are counted from the first ghost of a block.
fn cell_at(domain: &Domain, block: &Block, x: u32, y: u32, z: u32) -> Cell {
    let n = u32::from(block.edge());
    let depth = u32::from(block.depth());
    let place = block.place();
    let level = place.level();
    let [trees_x, trees_y, trees_z] = domain.array();
    let shifted = Cell {
        level,
        x: shifted(trees_x, n, depth, level, place.x(), x),
        y: shifted(trees_y, n, depth, level, place.y(), y),
        z: shifted(trees_z, n, depth, level, place.z(), z),
    };
    moved(domain, n, shifted)
}

/// Whether one ghost is the sample of its cell.
fn agrees(
    domain: &Domain,
    blocks: &[Block],
    block: &Block,
    field: u8,
    x: u32,
    y: u32,
    z: u32,
) -> bool {
    let plain = sample(blocks, field, cell_at(domain, block, x, y, z));
    plain.is_some() && plain == ghost_at(block, field, x, y, z)
}

/// Whether a coordinate is one of the block's own.
fn is_own(block: &Block, u: u32) -> bool {
    side(u32::from(block.edge()), u32::from(block.depth()), u) == 1
}

/// How many coordinates there are along an axis of a block, with those of its ghosts.
fn wide(block: &Block) -> u32 {
    u32::from(block.edge()).wrapping_add(u32::from(block.depth()).wrapping_mul(2))
}

/// Whether the ghosts of a row are samples.
fn row_agrees(domain: &Domain, blocks: &[Block], block: &Block, field: u8, y: u32, z: u32) -> bool {
    let inside = is_own(block, y) & is_own(block, z);
    for x in 0..wide(block) {
        if !(inside & is_own(block, x)) && !agrees(domain, blocks, block, field, x, y, z) {
            return false;
        }
    }
    true
}

/// Whether the ghosts of a field are samples.
fn field_agrees(domain: &Domain, blocks: &[Block], block: &Block, field: u8) -> bool {
    for z in 0..wide(block) {
        for y in 0..wide(block) {
            if !row_agrees(domain, blocks, block, field, y, z) {
                return false;
            }
        }
    }
    true
}

/// Whether the ghosts of both fields of all blocks are samples.
pub fn all_agree(domain: &Domain, blocks: &[Block]) -> bool {
    for block in blocks {
        let first = field_agrees(domain, blocks, block, 0);
        let second = field_agrees(domain, blocks, block, 1);
        if !(first & second) {
            return false;
        }
    }
    true
}
