//! Samples by the rules: the amount of the cell itself, the fitting part of the coarser cell, or the sum of the eight
//! finer ones. They are looked for through all blocks, one after another.

use block_fields::Block;
use block_index::Domain;

/// A cell of a level, by its coordinates from the first cell of the domain.
#[derive(Debug, Clone, Copy)]
pub struct Cell {
    pub level: u8,
    pub x: u32,
    pub y: u32,
    pub z: u32,
}

/// A coordinate that lies at most an axis' length before or behind the axis, counted from the length before it: wrapped
/// where the axis is periodic, else moved to the nearest cell of the axis.
fn moved_along(count: u32, wraps: bool, shifted: u32) -> u32 {
    if count == 0 {
        return 0;
    }
    if wraps {
        return shifted % count;
    }
    shifted.max(count).wrapping_sub(count).min(count - 1)
}

/// The same along all axes, for cells of blocks of edge `n`.
pub fn moved(domain: &Domain, n: u32, shifted: Cell) -> Cell {
    let [trees_x, trees_y, trees_z] = domain.array();
    let [wraps_x, wraps_y, wraps_z] = domain.periodic();
    Cell {
        level: shifted.level,
        x: moved_along(length(trees_x, n, shifted.level), wraps_x, shifted.x),
        y: moved_along(length(trees_y, n, shifted.level), wraps_y, shifted.y),
        z: moved_along(length(trees_z, n, shifted.level), wraps_z, shifted.z),
    }
}

/// How many cells of a level an axis of so many trees has.
pub fn length(trees: u16, n: u32, level: u8) -> u32 {
    u32::from(trees)
        .wrapping_mul(n)
        .wrapping_mul(1u32.wrapping_shl(u32::from(level)))
}

/// Whether a coordinate of a block's level lies in the block at a place along an axis.
fn is_in(n: u32, x: u32, at: u16) -> bool {
    n != 0 && x / n == u32::from(at)
}

/// The coordinate in a block.
fn in_block(n: u32, x: u32) -> u32 {
    if n == 0 { 0 } else { x % n }
}

/// The number of a cell in a block's list.
fn number(n: u32, x: u32, y: u32, z: u32) -> usize {
    let row = in_block(n, z).wrapping_mul(n).wrapping_add(in_block(n, y));
    row.wrapping_mul(n).wrapping_add(in_block(n, x)) as usize
}

/// Whether a block holds a cell of its own level.
fn holds(block: &Block, x: u32, y: u32, z: u32) -> bool {
    let n = u32::from(block.edge());
    let place = block.place();
    let along_x = is_in(n, x, place.x());
    let along_y = is_in(n, y, place.y());
    let along_z = is_in(n, z, place.z());
    along_x & along_y & along_z
}

/// The amount of a cell of a block's own level, where the block holds it.
fn own_amount(block: &Block, field: u8, x: u32, y: u32, z: u32) -> Option<u64> {
    if field >= block.fields() || !holds(block, x, y, z) {
        return None;
    }
    let n = u32::from(block.edge());
    block.field(field).get(number(n, x, y, z)).copied()
}

/// Which of its eight parts a cell is: x counts 1, y 2, z 4.
fn child(cell: Cell) -> u64 {
    u64::from(cell.x % 2) + 2 * u64::from(cell.y % 2) + 4 * u64::from(cell.z % 2)
}

/// The part of a coarser cell's amount that falls to the child with a number: an eighth, and one more for the first
/// ones where it doesn't go up.
fn part(q: u64, child: u64) -> u64 {
    if child < q % 8 { q / 8 + 1 } else { q / 8 }
}

/// The sum of the eight finer cells of a cell, where a block holds them.
fn eight(block: &Block, field: u8, cell: Cell) -> Option<u64> {
    let mut sum = 0u64;
    for k in 0..8u32 {
        let x = cell.x.wrapping_mul(2).wrapping_add(k % 2);
        let y = cell.y.wrapping_mul(2).wrapping_add(k / 2 % 2);
        let z = cell.z.wrapping_mul(2).wrapping_add(k / 4);
        sum = sum.wrapping_add(own_amount(block, field, x, y, z)?);
    }
    Some(sum)
}

/// The sample of a cell, where a block holds it.
fn sample_in(block: &Block, field: u8, cell: Cell) -> Option<u64> {
    let level = block.place().level();
    if level == cell.level {
        own_amount(block, field, cell.x, cell.y, cell.z)
    } else if level > cell.level {
        eight(block, field, cell)
    } else {
        let q = own_amount(block, field, cell.x / 2, cell.y / 2, cell.z / 2)?;
        Some(part(q, child(cell)))
    }
}

/// Whether a block's level is that of a cell, or one from it.
fn is_near(block: &Block, cell: Cell) -> bool {
    block.place().level().abs_diff(cell.level) <= 1
}

/// The sample of a cell.
pub fn sample(blocks: &[Block], field: u8, cell: Cell) -> Option<u64> {
    for block in blocks {
        if is_near(block, cell) {
            let found = sample_in(block, field, cell);
            if found.is_some() {
                return found;
            }
        }
    }
    None
}
