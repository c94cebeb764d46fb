//! The rows along x in a block and next to it. A row is named by two coordinates that are counted from one before the
//! block's first cell.
ghost use Rattle.std.specs.Prelude.{◌≡◌, ℕ, ◌+◌, ◌*◌, ◌<◌, ◌≤◌, length, pos};
ghost use Rattle.block_fields.specs.Blocks.{IsBlock, seen_at};
ghost use Rattle.block_fields.specs.Shells.{position_of, side_length, side_of};
ghost use Rattle.criteria.specs.Lemmas.Rows.{HoldsCells, HoldsMiddle, HoldsRow, box_size, cells_toward, row_number, row_side};
ghost use Rattle.criteria.specs.Samples.{before};

use block_fields::Block;

/// Room for the longest row: 16 cells and one at each end.
pub(crate) const LONGEST: usize = 18;

/// Where a coordinate lies along an axis.
#[derive(Clone, Copy)]
struct Along {
    side: usize,
    position: usize,
    cells: usize,
}

/// The side of a coordinate, its position there, and how many cells stand on that side.
fn place_along(n: u16, depth: u8, u: u16) -> Along
    requires some { 1 ≤ n }
    requires most { n ≤ 16 }
    requires shallowest { 1 ≤ depth }
    requires within { u < n + 2 }
    ensures side { result.side ≡ side_of n (before u) }
    ensures position { result.position ≡ position_of n depth (before u) }
    ensures cells { result.cells ≡ side_length n depth (side_of n (before u)) }
    ensures sides { side_of n (before u) < 3 }
    ensures below { position_of n depth (before u) < side_length n depth (side_of n (before u)) }
{
    if u == 0 {
        let depth = depth as usize;
        Along {
            side: 0,
            position: depth - 1,
            cells: depth,
        }
    } else if u <= n {
        Along {
            side: 1,
            position: (u - 1) as usize,
            cells: n as usize,
        }
    } else {
        Along {
            side: 2,
            position: 0,
            cells: depth as usize,
        }
    }
}

/// A row: its side, its number among those of the side.
#[derive(Clone, Copy)]
struct Row {
    side: usize,
    number: usize,
}

/// The row at two coordinates.
fn row_of(n: u16, depth: u8, y: u16, z: u16) -> Row
    requires some { 1 ≤ n }
    requires most { n ≤ 16 }
    requires shallowest { 1 ≤ depth }
    requires deepest { depth ≤ 2 }
    requires y { y < n + 2 }
    requires z { z < n + 2 }
    ensures side { result.side ≡ row_side n y z }
    ensures few_sides { row_side n y z < 9 }
    ensures number { result.number ≡ row_number n depth y z }
    ensures within { (x : ℕ) → x < 3 → (row_number n depth y z + 1) * side_length n depth x ≤ box_size n depth (x + 3 * row_side n y z) }
    ensures few { row_number n depth y z < 256 }
{
    let a = place_along(n, depth, y);
    let b = place_along(n, depth, z);
    Row {
        side: a.side + 3 * b.side,
        number: b.position * a.cells + a.position,
    }
}

/// The cells of a direction, the block's own among them.
pub(crate) fn cells_toward(block: &Block, field: u8, direction: u8) -> &[u64]
    requires field { field < length block.now.amounts }
    requires direction { direction < 27 }
    ensures cells { result.now ≡ cells_toward block.now field direction }
    ensures size { length result.now ≡ box_size block.now.edge block.now.depth direction }
{
    if direction == 13 {
        block.field(field)
    } else {
        block.ghosts(field, direction)
    }
}

/// The cells of the block's own columns in a row, by the list of its side and its number there.
pub(crate) fn row_in<'a>(
    block: &Block,
    cells: &'a [u64],
    field: u8,
    y: u16,
    z: u16,
    number: usize,
) -> &'a [u64]
    requires y { y < block.now.edge + 2 }
    requires z { z < block.now.edge + 2 }
    requires cells { HoldsCells block.now field (1 + 3 * row_side block.now.edge y z) cells.now }
    requires number { number ≡ row_number block.now.edge block.now.depth y z }
    ensures row { HoldsMiddle block.now field y z result.now }
{
    let n = block.edge() as usize;
    let start = number * n;
    &cells[start..start + n]
}

/// The cells of the block's own columns in a row.
fn middle_of(block: &Block, field: u8, y: u16, z: u16) -> &[u64]
    requires field { field < length block.now.amounts }
    requires y { y < block.now.edge + 2 }
    requires z { z < block.now.edge + 2 }
    ensures row { HoldsMiddle block.now field y z result.now }
{
    let row = row_of(block.edge(), block.depth(), y, z);
    let cells = cells_toward(block, field, (1 + 3 * row.side) as u8);
    row_in(block, cells, field, y, z, row.number)
}

/// The cell before the block's own columns in a row.
fn low_end(block: &Block, field: u8, y: u16, z: u16) -> u64
    requires field { field < length block.now.amounts }
    requires y { y < block.now.edge + 2 }
    requires z { z < block.now.edge + 2 }
    ensures seen { result ≡ seen_at block.now field (before 0) (before y) (before z) }
{
    let depth = block.depth();
    let row = row_of(block.edge(), depth, y, z);
    let cells = cells_toward(block, field, (3 * row.side) as u8);
    cells[row.number * depth as usize + (depth as usize - 1)]
}

/// The cell past the block's own columns in a row.
fn high_end(block: &Block, field: u8, y: u16, z: u16) -> u64
    requires field { field < length block.now.amounts }
    requires y { y < block.now.edge + 2 }
    requires z { z < block.now.edge + 2 }
    ensures seen { result ≡ seen_at block.now field (pos block.now.edge) (before y) (before z) }
{
    let depth = block.depth();
    let row = row_of(block.edge(), depth, y, z);
    let cells = cells_toward(block, field, (2 + 3 * row.side) as u8);
    cells[row.number * depth as usize]
}

/// A row, from the cell before the block's own columns to the one past them.
pub(crate) fn row_at(block: &Block, field: u8, y: u16, z: u16) -> [u64; LONGEST]
    requires field { field < length block.now.amounts }
    requires y { y < block.now.edge + 2 }
    requires z { z < block.now.edge + 2 }
    ensures row { HoldsRow block.now field y z result }
    ensures limits { IsBlock block.now }
{
    let n = block.edge() as usize;
    let middle = middle_of(block, field, y, z);
    let mut row = [0; LONGEST];
    row[0] = low_end(block, field, y, z);
    for x in 0..n {
        row[x + 1] = middle[x];
    }
    row[n + 1] = high_end(block, field, y, z);
    row
}
