//! Where the ghosts of a field lie: 26 boxes around the block, one after another.
ghost use Rattle.std.specs.Prelude.{◌≡◌, ℕ, ◌+◌, ◌*◌, ◌<◌, ◌≤◌};
ghost use Rattle.block_fields.specs.Layout.{cells_before};
ghost use Rattle.block_fields.specs.Shells.{
  IsAround,
  direction,
  direction_of,
  ghost_count,
  ghost_size,
  ghost_start,
  number_around,
  position_of,
  side_length,
  side_of,
};

/// Where a coordinate lies along an axis: on which side of the block, and its position among the cells there.
#[derive(Clone, Copy)]
pub(crate) struct Along {
    pub(crate) side: usize,
    pub(crate) position: usize,
}

/// The side of a coordinate, and its position there.
pub(crate) fn place_along(n: u16, depth: u8, x: i16) -> Along
    requires around { IsAround n depth x }
    ensures side { result.side ≡ side_of n x }
    ensures position { result.position ≡ position_of n depth x }
    ensures sides { result.side < 3 }
    ensures within { result.position < side_length n depth result.side }
{
    let u = x.unsigned_abs();
    if x < 0 {
        Along {
            side: 0,
            position: (u16::from(depth) - u) as usize,
        }
    } else if u < n {
        Along {
            side: 1,
            position: u as usize,
        }
    } else {
        Along {
            side: 2,
            position: (u - n) as usize,
        }
    }
}

/// How many cells stand on a side.
pub(crate) fn side_length(n: u16, depth: u8, side: usize) -> usize
    ensures length { result ≡ side_length n depth side }
{
    if side == 1 {
        n as usize
    } else {
        depth as usize
    }
}

/// How many cells stand on the sides before a side.
fn cells_before(n: u16, depth: u8, side: usize) -> usize
    requires side { side < 3 }
    ensures before { result ≡ cells_before n depth side }
{
    match side {
        0 => 0,
        1 => depth as usize,
        _ => depth as usize + n as usize,
    }
}

/// How many ghosts of a field come before those of the direction with three sides.
pub(crate) fn ghost_start(n: u16, depth: u8, x: usize, y: usize, z: usize) -> usize
    requires most { n ≤ 16 }
    requires deepest { depth ≤ 2 }
    requires x { x < 3 }
    requires y { y < 3 }
    requires z { z < 3 }
    ensures start { result ≡ ghost_start n depth (direction x y z) }
{
    let width = n as usize + 2 * depth as usize;
    let planes = cells_before(n, depth, z) * width * width;
    let rows = side_length(n, depth, z) * cells_before(n, depth, y) * width;
    let cells = side_length(n, depth, z) * side_length(n, depth, y) * cells_before(n, depth, x);
    let all = planes + rows + cells;
    if x + 3 * y + 9 * z > 13 {
        all - n as usize * n as usize * n as usize
    } else {
        all
    }
}

/// Where a cell in a block or around it lies: its direction, how many ghosts come before those of this direction, and
/// the number of the cell in the direction's box.
#[derive(Clone, Copy)]
pub(crate) struct Spot {
    pub(crate) direction: usize,
    pub(crate) start: usize,
    pub(crate) number: usize,
}

/// The spot of the cell at three coordinates.
pub(crate) fn spot_at(n: u16, depth: u8, x: i16, y: i16, z: i16) -> Spot
    requires most { n ≤ 16 }
    requires deepest { depth ≤ 2 }
    requires x { IsAround n depth x }
    requires y { IsAround n depth y }
    requires z { IsAround n depth z }
    ensures below { result.direction < 27 }
    ensures direction { result.direction ≡ direction_of n x y z }
    ensures start { result.start ≡ ghost_start n depth (direction_of n x y z) }
    ensures number { result.number ≡ number_around n depth x y z }
    ensures own { result.direction ≡ 13 → result.number < n * n * n }
    ensures ghost_there { (result.direction ≡ 13 → ⊥) → result.number < ghost_size n depth (direction_of n x y z) }
    ensures most { ghost_count n depth ≤ 8000 }
    ensures within { (result.direction ≡ 13 → ⊥) → result.start + result.number < ghost_count n depth }
{
    let a = place_along(n, depth, x);
    let b = place_along(n, depth, y);
    let c = place_along(n, depth, z);
    let rows = c.position * side_length(n, depth, b.side) + b.position;
    Spot {
        direction: a.side + 3 * b.side + 9 * c.side,
        start: ghost_start(n, depth, a.side, b.side, c.side),
        number: rows * side_length(n, depth, a.side) + a.position,
    }
}

/// Where the ghosts of a direction lie among those of a field.
#[derive(Clone, Copy)]
pub(crate) struct Stretch {
    pub(crate) start: usize,
    pub(crate) end: usize,
}

/// The stretch of a direction.
pub(crate) fn stretch_of(n: u16, depth: u8, direction: u8) -> Stretch
    requires most { n ≤ 16 }
    requires deepest { depth ≤ 2 }
    requires direction { direction < 27 }
    ensures start { result.start ≡ ghost_start n depth direction }
    ensures end { result.end ≡ ghost_start n depth direction + ghost_size n depth direction }
    ensures within { result.end ≤ ghost_count n depth }
    ensures most { result.end ≤ 8000 }
{
    let d = direction as usize;
    let start = ghost_start(n, depth, d % 3, d / 3 % 3, d / 9);
    Stretch {
        start,
        end: start + ghost_size(n, depth, d),
    }
}

/// How many ghosts a direction has.
fn ghost_size(n: u16, depth: u8, d: usize) -> usize
    requires direction { d < 27 }
    requires most { n ≤ 16 }
    requires deepest { depth ≤ 2 }
    ensures size { result ≡ ghost_size n depth d }
{
    if d == 13 {
        return 0;
    }
    side_length(n, depth, d % 3) * side_length(n, depth, d / 3 % 3) * side_length(n, depth, d / 9)
}

/// How many ghosts a field has.
pub(crate) fn ghost_count(n: u16, depth: u8) -> usize
    requires most { n ≤ 16 }
    requires deepest { depth ≤ 2 }
    ensures count { result ≡ ghost_count n depth }
    ensures most { result ≤ 8000 }
{
    let width = n as usize + 2 * depth as usize;
    width * width * width - n as usize * n as usize * n as usize
}
