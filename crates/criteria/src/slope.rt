//! The wish by the differences across cells. A plane of cells is looked through for the first that is steeper than the
//! lesser threshold, so that each cell costs one comparison. The first plane that has one is looked through once more;
//! from there on only the threshold for refinement counts.
ghost use Rattle.std.specs.Prelude.{◌≡◌, ◌+◌, ◌<◌, ◌≤◌, length, pos};
ghost use Rattle.block_fields.specs.Blocks.{seen_at};
ghost use Rattle.block_index.specs.declared.wish.Wish.TheVariants.{Stay};
ghost use Rattle.params_check.specs.Bounds.{greatest_slope};
ghost use Rattle.params_check.specs.declared.criterion.Test.TheVariants.{Slope};
ghost use Rattle.criteria.specs.Cells.{some_steep};
ghost use Rattle.criteria.specs.Lemmas.CellWishes.{plane_wish, steep_plane, steep_row, wish_below};
ghost use Rattle.criteria.specs.Lemmas.Faces.{AreFaces, AreRows};
ghost use Rattle.criteria.specs.Samples.{IsSmall, before};
ghost use Rattle.criteria.specs.Wishes.{greater};

use crate::cell::{is_refine, is_steep};
use crate::faces::{Faces, faces_of};
use block_fields::Block;
use block_index::Wish;

/// The wish of a block.
pub(crate) fn slope_wish(block: &Block, field: u8, refine: u64, coarsen: u64) -> Wish
    requires field { field < length block.now.amounts }
    requires refine { refine ≤ greatest_slope }
    requires coarsen { coarsen ≤ greatest_slope }
    requires small { IsSmall block.now }
    ensures wish { result ≡ wish_below block.now.edge (plane_wish block.now.edge (seen_at block.now) (Slope field refine coarsen)) }
{
    let faces = faces_of(block, field);
    let mut wish = Wish::Coarsen;
    for z in 0..block.edge() {
        wish = slope_plane(block, &faces, field, refine, coarsen, wish, z);
        if is_refine(wish) {
            return wish;
        }
    }
    wish
}

/// The greater of a wish and that of a plane of cells.
fn slope_plane(
    block: &Block,
    faces: &Faces,
    field: u8,
    refine: u64,
    coarsen: u64,
    wish: Wish,
    z: u16,
) -> Wish
    requires field { field < length block.now.amounts }
    requires faces { AreFaces block.now field faces.now }
    requires refine { refine ≤ greatest_slope }
    requires coarsen { coarsen ≤ greatest_slope }
    requires small { IsSmall block.now }
    requires z { z < block.now.edge }
    ensures wish { result ≡ greater wish (plane_wish block.now.edge (seen_at block.now) (Slope field refine coarsen) z) }
{
    match wish {
        Wish::Coarsen => first_plane(block, faces, field, refine, coarsen, z),
        Wish::Stay => later_plane(block, faces, field, refine, coarsen, z),
        Wish::Refine => Wish::Refine,
    }
}

/// The wish of a plane of cells.
fn first_plane(block: &Block, faces: &Faces, field: u8, refine: u64, coarsen: u64, z: u16) -> Wish
    requires field { field < length block.now.amounts }
    requires faces { AreFaces block.now field faces.now }
    requires refine { refine ≤ greatest_slope }
    requires coarsen { coarsen ≤ greatest_slope }
    requires small { IsSmall block.now }
    requires z { z < block.now.edge }
    ensures wish { result ≡ plane_wish block.now.edge (seen_at block.now) (Slope field refine coarsen) z }
{
    if steep_plane(block, faces, field, refine.min(coarsen), z) {
        later_plane(block, faces, field, refine, coarsen, z)
    } else {
        Wish::Coarsen
    }
}

/// The greater of Stay and the wish of a plane of cells.
fn later_plane(block: &Block, faces: &Faces, field: u8, refine: u64, coarsen: u64, z: u16) -> Wish
    requires field { field < length block.now.amounts }
    requires faces { AreFaces block.now field faces.now }
    requires refine { refine ≤ greatest_slope }
    requires small { IsSmall block.now }
    requires z { z < block.now.edge }
    ensures wish { result ≡ greater Stay (plane_wish block.now.edge (seen_at block.now) (Slope field refine coarsen) z) }
{
    if steep_plane(block, faces, field, refine, z) {
        Wish::Refine
    } else {
        Wish::Stay
    }
}

/// Whether some cell of a plane is steep.
fn steep_plane(block: &Block, faces: &Faces, field: u8, hundredths: u64, z: u16) -> bool
    requires field { field < length block.now.amounts }
    requires faces { AreFaces block.now field faces.now }
    requires hundredths { hundredths ≤ greatest_slope }
    requires small { IsSmall block.now }
    requires z { z < block.now.edge }
    ensures steep { result ≡ steep_plane block.now.edge (seen_at block.now field) hundredths z }
{
    for y in 0..block.edge() {
        let rows = rows_at(block, faces, field, y, z);
        if steep_row(block, &rows, field, hundredths, y, z) {
            return true;
        }
    }
    false
}

/// A row of cells: the samples before it, in it and past it along x, and the rows next to it along y and z.
#[derive(Clone, Copy)]
pub(crate) struct Rows<'a> {
    pub(crate) low: u64,
    pub(crate) high: u64,
    pub(crate) here: &'a [u64],
    pub(crate) low_y: &'a [u64],
    pub(crate) high_y: &'a [u64],
    pub(crate) low_z: &'a [u64],
    pub(crate) high_z: &'a [u64],
}

/// The row of cells at two coordinates.
fn rows_at<'a>(block: &Block, faces: &Faces<'a>, field: u8, y: u16, z: u16) -> Rows<'a>
    requires faces { AreFaces block.now field faces.now }
    requires y { y < block.now.edge }
    requires z { z < block.now.edge }
    ensures rows { AreRows block.now field y z result }
{
    Rows {
        low: faces.low_end(block, field, y, z),
        high: faces.high_end(block, field, y, z),
        here: faces.own_row(block, field, y, z),
        low_y: faces.low_y_row(block, field, y, z),
        high_y: faces.high_y_row(block, field, y, z),
        low_z: faces.low_z_row(block, field, y, z),
        high_z: faces.high_z_row(block, field, y, z),
    }
}

/// Whether some cell of a row is steep.
fn steep_row(block: &Block, rows: &Rows, field: u8, hundredths: u64, y: u16, z: u16) -> bool
    requires field { field < length block.now.amounts }
    requires hundredths { hundredths ≤ greatest_slope }
    requires small { IsSmall block.now }
    requires y { y < block.now.edge }
    requires z { z < block.now.edge }
    requires rows { AreRows block.now field y z rows.now }
    ensures steep { result ≡ steep_row block.now.edge (seen_at block.now field) hundredths y z }
{
    let last = block.edge() as usize - 1;
    let mut left = rows.low;
    let mut here = rows.here[0];
    for x in 0..last {
        let right = rows.here[x + 1];
        if steep_cell(block, rows, field, hundredths, x, y, z, left, here, right) {
            return true;
        }
        left = here;
        here = right;
    }
    steep_cell(
        block, rows, field, hundredths, last, y, z, left, here, rows.high,
    )
}

/// Whether a cell of a row is steep, with the samples before it, in it and past it along x.
fn steep_cell(
    block: &Block,
    rows: &Rows,
    field: u8,
    hundredths: u64,
    x: usize,
    y: u16,
    z: u16,
    left: u64,
    here: u64,
    right: u64,
) -> bool
    requires field { field < length block.now.amounts }
    requires hundredths { hundredths ≤ greatest_slope }
    requires small { IsSmall block.now }
    requires x { x < block.now.edge }
    requires y { y < block.now.edge }
    requires z { z < block.now.edge }
    requires rows { AreRows block.now field y z rows.now }
    requires left { left ≡ seen_at block.now field (before x) (before (y + 1)) (before (z + 1)) }
    requires here { here ≡ seen_at block.now field (pos x) (before (y + 1)) (before (z + 1)) }
    requires right { right ≡ seen_at block.now field (pos (x + 1)) (before (y + 1)) (before (z + 1)) }
    ensures steep { result ≡ some_steep (seen_at block.now field) hundredths x y z }
{
    let across_x = right.abs_diff(left);
    let across_y = rows.high_y[x].abs_diff(rows.low_y[x]);
    let across_z = rows.high_z[x].abs_diff(rows.low_z[x]);
    is_steep(hundredths, here, across_x, across_y, across_z)
}
