//! The lists of a block that hold its own cells and those next to its six sides, and the rows in them.
ghost use Rattle.std.specs.Prelude.{◌≡◌, ◌+◌, ◌<◌, length, pos};
ghost use Rattle.block_fields.specs.Blocks.{seen_at};
ghost use Rattle.criteria.specs.Lemmas.Faces.{AreFaces};
ghost use Rattle.criteria.specs.Lemmas.Rows.{HoldsMiddle};
ghost use Rattle.criteria.specs.Samples.{before};

use crate::row::{cells_toward, row_in};
use block_fields::Block;

/// A field's own amounts, and its ghosts next to each side: before the block and past it, along x, y and z. They are
/// found once a block.
#[derive(Clone, Copy)]
pub(crate) struct Faces<'a> {
    pub(crate) own: &'a [u64],
    pub(crate) low_x: &'a [u64],
    pub(crate) high_x: &'a [u64],
    pub(crate) low_y: &'a [u64],
    pub(crate) high_y: &'a [u64],
    pub(crate) low_z: &'a [u64],
    pub(crate) high_z: &'a [u64],
}

/// The lists of a field of a block.
pub(crate) fn faces_of(block: &Block, field: u8) -> Faces<'_>
    requires field { field < length block.now.amounts }
    ensures faces { AreFaces block.now field result }
{
    Faces {
        own: cells_toward(block, field, 13),
        low_x: cells_toward(block, field, 12),
        high_x: cells_toward(block, field, 14),
        low_y: cells_toward(block, field, 10),
        high_y: cells_toward(block, field, 16),
        low_z: cells_toward(block, field, 4),
        high_z: cells_toward(block, field, 22),
    }
}

impl<'a> Faces<'a> {
    /// The row of the block's own cells at two coordinates.
    pub(crate) fn own_row(&self, block: &Block, field: u8, y: u16, z: u16) -> &'a [u64]
        requires faces { AreFaces block.now field self.now }
        requires y { y < block.now.edge }
        requires z { z < block.now.edge }
        ensures row { HoldsMiddle block.now field (y + 1) (z + 1) result.now }
    {
        let n = block.edge();
        let number = z as usize * n as usize + y as usize;
        row_in(block, self.own, field, y + 1, z + 1, number)
    }

    /// The row before it along y.
    pub(crate) fn low_y_row(&self, block: &Block, field: u8, y: u16, z: u16) -> &'a [u64]
        requires faces { AreFaces block.now field self.now }
        requires y { y < block.now.edge }
        requires z { z < block.now.edge }
        ensures row { HoldsMiddle block.now field y (z + 1) result.now }
    {
        if y == 0 {
            let depth = block.depth() as usize;
            let number = z as usize * depth + (depth - 1);
            row_in(block, self.low_y, field, 0, z + 1, number)
        } else {
            self.own_row(block, field, y - 1, z)
        }
    }

    /// The row past it along y.
    pub(crate) fn high_y_row(&self, block: &Block, field: u8, y: u16, z: u16) -> &'a [u64]
        requires faces { AreFaces block.now field self.now }
        requires y { y < block.now.edge }
        requires z { z < block.now.edge }
        ensures row { HoldsMiddle block.now field (y + 2) (z + 1) result.now }
    {
        let n = block.edge();
        if y + 1 == n {
            let number = z as usize * block.depth() as usize;
            row_in(block, self.high_y, field, n + 1, z + 1, number)
        } else {
            self.own_row(block, field, y + 1, z)
        }
    }

    /// The row before it along z.
    pub(crate) fn low_z_row(&self, block: &Block, field: u8, y: u16, z: u16) -> &'a [u64]
        requires faces { AreFaces block.now field self.now }
        requires y { y < block.now.edge }
        requires z { z < block.now.edge }
        ensures row { HoldsMiddle block.now field (y + 1) z result.now }
    {
        if z == 0 {
            let n = block.edge() as usize;
            let number = (block.depth() as usize - 1) * n + y as usize;
            row_in(block, self.low_z, field, y + 1, 0, number)
        } else {
            self.own_row(block, field, y, z - 1)
        }
    }

    /// The row past it along z.
    pub(crate) fn high_z_row(&self, block: &Block, field: u8, y: u16, z: u16) -> &'a [u64]
        requires faces { AreFaces block.now field self.now }
        requires y { y < block.now.edge }
        requires z { z < block.now.edge }
        ensures row { HoldsMiddle block.now field (y + 1) (z + 2) result.now }
    {
        let n = block.edge();
        if z + 1 == n {
            row_in(block, self.high_z, field, y + 1, n + 1, y as usize)
        } else {
            self.own_row(block, field, y, z + 1)
        }
    }

    /// The cell before the row.
    pub(crate) fn low_end(&self, block: &Block, field: u8, y: u16, z: u16) -> u64
        requires faces { AreFaces block.now field self.now }
        requires y { y < block.now.edge }
        requires z { z < block.now.edge }
        ensures seen { result ≡ seen_at block.now field (before 0) (before (y + 1)) (before (z + 1)) }
    {
        let n = block.edge() as usize;
        let depth = block.depth() as usize;
        self.low_x[(z as usize * n + y as usize) * depth + (depth - 1)]
    }

    /// The cell past the row.
    pub(crate) fn high_end(&self, block: &Block, field: u8, y: u16, z: u16) -> u64
        requires faces { AreFaces block.now field self.now }
        requires y { y < block.now.edge }
        requires z { z < block.now.edge }
        ensures seen { result ≡ seen_at block.now field (pos block.now.edge) (before (y + 1)) (before (z + 1)) }
    {
        let n = block.edge() as usize;
        let depth = block.depth() as usize;
        self.high_x[(z as usize * n + y as usize) * depth]
    }
}
