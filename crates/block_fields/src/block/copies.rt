//! Both copies of a field at once, for a step that reads one and writes the other.
ghost use Rattle.std.specs.Prelude.{◌≡◌, ℕ, ◌*◌, ◌<◌, ◌≤◌, length, slice_index_or, []};
ghost use Rattle.std.specs.Borrow.{sem};
ghost use Rattle.block_fields.specs.Blocks.{amounts_of, before_of, shell_of};
ghost use Rattle.block_fields.specs.Layout.{cut};
ghost use Rattle.block_fields.specs.Lending.{LendsBefore};
ghost use Rattle.block_fields.specs.Shells.{ghost_count, ghost_size, ghost_sizes};

use crate::block::Block;
use crate::block::slices::part_of;
use crate::shell::{Stretch, stretch_of};

/// A field's amounts and all its ghosts, direction after direction, for reading; the second copy for writing.
#[derive(Drop)]
pub struct Copies<'a> {
    pub amounts: &'a [u64],
    pub ghosts: &'a [u64],
    pub before: &'a mut [u64],
}

impl Block {
    /// Both copies of a field, and its ghosts. After a step that writes the second copy, `exchange` makes it the
    /// field's amounts.
    pub fn copies(&mut self, field: u8) -> Copies<'_>
        requires field { field < length self.old.amounts }
        ensures* writes_back { sem 𝓛 (LendsBefore self.entry field result.before) }
        ensures amounts { result.amounts.now ≡ amounts_of self.old field }
        ensures before { result.before.now ≡ before_of self.old field }
        ensures ghosts { cut (ghost_sizes self.old.edge self.old.depth) result.ghosts.now ≡ shell_of self.old field }
        ensures cells { length result.amounts.now ≡ self.old.edge * self.old.edge * self.old.edge }
        ensures same_cells { length result.before.now ≡ self.old.edge * self.old.edge * self.old.edge }
        ensures all_ghosts { length result.ghosts.now ≡ ghost_count self.old.edge self.old.depth }
    {
        let f = field as usize;
        Copies {
            amounts: self.amounts[f].as_slice(),
            ghosts: self.ghosts[f].as_slice(),
            before: self.before[f].as_mut_slice(),
        }
    }
}

/// Of all ghosts of a field, as `copies` lends them, those in a direction.
pub fn ghosts_toward(ghosts: &[u64], n: u16, depth: u8, direction: u8) -> &[u64]
    requires most { n ≤ 16 }
    requires deepest { depth ≤ 2 }
    requires direction { direction < 27 }
    requires all { length ghosts.now ≡ ghost_count n depth }
    ensures ghosts { result.now ≡ slice_index_or (cut (ghost_sizes n depth) ghosts.now) direction [] }
    ensures size { length result.now ≡ ghost_size n depth direction }
{
    let Stretch { start, end } = stretch_of(n, depth, direction);
    part_of(ghosts, start, end)
}
