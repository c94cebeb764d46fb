//! The lists of a block, lent as slices.
ghost use Rattle.std.specs.Prelude.{◌≡◌, ℕ, ◌*◌, ◌<◌, ◌≤◌, length, slice_range};
ghost use Rattle.std.specs.Borrow.{sem};
ghost use Rattle.block_fields.specs.Blocks.{IsBlock, amounts_of, before_of, exchanged, ghosts_of};
ghost use Rattle.block_fields.specs.Lending.{LendsField, LendsGhosts};
ghost use Rattle.block_fields.specs.Shells.{ghost_size};

use crate::block::Block;
use crate::shell::{Stretch, stretch_of};
use std_alloc::vec::run_mut;

/// A stretch of a list.
pub(crate) fn part_of(list: &[u64], start: usize, end: usize) -> &[u64]
    requires order { start ≤ end }
    requires within { end ≤ length list.now }
    ensures part { result.now ≡ slice_range list.now start end }
{
    &list[start..end]
}

impl Block {
    /// A field's amounts, x fastest, then y, then z.
    pub fn field(&self, field: u8) -> &[u64]
        requires field { field < length self.now.amounts }
        ensures amounts { result.now ≡ amounts_of self.now field }
        ensures cells { length result.now ≡ self.now.edge * self.now.edge * self.now.edge }
        ensures limits { IsBlock self.now }
    {
        self.amounts[field as usize].as_slice()
    }

    /// The second copy of a field's amounts.
    pub fn before(&self, field: u8) -> &[u64]
        requires field { field < length self.now.amounts }
        ensures before { result.now ≡ before_of self.now field }
        ensures cells { length result.now ≡ self.now.edge * self.now.edge * self.now.edge }
        ensures limits { IsBlock self.now }
    {
        self.before[field as usize].as_slice()
    }

    /// A field's amounts, for writing.
    pub fn field_mut(&mut self, field: u8) -> &mut [u64]
        requires field { field < length self.old.amounts }
        ensures* writes_back { sem 𝓛 (LendsField self.entry field result) }
        ensures amounts { result.now ≡ amounts_of self.old field }
        ensures cells { length result.now ≡ self.old.edge * self.old.edge * self.old.edge }
    {
        self.amounts[field as usize].as_mut_slice()
    }

    /// A field's ghosts in a direction, x fastest. Of the 27 directions, by the sides along x, then y, then z, number
    /// 13 is the block itself and has none.
    pub fn ghosts(&self, field: u8, direction: u8) -> &[u64]
        requires field { field < length self.now.amounts }
        requires direction { direction < 27 }
        ensures ghosts { result.now ≡ ghosts_of self.now field direction }
        ensures size { length result.now ≡ ghost_size self.now.edge self.now.depth direction }
        ensures limits { IsBlock self.now }
    {
        let Stretch { start, end } = stretch_of(self.edge, self.depth, direction);
        part_of(self.ghosts[field as usize].as_slice(), start, end)
    }

    /// A field's ghosts in a direction, for writing.
    pub fn ghosts_mut(&mut self, field: u8, direction: u8) -> &mut [u64]
        requires field { field < length self.old.amounts }
        requires direction { direction < 27 }
        ensures* writes_back { sem 𝓛 (LendsGhosts self.entry field direction result) }
        ensures ghosts { result.now ≡ ghosts_of self.old field direction }
        ensures size { length result.now ≡ ghost_size self.old.edge self.old.depth direction }
    {
        let Stretch { start, end } = stretch_of(self.edge, self.depth, direction);
        run_mut(&mut self.ghosts[field as usize], start, end)
    }

    /// Exchanges a field's amounts with their second copy. Nothing is copied.
    pub fn exchange(&mut self, field: u8)
        requires field { field < length self.old.amounts }
        ensures exchanged { self.new ≡ exchanged self.old field }
    {
        let f = field as usize;
        std::mem::swap(&mut self.amounts[f], &mut self.before[f]);
    }
}
