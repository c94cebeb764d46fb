//! The ghosts of a block, cell by cell.
ghost use Rattle.std.specs.Prelude.{◌≡◌, ℕ, ◌<◌, length};
ghost use Rattle.block_fields.specs.Blocks.{IsBlock, amounts_of, ghosts_of, seen_at, with_ghost};
ghost use Rattle.block_fields.specs.Shells.{IsAround, direction_of, number_around};

use crate::block::Block;
use crate::shell::spot_at;

impl Block {
    /// What the block holds at coordinates counted from its first cell: the amount of its own cell, or a ghost.
    pub fn sample_at(&self, field: u8, x: i16, y: i16, z: i16) -> u64
        requires field { field < length self.now.amounts }
        requires x { IsAround self.now.edge self.now.depth x }
        requires y { IsAround self.now.edge self.now.depth y }
        requires z { IsAround self.now.edge self.now.depth z }
        ensures seen { result ≡ seen_at self.now field x y z }
        ensures limits { IsBlock self.now }
    {
        let spot = spot_at(self.edge, self.depth, x, y, z);
        if spot.direction == 13 {
            let amounts = self.amounts[field as usize].as_slice();
            amounts[spot.number]
        } else {
            let ghosts = self.ghosts[field as usize].as_slice();
            ghosts[spot.start + spot.number]
        }
    }

    /// The ghost at coordinates outside the block's own cells becomes `q`.
    pub fn set_ghost(&mut self, field: u8, x: i16, y: i16, z: i16, q: u64)
        requires field { field < length self.old.amounts }
        requires x { IsAround self.old.edge self.old.depth x }
        requires y { IsAround self.old.edge self.old.depth y }
        requires z { IsAround self.old.edge self.old.depth z }
        requires outside { direction_of self.old.edge x y z ≡ 13 → ⊥ }
        ensures one_ghost { self.new ≡ with_ghost self.old field x y z q }
    {
        let spot = spot_at(self.edge, self.depth, x, y, z);
        let ghosts = self.ghosts[field as usize].as_mut_slice();
        ghosts[spot.start + spot.number] = q;
    }
}
