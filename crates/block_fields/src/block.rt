//! Blocks: the amounts of the cells of one place, their second copy, and the ghosts around them.
ghost use Rattle.std.specs.Prelude.{◌≡◌, ℕ, ◌+◌, ◌*◌, ◌%◌, ◌^◌, ◌<◌, ◌≤◌, IfOk, length, sum};
ghost use Rattle.block_fields.specs.Blocks.{
  IsBlock,
  amount_at,
  amounts_of,
  number_at,
  with_amount,
  zero_block,
};

mod copies;
mod ghosts;
mod made;
mod slices;

use block_index::Place;
pub use copies::{Copies, ghosts_toward};
use std::marker::Model;

/// The cells of a block with their ghosts. For each field it holds two lists of amounts, which are exchanged without
/// copying, and one list of ghosts, direction after direction.
#[derive(Drop)]
pub struct Block {
    place: Place,
    edge: u16,
    depth: u8,
    amounts: Vec<Vec<u64>>,
    before: Vec<Vec<u64>>,
    ghosts: Vec<Vec<u64>>,
}

impl Model for Block {
    ghost use Rattle.std.specs.Prelude.{map};
    ghost use Rattle.block_fields.specs.Blocks.{BlockState};
    ghost use Rattle.block_fields.specs.Layout.{IsLaidOut, laid_out};

    ghost Value = { BlockState };

    ghost view = { λ b. laid_out b.place b.edge b.depth (map (λ v. v.items) b.amounts.items) (map (λ v. v.items) b.before.items) (map (λ v. v.items) b.ghosts.items) };

    ghost invariant = { λ b. IsLaidOut b.edge b.depth (map (λ v. v.items) b.amounts.items) (map (λ v. v.items) b.before.items) (map (λ v. v.items) b.ghosts.items) };
}

impl Block {
    /// The place of the block.
    pub fn place(&self) -> Place
        ensures place { result ≡ self.now.place }
        ensures limits { IsBlock self.now }
    {
        self.place
    }

    /// How many cells stand along an edge.
    pub fn edge(&self) -> u16
        ensures edge { result ≡ self.now.edge }
        ensures limits { IsBlock self.now }
    {
        self.edge
    }

    /// How many fields there are.
    pub fn fields(&self) -> u8
        ensures fields { result ≡ length self.now.amounts }
        ensures limits { IsBlock self.now }
    {
        self.amounts.len() as u8
    }

    /// How many cells deep the shell of ghosts is.
    pub fn depth(&self) -> u8
        ensures depth { result ≡ self.now.depth }
        ensures limits { IsBlock self.now }
    {
        self.depth
    }

    /// The amount of a cell.
    pub fn amount(&self, field: u8, x: u16, y: u16, z: u16) -> u64
        requires field { field < length self.now.amounts }
        requires x { x < self.now.edge }
        requires y { y < self.now.edge }
        requires z { z < self.now.edge }
        ensures amount { result ≡ amount_at self.now field x y z }
        ensures limits { IsBlock self.now }
    {
        let at = self.number(x, y, z);
        let amounts = self.amounts[field as usize].as_slice();
        amounts[at]
    }

    /// The amount of a cell becomes `q`.
    pub fn set_amount(&mut self, field: u8, x: u16, y: u16, z: u16, q: u64)
        requires field { field < length self.old.amounts }
        requires x { x < self.old.edge }
        requires y { y < self.old.edge }
        requires z { z < self.old.edge }
        ensures one_cell { self.new ≡ with_amount self.old field x y z q }
    {
        let at = self.number(x, y, z);
        let amounts = self.amounts[field as usize].as_mut_slice();
        amounts[at] = q;
    }

    /// The sum of a field's amounts, ghosts not counted.
    pub fn total(&self, field: u8) -> u64
        requires field { field < length self.now.amounts }
        requires fits { sum (amounts_of self.now field) ≤ 2 ^ 42 }
        ensures sum { result ≡ sum (amounts_of self.now field) }
    {
        self.amounts[field as usize].iter().sum()
    }

    /// The number of a cell among a field's amounts.
    fn number(&self, x: u16, y: u16, z: u16) -> usize
        requires x { x < self.now.edge }
        requires y { y < self.now.edge }
        requires z { z < self.now.edge }
        ensures number { result ≡ number_at self.now.edge x y z }
        ensures within { result < self.now.edge * self.now.edge * self.now.edge }
        ensures limits { IsBlock self.now }
    {
        let n = self.edge as usize;
        (z as usize * n + y as usize) * n + x as usize
    }
}
