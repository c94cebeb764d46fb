//! Filing a piece into its receiver's shell.
ghost use Rattle.std.specs.Prelude.{◌≡◌, ◌+◌, ◌*◌, ◌<◌, ◌≤◌, ◌⊎◌, true, cond, length};
ghost use Rattle.block_fields.specs.Blocks.{IsBlock, ghosts_of, with_ghosts};
ghost use Rattle.block_fields.specs.Shells.{ghost_size, side_length};
ghost use Rattle.ghost_pieces.specs.Regions.{most_regions};
ghost use Rattle.ghost_pieces.specs.Pieces.{FitsSize};
ghost use Rattle.ghost_pieces.specs.Filing.{
  after_filing,
  is_filed,
  listed_box,
  pasted,
  side_of_step,
  with_filed,
  with_piece,
};
ghost use Rattle.ghost_pieces.specs.Lemmas.Rows.{box_of_runs};
ghost use Rattle.ghost_pieces.specs.declared.filing.Filed.TheVariants.{New, Repeat};

use crate::filed_set::{FiledSet, Source};
use crate::pasting::paste;
use crate::piece::Piece;
use crate::spots::{Spot, number_of, spot_of};
use block_fields::Block;

/// Whether a piece's region was filed by this call, or had been before.
#[derive(Debug, Clone, Copy, PartialEq, Eq)]
pub enum Filed {
    New,
    Repeat,
}

/// The amounts of a piece become the ghosts of its region, in all fields, and the region joins the filed ones. Where it
/// is filed already nothing changes. Takes no memory.
pub fn file(block: &mut Block, piece: &Piece, filed: &mut FiledSet) -> Filed
    requires receiver { piece.now.receiver ≡ block.old.place }
    requires fits { FitsSize block.old.edge block.old.depth (length block.old.amounts) piece.now }
    requires room { (length filed.old < most_regions) ⊎ (is_filed filed.old piece.now.region ≡ true) }
    ensures answer { result ≡ cond (is_filed filed.old piece.now.region) Repeat New }
    ensures block { block.new ≡ after_filing filed.old piece.now block.old }
    ensures filed { filed.new ≡ with_filed filed.old piece.now.region }
{
    let source = Source {
        direction: number_of(piece.direction()),
        sender: piece.from(),
    };
    if filed.has(source) {
        return Filed::Repeat;
    }
    file_fields(block, piece);
    filed.add(source);
    Filed::New
}

/// Writes the amounts of a piece into the ghosts of all fields.
fn file_fields(block: &mut Block, piece: &Piece)
    requires receiver { piece.now.receiver ≡ block.old.place }
    requires fits { FitsSize block.old.edge block.old.depth (length block.old.amounts) piece.now }
    ensures filed { block.new ≡ with_piece block.old piece.now }
{
    let number = number_of(piece.direction());
    let spot = spot_of_piece(block, piece);
    for f in 0..block.fields() {
        file_field(block, f, number, &spot, piece.amounts(f as usize));
    }
}

/// The box of a piece's region in the list of its direction.
fn spot_of_piece(block: &Block, piece: &Piece) -> Spot
    requires fits { FitsSize block.now.edge block.now.depth (length block.now.amounts) piece.now }
    ensures wide { result.x.length ≡ side_length block.now.edge block.now.depth (side_of_step piece.now.region.direction.x) }
    ensures high { result.y.length ≡ side_length block.now.edge block.now.depth (side_of_step piece.now.region.direction.y) }
    ensures deep { result.z.length ≡ side_length block.now.edge block.now.depth (side_of_step piece.now.region.direction.z) }
    ensures first_x { result.x.first ≡ (listed_box block.now.edge block.now.depth piece.now.receiver piece.now.region.direction piece.now.sender).x.first }
    ensures first_y { result.y.first ≡ (listed_box block.now.edge block.now.depth piece.now.receiver piece.now.region.direction piece.now.sender).y.first }
    ensures first_z { result.z.first ≡ (listed_box block.now.edge block.now.depth piece.now.receiver piece.now.region.direction piece.now.sender).z.first }
    ensures count_x { result.x.count ≡ (listed_box block.now.edge block.now.depth piece.now.receiver piece.now.region.direction piece.now.sender).x.count }
    ensures count_y { result.y.count ≡ (listed_box block.now.edge block.now.depth piece.now.receiver piece.now.region.direction piece.now.sender).y.count }
    ensures count_z { result.z.count ≡ (listed_box block.now.edge block.now.depth piece.now.receiver piece.now.region.direction piece.now.sender).z.count }
    ensures within_x { 0 < result.x.count → result.x.first + result.x.count ≤ result.x.length }
    ensures within_y { 0 < result.y.count → result.y.first + result.y.count ≤ result.y.length }
    ensures within_z { 0 < result.z.count → result.z.first + result.z.count ≤ result.z.length }
    ensures short_x { result.x.length ≤ 16 }
    ensures short_y { result.y.length ≤ 16 }
    ensures short_z { result.z.length ≤ 16 }
    ensures limits { IsBlock block.now }
{
    spot_of(
        block.edge(),
        block.depth(),
        piece.receiver(),
        piece.direction(),
        piece.sender(),
    )
}

/// Writes the amounts of a region of a field.
fn file_field(block: &mut Block, field: u8, number: u8, spot: &Spot, amounts: &[u64])
    requires field { field < length block.old.amounts }
    requires number { number < 27 }
    requires x { spot.now.x.first + spot.now.x.count ≤ spot.now.x.length }
    requires y { spot.now.y.first + spot.now.y.count ≤ spot.now.y.length }
    requires z { spot.now.z.first + spot.now.z.count ≤ spot.now.z.length }
    requires some_x { 0 < spot.now.x.count }
    requires some_y { 0 < spot.now.y.count }
    requires short_x { spot.now.x.length ≤ 16 }
    requires short_y { spot.now.y.length ≤ 16 }
    requires short_z { spot.now.z.length ≤ 16 }
    requires list { spot.now.z.length * spot.now.y.length * spot.now.x.length ≡ ghost_size block.old.edge block.old.depth number }
    requires amounts { length amounts.now ≡ spot.now.z.count * spot.now.y.count * spot.now.x.count }
    ensures filed { block.new ≡ with_ghosts block.old field number (pasted spot.now.x.length spot.now.y.length (box_of_runs spot.now.x.first spot.now.x.count spot.now.y.first spot.now.y.count spot.now.z.first spot.now.z.count) amounts.now (ghosts_of block.old field number)) }
{
    // Every block is within the limits of blocks.
    let fields = block.fields();
    prove!(field < fields);
    paste(block.ghosts_mut(field, number), spot, amounts);
}
