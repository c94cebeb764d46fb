//! Filling a piece from its sender's own amounts.
ghost use Rattle.std.specs.Prelude.{◌≡◌, ℕ, ◌^◌, ◌≤◌, length, sum};
ghost use Rattle.block_fields.specs.Blocks.{amounts_of};
ghost use Rattle.ghost_pieces.specs.Pieces.{FitsSize, HasRegion, filled};

use crate::parts::parts_of;
use crate::piece::Piece;
use block_fields::Block;
use block_index::Domain;

/// The amounts of a piece become the samples of its region, out of the sender's own cells. Takes no memory.
pub fn fill_piece(block: &Block, domain: &Domain, piece: &mut Piece)
    requires sender { piece.old.sender ≡ block.now.place }
    requires region { HasRegion domain.now block.now.edge block.now.depth piece.old }
    requires fits { FitsSize block.now.edge block.now.depth (length block.now.amounts) piece.old }
    requires few { (f : ℕ) → sum (amounts_of block.now f) ≤ 2 ^ 42 }
    ensures filled { piece.new ≡ filled domain.now block.now piece.old }
{
    let n = block.edge() as usize;
    let receiver = piece.receiver();
    let sender = piece.sender();
    let parts = parts_of(
        n,
        block.depth() as usize,
        domain,
        receiver,
        piece.direction(),
        sender,
    );
    for f in 0..block.fields() {
        piece.fill_field(
            f as usize,
            block.field(f),
            n,
            receiver.level(),
            sender.level(),
            &parts,
        );
    }
}
