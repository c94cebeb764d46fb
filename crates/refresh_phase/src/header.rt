//! The names of pieces.

ghost use Rattle.std.specs.Prelude.{◌≡◌, IfOk, map};
ghost use Rattle.refresh_phase.specs.Cells.{header};

use block_index::Place;
use cello_neighbours::Direction;
use cello_num::Memory;
use ghost_pieces::Piece;
use std::alloc::Global;
use std::marker::Model;

/// What a piece is of, without its amounts.
#[derive(Drop)]
pub(crate) struct Header {
    to: u32,
    from: u32,
    receiver: Place,
    sender: Place,
    direction: Direction,
}

impl Model for Header {
    ghost use Rattle.std.specs.Prelude.{[]};
    ghost use Rattle.ghost_pieces.specs.Pieces.{PieceState};

    ghost Value = { PieceState };

    ghost view = { λ h. record { region = record { receiver = h.to; sender = h.from; direction = h.direction }; receiver = h.receiver; sender = h.sender; amounts = [] } };
}

impl Header {
    /// The header of a piece.
    pub(crate) fn of(piece: &Piece) -> Header
        ensures { result ≡ header piece.now }
    {
        Header {
            to: piece.to(),
            from: piece.from(),
            receiver: piece.receiver(),
            sender: piece.sender(),
            direction: piece.direction(),
        }
    }
}

/// The headers of pieces.
pub(crate) fn headers(alloc: Global, pieces: &[Piece]) -> Result<Vec<Header>, Memory>
    ensures { IfOk result (λ headers. headers.items ≡ map header pieces.now) }
{
    let mut headers = Vec::with_capacity(alloc, pieces.len())?;
    for piece in pieces {
        headers.push(Header::of(piece))?;
    }
    Ok(headers)
}
