//! Messages of the refresh phase.

use ghost_pieces::Piece;

/// A start, or a piece of the receiver's shell.
#[derive(Drop)]
pub enum RefreshMsg {
    Start,
    Piece(Piece),
}
