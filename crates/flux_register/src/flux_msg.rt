//! Messages of the flux correction.

use advect::FluxPiece;

/// A start, or the sums of a finer leaf's fluxes.
#[derive(Drop)]
pub enum FluxMsg {
    Start,
    Piece(FluxPiece),
}
