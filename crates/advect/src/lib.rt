//! The flow of amounts through the faces of one block.
//!
//! `advance` moves the amounts of a block by its own upwind fluxes and notes those of its outermost faces in
//! `FaceFluxes`. Where a fine block lies beside a coarse one, `reduce` sums the fine fluxes up in a `FluxPiece`, and
//! `correct` puts the sums in place of the coarse block's own fluxes. None of these takes memory but `new`. The
//! definitions stand in `specs/`.
#![tactic(auto)]

mod advancing;
mod correcting;
mod entering;
mod face_fluxes;
mod field_advance;
mod field_step;
mod field_steps;
mod flow;
mod flux_piece;
mod laws;
mod line;
mod pass;
mod passes;
mod reducing;
mod rows;
mod share;
mod sides;
mod step;
mod stream;

pub use advancing::advance;
pub use correcting::correct;
pub use face_fluxes::FaceFluxes;
pub use flux_piece::FluxPiece;
pub use laws::{advanced_blocks, corrected_blocks, own_fluxes};
pub use reducing::reduce;
