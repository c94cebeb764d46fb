//! Ghost pieces: what carries the samples around a block from the leaves that hold them into its shell of ghosts.
//!
//! The ghosts of a leaf fall into regions: those in one direction whose samples one leaf holds. `empty_pieces` makes a
//! `Piece` for each region that a leaf owes, `fill_piece` puts the samples in, and `file` puts these into the receiver's
//! shell, once for each region. Which ghosts make a region, what is sent and what filing does stand in `specs/`; that
//! each region of a mesh is owed once, and that a shell with all regions filed holds the samples, are public laws.
#![tactic(auto)]

mod axis_parts;
mod copied_boxes;
mod counts;
mod filed_set;
mod filing;
mod filled_boxes;
mod filled_rows;
mod filling;
mod laws;
mod owing;
mod parts;
mod pasting;
mod piece;
mod shell_laws;
mod spots;

pub use filed_set::FiledSet;
pub use filing::{Filed, file};
pub use filling::fill_piece;
pub use laws::{
    filled_pieces, leaves_of_a_region, one_source_each, owed_pieces, pieces_hold_samples,
    regions_cover, regions_owed,
};
pub use owing::empty_pieces;
pub use piece::Piece;
pub use shell_laws::{filed_regions, filed_shells, filing_a_piece};
