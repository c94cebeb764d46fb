//! Fields of amounts over a mesh: blocks of cells with ghosts around them, and the states that they make up.
//!
//! A `Block` is seen as a `BlockState`: a place, and for each field its amounts, their second copy and its ghosts by
//! direction. Each call changes what it names and nothing else. The definitions of cells, states, samples and adapted
//! amounts stand in `specs/`; laws about them are public functions with empty bodies.
#![tactic(auto)]

mod block;
mod block_laws;
mod laws;
mod shell;

pub use block::{Block, Copies, ghosts_toward};
pub use block_laws::{
    blocks_of_a_mesh, lists_of_a_block, samples_around_blocks, second_copies_of_a_mesh,
    writing_amounts, writing_directions, writing_ghosts, written_lists,
};
pub use laws::{
    adapting_keeps_totals, filled_states, first_state, samples, samples_of_blocks, totals_bound,
};
