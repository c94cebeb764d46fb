//! The blocks of the next mesh: each is kept, split or joined.
//!
//! `apply` moves the blocks that are kept. Every cell of a new leaf holds the sample of the old state there, so each
//! field's total stays. The definitions of samples and of the adapted state stand in the specs of `block_fields`.
#![tactic(auto)]

mod new_blocks;
mod walk;

pub use walk::apply;
