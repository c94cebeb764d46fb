//! The works that are done block by block: the wishes of blocks, and their advance by their own fluxes. Each stands here
//! twice, one block after another and in several threads, with the same clauses. So the answer in threads is the one
//! thread's, whatever the number of threads and their order.
#![tactic(auto)]

mod advancing;
mod moving;
mod wishing;

pub use advancing::advance_blocks;
pub use moving::advances;
pub use wishing::{block_wishes, wishes};
