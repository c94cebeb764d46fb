//! The post: any phase in the hands of workers. Its cells lie by shard on a board; a worker visits any free shard,
//! handles what waits there, counts it, and puts what goes out into the boxes of other shards, without a lock.
//! Each visit is a run of core events, no envelope is lost, and `close` gives the phase at rest, its cells in order.
//! What a visit promises stands in specs/Visits.antt, what all slots hold together in specs/Posts.antt, and which shard
//! a cell or an envelope belongs to in specs/Shares.antt. `wave`, `verdict` and `close` take no memory.
#![tactic(auto)]

mod boxes;
mod close;
mod dealing;
mod gathering;
mod load;
mod mail;
mod merging;
mod open;
mod opening;
mod page;
mod pile;
mod plain;
mod post;
mod sending;
mod serving;
mod visit;
mod visiting;
mod working;

pub use load::{PostBox, PostCell};
pub use post::{Post, PostSeat};
pub use visit::Visit;
