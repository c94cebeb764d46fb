//! A post: a phase's cells on a board, and its seats.
ghost use Rattle.std.specs.Prelude.{◌≡◌, ◌<◌, ◌++◌, [], All, None, Some, length, slice_index_or};
ghost use Rattle.quiet_table.specs.Contents.{contents_of, origin_of, pool};
ghost use Rattle.post_office.specs.Posts.{about, stood};
ghost use Rattle.post_office.specs.Shares.{Ranked};

use crate::load::{PostBox, PostCell};
use phase_core::Phase;
use quiet_table::{Board, BoardSeat};
use std::snapshot::Snapshot;

/// A phase's cells on a board, by the shards that own them. `owners` has the shard of each cell, and `ranks` its place
/// among the cells of that shard. `first` are the cells that the post was opened with. What lay in the slots at first is
/// about this phase, the problem of these first cells, and these owners.
#[derive(Drop)]
pub struct Post<P: Phase> {
    pub board: Board<PostCell<P>, PostBox<P>>,
    pub phase: P,
    pub first: Snapshot<Vec<P::Cell>>,
    pub owners: Vec<u8>,
    pub ranks: Vec<u32>,
    ghost ranked: { Ranked owners.items ranks.items },
    ghost owned: { All (λ o. o < board.shards) owners.items },
    ghost of_this: { origin_of (contents_of (λ c. record { owners = c.owners.value.items; shard = c.shard; waits = length (slice_index_or c.mail.items c.shard []); stood = Some (stood P.problem c.phase.value c.first.value.items c.cells.items) }) (λ c. pool c.mail.items ++ c.fresh.items) (λ b. record { owners = b.owners.value.items; shard = b.shard; waits = 0; stood = None }) (λ b. b.envelopes)) about board.table.shared.key.value.items ≡ Some (record { phase = phase; problem = P.problem phase first.value.items; owners = owners.items }) },
}

/// What a worker visits the shards of a post with: a seat of its board, which holds no slot between two visits.
pub type PostSeat<P> = BoardSeat<PostCell<P>, PostBox<P>>;
