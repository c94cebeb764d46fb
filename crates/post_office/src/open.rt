//! Opening a post.
ghost use Rattle.std.specs.Prelude.{◌≡◌, ◌<◌, ◌≤◌, ℕ, All, IfOk, Some, length, slice_get, vec_len};
ghost use Rattle.quiet_table.specs.Views.{dealt_view};

use crate::dealing::deal_out;
use crate::opening::{empty_boxes, empty_cells, rank_all};
use crate::post::{Post, PostSeat};
use cello_num::Memory;
use phase_core::Phase;
use quiet_table::Board;
use std::alloc::Global;
use std::snapshot::Snapshot;

impl<P: Phase> Post<P> {
    /// A post of these cells, which the shards own as `owners` says, and a seat for each worker: the one at position
    /// `i` has the number `i`. A start message to each cell waits at its shard, in the order of the cells. The room that
    /// `close` needs is taken here.
    pub fn open(
        alloc: Global,
        phase: P,
        cells: Vec<P::Cell>,
        owners: &[u8],
        shards: u32,
        workers: u32,
    ) -> Result<(Post<P>, Vec<PostSeat<P>>), Memory>
        requires counts { (1 ≤ shards) × (shards ≤ 64) × (1 ≤ workers) × (workers ≤ 16) }
        requires owned { (length owners.now ≡ length cells.items) × All (λ o. o < shards) owners.now }
        requires begins { P.begins (P.problem phase cells.items) cells.items }
        ensures counts { IfOk result (λ r. (vec_len r.1 ≡ workers) × (r.0.board.shards ≡ shards)) }
        ensures seats { IfOk result (λ r. (i : ℕ) (s : _) → slice_get r.1.items i ≡ Some s → (s.number ≡ i) × (s.place.table_id ≡ r.0.board.table.shared.table_id) × (s.place.me.0 ≡ dealt_view workers i)) }
        ensures given { IfOk result (λ r. (r.0.phase ≡ phase) × (r.0.first.value.items ≡ cells.items) × (r.0.owners.items ≡ owners.now)) }
    {
        let owned = Vec::from_slice(alloc, owners)?;
        let ranks = rank_all(alloc, owners, shards)?;
        let first = Snapshot::of(&cells);
        let mut posts = empty_cells(alloc, &phase, &cells, &owned, shards)?;
        deal_out(&phase, owners, cells, &mut posts)?;
        let boxes = empty_boxes(alloc, &owned, shards)?;
        let (board, seats) = Board::new(alloc, posts, boxes, workers)?;
        let post = Post {
            board,
            phase,
            first,
            owners: owned,
            ranks,
        };
        Ok((post, seats))
    }
}
