//! A phase from its cells to rest, over a post.
ghost use Rattle.std.specs.Prelude.{◌≡◌, ◌≢◌, ◌<◌, ◌≤◌, ℕ, [], All, IfOk, Some, length, slice_get, vec_len};
ghost use Rattle.quiet_table.specs.Views.{dealt_view};
ghost use Rattle.post_office.specs.Seats.{StaysSeat};

use crate::working::work_all;
use cello_io::Gate;
use cello_num::Memory;
use phase_core::{Phase, Quiet};
use post_office::{Post, PostSeat};
use std::alloc::Global;
use std::sync::Wait;
use std::thread::Threads;

// Takes the post apart once all seats have worked.
fn close_worked<P: Phase>(post: Post<P>, seats: Vec<PostSeat<P>>) -> Result<Quiet<P>, Memory>
    requires some_seat { 0 < vec_len seats }
    requires each { (i : ℕ) (s : _) → slice_get seats.items i ≡ Some s → (s.number ≡ i) × (s.place.table_id ≡ post.board.table.shared.table_id) × StaysSeat (dealt_view (vec_len seats) i) s.place.me.0 × (s.place.me.0.seen ≢ 0) }
    ensures problem { IfOk result (λ quiet. quiet.problem ≡ P.problem post.phase post.first.value.items) }
    ensures holds { IfOk result (λ quiet. P.holds (P.problem post.phase post.first.value.items) quiet.cells []) }
    ensures count { IfOk result (λ quiet. length quiet.cells ≡ length post.owners.items) }
    ensures handles_each { IfOk result (λ quiet. length quiet.cells ≤ quiet.handled) }
    ensures bounded { IfOk result (λ quiet. quiet.handled ≤ P.start_weight (P.problem post.phase post.first.value.items)) }
{
    post.close(seats)
}

/// Runs the phase with `workers` workers, each in a thread of its own, from its start until nothing is in flight. The
/// shard `owners[i]` has cell `i`. Before each visit a worker passes the gate. `Memory` also comes where a thread can't
/// be started. It may wait.
pub fn serve<R: Threads + Wait + Sync, P: Phase + Sync, G: Gate + Sync>(
    rt: &R,
    alloc: Global,
    phase: P,
    cells: Vec<P::Cell>,
    owners: &[u8],
    shards: u32,
    workers: u32,
    gate: &G,
) -> Result<Quiet<P>, Memory>
where
    P::Cell: Send,
    P::Msg: Send,
    requires counts { (1 ≤ shards) × (shards ≤ 64) × (1 ≤ workers) × (workers ≤ 16) }
    requires owned { (length owners.now ≡ length cells.items) × All (λ o. o < shards) owners.now }
    requires begins { P.begins (P.problem phase cells.items) cells.items }
    ensures problem { IfOk result (λ quiet. quiet.problem ≡ P.problem phase cells.items) }
    ensures holds { IfOk result (λ quiet. P.holds (P.problem phase cells.items) quiet.cells []) }
    ensures count { IfOk result (λ quiet. length quiet.cells ≡ length cells.items) }
    ensures handles_each { IfOk result (λ quiet. length cells.items ≤ quiet.handled) }
    ensures bounded { IfOk result (λ quiet. quiet.handled ≤ P.start_weight (P.problem phase cells.items)) }
{
    let (post, seats) = Post::open(alloc, phase, cells, owners, shards, workers)?;
    let seats = work_all(rt, alloc, &post, seats, gate)?;
    close_worked(post, seats)
}
