//! Workers in threads of their own.
ghost use Rattle.std.specs.Prelude.{◌≡◌, ◌≢◌, ℕ, [], All, IfOk, Some, slice_get, vec_len};
ghost use Rattle.quiet_table.specs.Views.{dealt_view};
ghost use Rattle.post_office.specs.Seats.{StaysSeat};

use cello_io::Gate;
use cello_num::Memory;
use phase_core::Phase;
use post_office::{Post, PostSeat};
use std::alloc::Global;
use std::sync::Wait;
use std::thread::Threads;
use thread_runs::map_vec;

/// Has each seat work in a thread of its own, until it has seen a verdict. It may wait.
pub(crate) fn work_all<R: Threads + Wait + Sync, P: Phase + Sync, G: Gate + Sync>(
    rt: &R,
    alloc: Global,
    post: &Post<P>,
    seats: Vec<PostSeat<P>>,
    gate: &G,
) -> Result<Vec<PostSeat<P>>, Memory>
where
    P::Cell: Send,
    P::Msg: Send,
    requires ready { All (λ s. (s.place.table_id ≡ post.now.board.table.shared.table_id) × (s.place.me.0.hands ≡ [])) seats.items }
    requires each { (i : ℕ) (s : _) → slice_get seats.items i ≡ Some s → (s.number ≡ i) × (s.place.table_id ≡ post.now.board.table.shared.table_id) × (s.place.me.0 ≡ dealt_view (vec_len seats) i) }
    ensures count { IfOk result (λ v. vec_len v ≡ vec_len seats) }
    ensures each { IfOk result (λ v. (i : ℕ) (s : _) → slice_get v.items i ≡ Some s → (s.number ≡ i) × (s.place.table_id ≡ post.now.board.table.shared.table_id) × StaysSeat (dealt_view (vec_len seats) i) s.place.me.0 × (s.place.me.0.seen ≢ 0)) }
{
    let worked = map_vec(
        rt,
        alloc,
        seats,
        &|seat| -> PostSeat<P>
            requires ready { (seat.place.table_id ≡ post.now.board.table.shared.table_id) × (seat.place.me.0.hands ≡ []) }
            ensures own { result.place.table_id ≡ seat.place.table_id }
            ensures stays { StaysSeat seat.place.me.0 result.place.me.0 }
            ensures seen { result.place.me.0.seen ≢ 0 }
        {
            let worker = seat.number as u32;
            post.work(rt, alloc, worker, seat, gate)
        },
    )?;
    Ok(worked)
}
