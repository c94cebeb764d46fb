//! Closing a post.
ghost use Rattle.std.specs.Prelude.{◌≡◌, ◌≢◌, ◌<◌, ◌≤◌, ◌+◌, ◌++◌, ℕ, [], All, IfOk, OnErr, Some, length, map, slice_get, vec_capacity, vec_len};
ghost use Rattle.quiet_table.specs.BoardRule.{stops, handles};
ghost use Rattle.post_office.specs.Lemmas.Ended.{AtRest, Settles};

use crate::gathering::gather;
use crate::load::{PostBox, PostCell};
use crate::post::{Post, PostSeat};
use cello_num::Memory;
use phase_core::{Phase, Quiet};
use quiet_table::{Load, Remains, Verdict};
use std::snapshot::Snapshot;

// The room that lies in the first box.
fn take_room<P: Phase>(_owners: &[u8], boxes: Vec<PostBox<P>>) -> Vec<P::Cell>
    requires some_box { 0 < length boxes.items }
    requires first { (r : _) → slice_get (map ⟦<PostBox<P> as Load>⟧.rest boxes.items) 0 ≡ Some r → (r.shard ≡ 0) × (r.owners ≡ _owners.now) }
    ensures { (result.items ≡ []) × (length _owners.now ≤ vec_capacity result) }
{
    let mut boxes = boxes;
    let inbox = boxes.remove(0);
    let PostBox {
        owners: _,
        shard: _,
        envelopes: _,
        room,
    } = inbox;
    room
}

// The cells of all shards in their first order, of what a closed board left. The phase, its first cells and what was
// handled are for the proof alone.
fn put_back<P: Phase>(
    _phase: &P,
    _first: &Snapshot<Vec<P::Cell>>,
    owners: &[u8],
    posts: Vec<PostCell<P>>,
    boxes: Vec<PostBox<P>>,
    _handled: u64,
) -> Vec<P::Cell>
    requires even { (0 < length posts.items) × (length boxes.items ≡ length posts.items) }
    requires within { All (λ o. o < length posts.items) owners.now }
    requires rest { AtRest P.problem P.holds P.weight P.start_weight _phase.now _first.now.value.items owners.now (map ⟦<PostCell<P> as Load>⟧.rest posts.items ++ map ⟦<PostBox<P> as Load>⟧.rest boxes.items) _handled }
    ensures { Settles P.problem P.holds P.start_weight _phase.now _first.now.value.items owners.now result.items _handled }
{
    let room = take_room(owners, boxes);
    gather(owners, posts, room)
}

impl<P: Phase> Post<P> {
    /// The cells at rest, in their first order, with the sum of what all visits handled. All seats have to be there, in
    /// the order of their numbers, none may hold a slot, and one has to have seen a verdict. `Memory` comes exactly where
    /// the verdict is Stopped. It takes no memory.
    pub fn close(self, seats: Vec<PostSeat<P>>) -> Result<Quiet<P>, Memory>
        requires some_seat { 0 < vec_len seats }
        requires each { (i : ℕ) (s : _) → slice_get seats.items i ≡ Some s → (s.number ≡ i) × (s.place.table_id ≡ self.board.table.shared.table_id) × (s.place.me.0.hands ≡ []) }
        requires all { (s : _) → slice_get seats.items 0 ≡ Some s → (s.place.me.0.splits + 1 ≡ vec_len seats) × (s.place.me.0.joins ≡ 0) }
        requires seen { (i : ℕ) × (s : _) × (slice_get seats.items i ≡ Some s) × (s.place.me.0.seen ≢ 0) }
        ensures problem { IfOk result (λ quiet. quiet.problem ≡ P.problem self.phase self.first.value.items) }
        ensures holds { IfOk result (λ quiet. P.holds (P.problem self.phase self.first.value.items) quiet.cells []) }
        ensures count { IfOk result (λ quiet. length quiet.cells ≡ length self.owners.items) }
        ensures handles_each { IfOk result (λ quiet. length quiet.cells ≤ quiet.handled) }
        ensures bounded { IfOk result (λ quiet. quiet.handled ≤ P.start_weight (P.problem self.phase self.first.value.items)) }
        ensures handled { IfOk result (λ quiet. quiet.handled ≡ handles (map (λ s. s.place.me.0) seats.items)) }
        ensures stopped { OnErr result (1 ≤ stops (map (λ s. s.place.me.0) seats.items)) }
        ensures at_quiet { IfOk result (λ _. (s : _) → slice_get seats.items 0 ≡ Some s → s.place.me.0.seen ≢ 0 → s.place.me.0.seen ≡ 1) }
        ensures at_stop { OnErr result ((s : _) → slice_get seats.items 0 ≡ Some s → s.place.me.0.seen ≢ 0 → s.place.me.0.seen ≡ 2) }
    {
        let Post {
            board,
            phase,
            first,
            owners,
            ranks: _,
        } = self;
        let Remains {
            cells: posts,
            boxes,
            handled,
            verdict,
        } = board.close(seats);
        match verdict {
            Verdict::Quiet => {}
            Verdict::Stopped => return Err(Memory),
            Verdict::Running => unreachable!(),
        }
        let cells = put_back(&phase, &first, owners.as_slice(), posts, boxes, handled);
        Ok(Quiet::settled(phase, cells, handled))
    }
}
