//! Working at a post: visits in turn, until the verdict was seen.
ghost use Rattle.std.specs.Prelude.{◌≡◌, ◌≢◌, ◌<◌, [], true};
ghost use Rattle.post_office.specs.Seats.{StaysSeat};

use crate::post::{Post, PostSeat};
use crate::visit::Visit;
use cello_io::Gate;
use cello_num::Memory;
use phase_core::Phase;
use quiet_table::{Verdict, Wave};
use std::alloc::Global;
use std::sync::Wait;
use std::thread::yield_now;

// How many shards lie between those that two workers one after the other visit first.
const STRIDE: u64 = 4;

// Whether a visit handled nothing.
fn is_vain(visit: Visit) -> bool {
    match visit {
        Visit::Busy { turn: _ } => true,
        Visit::Done {
            handled,
            sent: _,
            left: _,
        } => handled == 0,
    }
}

impl<P: Phase> Post<P> {
    // Looks for the verdict, by a wave where a round of visits ends.
    fn is_over(&self, seat: &mut PostSeat<P>, ends_round: bool) -> bool
        requires own { seat.old.place.table_id ≡ self.now.board.table.shared.table_id }
        ensures own { (seat.new.place.table_id ≡ seat.old.place.table_id) × (seat.new.place.id ≡ seat.old.place.id) }
        ensures stays { StaysSeat seat.old.place.me.0 seat.new.place.me.0 }
        ensures seen { result ≡ true → seat.new.place.me.0.seen ≢ 0 }
    {
        if !ends_round {
            return match self.verdict(seat) {
                Verdict::Running => false,
                Verdict::Quiet => true,
                Verdict::Stopped => true,
            };
        }
        match self.wave(seat) {
            Wave::NotYet {
                handled: _,
                sent: _,
            } => false,
            Wave::Quiet => true,
            Wave::Stopped => true,
        }
    }

    // Makes one visit, and says whether the seat has seen a verdict then. Where nothing was handled, other threads are
    // let run.
    fn work_once(&self, alloc: Global, seat: &mut PostSeat<P>, s: u32, ends_round: bool) -> bool
        requires own { seat.old.place.table_id ≡ self.now.board.table.shared.table_id }
        requires within { s < self.now.board.shards }
        requires bare { seat.old.place.me.0.hands ≡ [] }
        ensures own { (seat.new.place.table_id ≡ seat.old.place.table_id) × (seat.new.place.id ≡ seat.old.place.id) }
        ensures stays { StaysSeat seat.old.place.me.0 seat.new.place.me.0 }
        ensures seen { result ≡ true → seat.new.place.me.0.seen ≢ 0 }
    {
        match self.visit(alloc, seat, s) {
            Ok(visit) => {
                let over = self.is_over(seat, ends_round);
                if !over && is_vain(visit) {
                    yield_now();
                }
                over
            }
            Err(Memory) => true,
        }
    }

    /// Visits one shard after another until the seat has seen a verdict, and gives the seat back. Before each visit it
    /// passes the gate, with turns from 0. It makes its first visit before it looks for a verdict, and a wave after
    /// each round of visits. It may wait.
    pub fn work<R: Wait, G: Gate>(
        &self,
        rt: &R,
        alloc: Global,
        worker: u32,
        seat: PostSeat<P>,
        gate: &G,
    ) -> PostSeat<P>
        requires own { seat.place.table_id ≡ self.now.board.table.shared.table_id }
        requires bare { seat.place.me.0.hands ≡ [] }
        ensures own { (result.place.table_id ≡ seat.place.table_id) × (result.place.id ≡ seat.place.id) }
        ensures stays { StaysSeat seat.place.me.0 result.place.me.0 }
        ensures seen { result.place.me.0.seen ≢ 0 }
    {
        let mut seat = seat;
        let shards = self.board.shards as u64;
        let mut turn: u64 = 0;
        for _ in rt.forever() {
            gate.pass(worker, turn);
            let s = (STRIDE * worker as u64 % shards + turn % shards) % shards;
            let ends_round = turn % shards == shards - 1;
            if self.work_once(alloc, &mut seat, s as u32, ends_round) {
                return seat;
            }
            turn = turn.saturating_add(1);
        }
        unreachable!()
    }
}
