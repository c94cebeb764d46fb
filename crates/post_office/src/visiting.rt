//! A visit of a shard.
ghost use Rattle.std.specs.Prelude.{◌≡◌, ◌<◌, []};
ghost use Rattle.quiet_table.specs.Waved.{SeesAgain, Waved, verdict_word};
ghost use Rattle.post_office.specs.Visits.{Visited};

use crate::post::{Post, PostSeat};
use crate::serving::serve;
use crate::visit::Visit;
use cello_num::Memory;
use phase_core::Phase;
use quiet_table::{Load, Take, Verdict, Wave};
use std::alloc::Global;

impl<P: Phase> Post<P> {
    /// Serves a shard once, if no other seat holds it: what lies in its box joins what waits, what waits is handled in
    /// order with all that this sends to the shard itself, what was sent and handled is counted, and each box to which
    /// something goes out is tried once. Where memory is wanting, what was handled is counted, and the verdict becomes
    /// `Stopped` unless it is `Quiet`.
    pub fn visit(&self, alloc: Global, seat: &mut PostSeat<P>, s: u32) -> Result<Visit, Memory>
        requires own { seat.old.place.table_id ≡ self.now.board.table.shared.table_id }
        requires within { s < self.now.board.shards }
        requires bare { seat.old.place.me.0.hands ≡ [] }
        ensures own { (seat.new.place.table_id ≡ seat.old.place.table_id) × (seat.new.place.id ≡ seat.old.place.id) }
        ensures visited { Visited P.problem P.holds P.weight P.start_weight P.react self.now.board.shards s seat.old.place.me.0 seat.new.place.me.0 result }
    {
        let served = match self.board.take_cell(seat, s) {
            Take::Held { turn } => return Ok(Visit::Busy { turn }),
            Take::Taken(served) => served,
        };
        let served = self.fetch(seat, s, served);
        let (served, tally) = serve(
            alloc,
            &self.phase,
            self.owners.as_slice(),
            self.ranks.as_slice(),
            served,
        );
        self.board
            .count(seat, s, &served, tally.sent, tally.handled);
        let served = self.send(seat, s, served);
        let left = served.load();
        self.board.give_cell(seat, s, served);
        if !tally.whole {
            let _verdict = self.board.stop(seat);
            return Err(Memory);
        }
        Ok(Visit::Done {
            handled: tally.handled,
            sent: tally.sent,
            left,
        })
    }

    /// Reads all handled words, then all sent words. Where the sums are equal it tries once to set the verdict to
    /// `Quiet`. `Stopped` comes only where the verdict was `Stopped`.
    pub fn wave(&self, seat: &mut PostSeat<P>) -> Wave
        requires own { seat.old.place.table_id ≡ self.now.board.table.shared.table_id }
        ensures own { (seat.new.place.table_id ≡ seat.old.place.table_id) × (seat.new.place.id ≡ seat.old.place.id) }
        ensures rest { seat.new.place.me.0 ≡ record seat.old.place.me.0 { first = seat.new.place.me.0.first; second = seat.new.place.me.0.second; seen = seat.new.place.me.0.seen } }
        ensures again { SeesAgain seat.old.place.me.0.seen seat.new.place.me.0.seen }
        ensures waved { Waved self.now.board.shards seat.new.place.me.0 result }
    {
        self.board.wave(seat)
    }

    /// What one look at the verdict reads.
    pub fn verdict(&self, seat: &mut PostSeat<P>) -> Verdict
        requires own { seat.old.place.table_id ≡ self.now.board.table.shared.table_id }
        ensures own { (seat.new.place.table_id ≡ seat.old.place.table_id) × (seat.new.place.id ≡ seat.old.place.id) }
        ensures told { seat.new.place.me.0 ≡ record seat.old.place.me.0 { seen = verdict_word result } }
        ensures again { SeesAgain seat.old.place.me.0.seen (verdict_word result) }
    {
        self.board.verdict(seat)
    }
}
