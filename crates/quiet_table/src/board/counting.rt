//! Counting what a turn of a shard sent and handled.
ghost use Rattle.std.specs.Prelude.{◌≡◌, ◌≢◌, ◌<◌, ◌≤◌, ◌+◌, ◌-◌, ◌*◌, [], ◌∷◌, true};
ghost use Rattle.quiet_table.specs.Views.{FirstIs, turned, recarried};
ghost use Rattle.quiet_table.specs.Hands.{TurnsFrom};

use super::{Board, BoardSeat};
use crate::load::{LegalLoad, Load};
use crate::picks::TurnPick;
use crate::plays::{Handles, Sends};
use crate::rule::Place;
use std::marker::Brand;

impl<C: LegalLoad, B: Load<Rest = C::Rest, Parcel = C::Parcel>> Board<C, B> {
    // Adds to the sent word. The value and `handled` are for the proof of the call: they say what the turn leaves.
    fn add_sent<L: TurnPick<C::Rest, C::Parcel>>(
        &self,
        place: &mut Place<C, B>,
        shard: u32,
        _value: &C,
        sent: u64,
        _handled: u64,
    )
        requires own { place.old.table_id ≡ self.now.table.shared.table_id }
        requires within { shard < self.now.shards }
        requires first { FirstIs shard place.old.me.0.hands }
        requires turn { (r : _) × (L.rest ≡ r ∷ []) × TurnsFrom C.turn place.old.me.0.hands sent L.handled r L.parcels }
        ensures own { (place.new.table_id ≡ place.old.table_id) × (place.new.id ≡ place.old.id) }
        ensures told { (r : _) → L.rest ≡ r ∷ [] → place.new.me ≡ (turned L.handled r L.parcels place.old.me.0, place.old.me.1) }
    {
        self.table
            .shared
            .fetch_add::<Sends<L>>(place, 2 * self.shards + shard as usize, sent);
    }

    // Adds to the handled word.
    fn add_handled(&self, place: &mut Place<C, B>, shard: u32, handled: u64)
        requires own { place.old.table_id ≡ self.now.table.shared.table_id }
        requires within { shard < self.now.shards }
        requires live { place.old.me.0.live ≡ true }
        requires enough { handled ≤ place.old.me.0.uncounted }
        ensures own { (place.new.table_id ≡ place.old.table_id) × (place.new.id ≡ place.old.id) }
        ensures told { place.new.me ≡ (record place.old.me.0 { uncounted = place.old.me.0.uncounted - handled; handled = place.old.me.0.handled + handled }, place.old.me.1) }
    {
        self.table
            .shared
            .fetch_add::<Handles>(place, 3 * self.shards + shard as usize, handled);
    }

    /// Counts a turn of the shard whose cell the seat took last: first what it sent, then what it handled. The first step
    /// makes the value's contents the settled ones of the cell.
    pub fn count(&self, seat: &mut BoardSeat<C, B>, shard: u32, value: &C, sent: u64, handled: u64)
        requires own { seat.old.place.table_id ≡ self.now.table.shared.table_id }
        requires within { shard < self.now.shards }
        requires first { FirstIs shard seat.old.place.me.0.hands }
        requires turn { TurnsFrom C.turn seat.old.place.me.0.hands sent handled (C.rest value.now) (C.parcels value.now) }
        ensures own { (seat.new.place.table_id ≡ seat.old.place.table_id) × (seat.new.place.id ≡ seat.old.place.id) }
        ensures settled { seat.new.place.me.0 ≡ record seat.old.place.me.0 { hands = recarried (C.rest value.now) (C.parcels value.now) seat.old.place.me.0.hands; handled = seat.old.place.me.0.handled + handled } }
    {
        self.add_sent::<Brand>(&mut seat.place, shard, value, sent, handled);
        self.add_handled(&mut seat.place, shard, handled);
    }
}
