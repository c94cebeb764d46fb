//! Taking and giving the cell and the box of a shard.
ghost use Rattle.std.specs.Prelude.{◌≡◌, ◌≢◌, ◌<◌, ◌+◌, ◌*◌, ◌++◌, List, IsPermutation};
ghost use Rattle.quiet_table.specs.Contents.{contents_of, origin_of};
ghost use Rattle.quiet_table.specs.Views.{NotHeld, FirstIs, took, found, holding, hand_of, hand_pool};
ghost use Rattle.quiet_table.specs.Hands.{InLegal, MayGive, Goes};
ghost use Rattle.quiet_table.specs.Takes.{Tells};

use super::{Board, BoardSeat};
use crate::item::Item;
use crate::load::{LegalLoad, Load};
use crate::take::Take;
use std::marker::Brand;

impl<C: LegalLoad, B: Load<Rest = C::Rest, Parcel = C::Parcel>> Board<C, B> {
    /// Tries once to take a shard's cell. `Held` comes only where this one step found another seat's number.
    pub fn take_cell(&self, seat: &mut BoardSeat<C, B>, shard: u32) -> Take<C>
        requires own { seat.old.place.table_id ≡ self.now.table.shared.table_id }
        requires within { shard < self.now.shards }
        requires free { NotHeld shard seat.old.place.me.0.hands }
        ensures own { (seat.new.place.table_id ≡ seat.old.place.table_id) × (seat.new.place.id ≡ seat.old.place.id) }
        ensures legal { InLegal C.legal C.origin (2 * self.now.shards) (origin_of (contents_of C.rest C.parcels B.rest B.parcels) C.origin self.now.table.shared.key.value.items) seat.new.place.me.0.hands }
        ensures told { Tells (λ c. seat.new.place.me.0 ≡ took shard (record { rest = C.rest c; parcels = C.parcels c }) seat.old.place.me.0) (λ turn. (turn ≢ seat.old.place.me.0.number + 1) × (turn ≢ 0) × (seat.new.place.me.0 ≡ found shard turn seat.old.place.me.0)) result }
    {
        match self.take_slot::<Brand>(seat, shard as usize) {
            Take::Taken(Item::Cell(cell)) => Take::Taken(cell),
            Take::Taken(Item::Inbox(_)) => unreachable!(),
            Take::Held { turn } => Take::Held { turn },
        }
    }

    /// Tries once to take a shard's box. `Held` comes only where this one step found another seat's number.
    pub fn take_box(&self, seat: &mut BoardSeat<C, B>, shard: u32) -> Take<B>
        requires own { seat.old.place.table_id ≡ self.now.table.shared.table_id }
        requires within { shard < self.now.shards }
        requires free { NotHeld (self.now.shards + shard) seat.old.place.me.0.hands }
        ensures own { (seat.new.place.table_id ≡ seat.old.place.table_id) × (seat.new.place.id ≡ seat.old.place.id) }
        ensures legal { InLegal C.legal C.origin (2 * self.now.shards) (origin_of (contents_of C.rest C.parcels B.rest B.parcels) C.origin self.now.table.shared.key.value.items) seat.new.place.me.0.hands }
        ensures told { Tells (λ b. seat.new.place.me.0 ≡ took (self.now.shards + shard) (record { rest = B.rest b; parcels = B.parcels b }) seat.old.place.me.0) (λ turn. (turn ≢ seat.old.place.me.0.number + 1) × (turn ≢ 0) × (seat.new.place.me.0 ≡ found (self.now.shards + shard) turn seat.old.place.me.0)) result }
    {
        match self.take_slot::<Brand>(seat, self.shards + shard as usize) {
            Take::Taken(Item::Inbox(inbox)) => Take::Taken(inbox),
            Take::Taken(Item::Cell(_)) => unreachable!(),
            Take::Held { turn } => Take::Held { turn },
        }
    }

    /// Gives back the shard's cell, which this seat took last of what it holds. The seat goes on holding the envelopes
    /// that the value leaves.
    pub fn give_cell(&self, seat: &mut BoardSeat<C, B>, shard: u32, value: C)
        requires own { seat.old.place.table_id ≡ self.now.table.shared.table_id }
        requires within { shard < self.now.shards }
        requires held { FirstIs shard seat.old.place.me.0.hands }
        requires may { MayGive seat.old.place.me.0.hands (record { rest = C.rest value; parcels = C.parcels value }) }
        ensures own { (seat.new.place.table_id ≡ seat.old.place.table_id) × (seat.new.place.id ≡ seat.old.place.id) }
        ensures given { seat.new.place.me.0 ≡ holding seat.new.place.me.0.hands (hand_of shard (record { rest = C.rest value; parcels = C.parcels value })) seat.old.place.me.0 }
        ensures goes { Goes seat.old.place.me.0.hands (record { rest = C.rest value; parcels = C.parcels value }) seat.new.place.me.0.hands }
        ensures stays { (left : List C.Parcel) → IsPermutation (hand_pool seat.old.place.me.0.hands) (C.parcels value ++ left) → IsPermutation left (hand_pool seat.new.place.me.0.hands) }
    {
        self.give_slot(seat, shard as usize, Item::Cell(value));
    }

    /// Gives back the shard's box, which this seat took last of what it holds. The seat goes on holding the envelopes
    /// that the value leaves.
    pub fn give_box(&self, seat: &mut BoardSeat<C, B>, shard: u32, value: B)
        requires own { seat.old.place.table_id ≡ self.now.table.shared.table_id }
        requires within { shard < self.now.shards }
        requires held { FirstIs (self.now.shards + shard) seat.old.place.me.0.hands }
        requires may { MayGive seat.old.place.me.0.hands (record { rest = B.rest value; parcels = B.parcels value }) }
        ensures own { (seat.new.place.table_id ≡ seat.old.place.table_id) × (seat.new.place.id ≡ seat.old.place.id) }
        ensures given { seat.new.place.me.0 ≡ holding seat.new.place.me.0.hands (hand_of (self.now.shards + shard) (record { rest = B.rest value; parcels = B.parcels value })) seat.old.place.me.0 }
        ensures goes { Goes seat.old.place.me.0.hands (record { rest = B.rest value; parcels = B.parcels value }) seat.new.place.me.0.hands }
        ensures stays { (left : List C.Parcel) → IsPermutation (hand_pool seat.old.place.me.0.hands) (B.parcels value ++ left) → IsPermutation left (hand_pool seat.new.place.me.0.hands) }
    {
        self.give_slot(seat, self.shards + shard as usize, Item::Inbox(value));
    }
}
