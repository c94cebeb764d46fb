//! Taking and giving a slot, cell or box.
ghost use Rattle.std.specs.Prelude.{◌≡◌, ◌≢◌, ◌<◌, ◌+◌, ◌*◌, ltb, ◌∷◌, []};
ghost use Rattle.quiet_table.specs.Contents.{contents_of, origin_of, is_cell};
ghost use Rattle.quiet_table.specs.Views.{NotHeld, FirstIs, took, found, hand_of, holding};
ghost use Rattle.quiet_table.specs.Hands.{InLegal, MayGive, Goes};
ghost use Rattle.quiet_table.specs.Takes.{Tells};

use super::{Board, BoardSeat};
use crate::item::Item;
use crate::load::{LegalLoad, Load};
use crate::picks::OriginPick;
use crate::plays::{Claim, Release};
use crate::take::Take;

impl<C: LegalLoad, B: Load<Rest = C::Rest, Parcel = C::Parcel>> Board<C, B> {
    // One claim of the turn, and the value where it won. The pick says what the board was made of.
    pub(crate) fn take_slot<L: OriginPick<C::Origin>>(
        &self,
        seat: &mut BoardSeat<C, B>,
        slot: usize,
    ) -> Take<Item<C, B>>
        requires origin { L.origin ≡ origin_of (contents_of C.rest C.parcels B.rest B.parcels) C.origin self.now.table.shared.key.value.items ∷ [] }
        requires own { seat.old.place.table_id ≡ self.now.table.shared.table_id }
        requires within { slot < self.now.table.shared.table_id.slots }
        requires free { NotHeld slot seat.old.place.me.0.hands }
        ensures own { (seat.new.place.table_id ≡ seat.old.place.table_id) × (seat.new.place.id ≡ seat.old.place.id) }
        ensures legal { InLegal C.legal C.origin self.now.table.shared.table_id.slots (origin_of (contents_of C.rest C.parcels B.rest B.parcels) C.origin self.now.table.shared.key.value.items) seat.new.place.me.0.hands }
        ensures told { Tells (λ item. (is_cell item ≡ ltb (2 * slot) self.now.table.shared.table_id.slots) × (seat.new.place.me.0 ≡ took slot (contents_of C.rest C.parcels B.rest B.parcels item) seat.old.place.me.0)) (λ turn. (turn ≢ seat.old.place.me.0.number + 1) × (turn ≢ 0) × (seat.new.place.me.0 ≡ found slot turn seat.old.place.me.0)) result }
    {
        let shared = &self.table.shared;
        let turn = shared.compare_exchange::<Claim<C, B, L>>(
            &mut seat.place,
            slot,
            0,
            seat.number + 1,
        );
        if turn != 0 {
            return Take::Held { turn };
        }
        let item = shared.exchange(&mut seat.place, slot, None).unwrap();
        Take::Taken(item)
    }

    // Lays the value into the slot that was taken last, and releases its turn.
    pub(crate) fn give_slot(&self, seat: &mut BoardSeat<C, B>, slot: usize, item: Item<C, B>)
        requires own { seat.old.place.table_id ≡ self.now.table.shared.table_id }
        requires within { slot < self.now.table.shared.table_id.slots }
        requires kind { is_cell item ≡ ltb (2 * slot) self.now.table.shared.table_id.slots }
        requires held { FirstIs slot seat.old.place.me.0.hands }
        requires may { MayGive seat.old.place.me.0.hands (contents_of C.rest C.parcels B.rest B.parcels item) }
        ensures own { (seat.new.place.table_id ≡ seat.old.place.table_id) × (seat.new.place.id ≡ seat.old.place.id) }
        ensures goes { (seat.new.place.me.0 ≡ holding seat.new.place.me.0.hands (hand_of slot (contents_of C.rest C.parcels B.rest B.parcels item)) seat.old.place.me.0) × Goes seat.old.place.me.0.hands (contents_of C.rest C.parcels B.rest B.parcels item) seat.new.place.me.0.hands }
    {
        let shared = &self.table.shared;
        let _empty = shared.exchange(&mut seat.place, slot, Some(item));
        shared.store::<Release<C, B>>(&mut seat.place, slot, 0);
    }
}
