//! Sending what goes out, once a shard's cell was served and counted.
ghost use Rattle.std.specs.Prelude.{◌≡◌, ◌≢◌, ◌⊎◌, ◌<◌, ◌≤◌, ◌+◌, ◌++◌, ℕ, List, [], ◌∷◌, All, IsPermutation, Some, length, slice_get};
ghost use Rattle.quiet_table.specs.Contents.{pool};
ghost use Rattle.quiet_table.specs.Views.{hand_of};
ghost use Rattle.post_office.specs.Finds.{FoundHeld, finds_of};

use crate::boxes::has_some;
use crate::load::{PostBox, PostCell};
use crate::post::{Post, PostSeat};
use phase_core::Phase;
use quiet_table::Load;

impl<P: Phase> Post<P> {
    // Where something goes out to another shard, tries its box once.
    fn try_deliver(
        &self,
        seat: &mut PostSeat<P>,
        s: u32,
        t: u32,
        served: PostCell<P>,
    ) -> PostCell<P>
        requires own { seat.old.place.table_id ≡ self.now.board.table.shared.table_id }
        requires within { (s < self.now.board.shards) × (t < self.now.board.shards) }
        requires number { (served.shard ≡ s) × (served.owners.value.items ≡ self.now.owners.items) }
        requires held { (es : List _) × (seat.old.place.me.0.hands ≡ hand_of s (record { rest = ⟦<PostCell<P> as Load>⟧.rest served; parcels = es }) ∷ []) × IsPermutation es (pool served.mail.items ++ served.fresh.items) }
        ensures own { (seat.new.place.table_id ≡ seat.old.place.table_id) × (seat.new.place.id ≡ seat.old.place.id) }
        ensures kept { (result.phase ≡ served.phase) × (result.first ≡ served.first) × (result.owners ≡ served.owners) × (result.shard ≡ served.shard) × (result.cells ≡ served.cells) × (result.fresh ≡ served.fresh) }
        ensures waiting { slice_get result.mail.items s ≡ slice_get served.mail.items s }
        ensures others { (u : ℕ) → u ≢ t → slice_get result.mail.items u ≡ slice_get served.mail.items u }
        ensures gone { (es : _) → t ≢ s → slice_get result.mail.items t ≡ Some es → (es ≡ []) ⊎ FoundHeld (self.now.board.shards + t) seat.old.place.me.0.finds seat.new.place.me.0.finds }
        ensures held { (es : List _) × (seat.new.place.me.0.hands ≡ hand_of s (record { rest = ⟦<PostCell<P> as Load>⟧.rest result; parcels = es }) ∷ []) × IsPermutation es (pool result.mail.items ++ result.fresh.items) }
        ensures gave { (boxes : List _) × (seat.new.place.me.0.gave ≡ boxes ++ seat.old.place.me.0.gave) × All (λ h. h.slot ≢ self.now.board.shards + s) boxes }
        ensures finds { (k : ℕ) → finds_of k seat.old.place.me.0.finds ≤ finds_of k seat.new.place.me.0.finds }
        ensures rest { seat.new.place.me.0 ≡ record seat.old.place.me.0 { hands = seat.new.place.me.0.hands; finds = seat.new.place.me.0.finds; gave = seat.new.place.me.0.gave } }
    {
        if t == s || !has_some(&served.mail, t as usize) {
            return served;
        }
        self.deliver(seat, s, t, served)
    }

    // Tries the box of each shard to which something goes out.
    pub(crate) fn send(&self, seat: &mut PostSeat<P>, s: u32, served: PostCell<P>) -> PostCell<P>
        requires own { seat.old.place.table_id ≡ self.now.board.table.shared.table_id }
        requires within { s < self.now.board.shards }
        requires number { (served.shard ≡ s) × (served.owners.value.items ≡ self.now.owners.items) }
        requires held { (es : List _) × (seat.old.place.me.0.hands ≡ hand_of s (record { rest = ⟦<PostCell<P> as Load>⟧.rest served; parcels = es }) ∷ []) × IsPermutation es (pool served.mail.items ++ served.fresh.items) }
        ensures own { (seat.new.place.table_id ≡ seat.old.place.table_id) × (seat.new.place.id ≡ seat.old.place.id) }
        ensures kept { (result.phase ≡ served.phase) × (result.first ≡ served.first) × (result.owners ≡ served.owners) × (result.shard ≡ served.shard) × (result.cells ≡ served.cells) × (result.fresh ≡ served.fresh) }
        ensures waiting { slice_get result.mail.items s ≡ slice_get served.mail.items s }
        ensures gone { (t : ℕ) (es : _) → t < self.now.board.shards → t ≢ s → slice_get result.mail.items t ≡ Some es → (es ≡ []) ⊎ FoundHeld (self.now.board.shards + t) seat.old.place.me.0.finds seat.new.place.me.0.finds }
        ensures held { (es : List _) × (seat.new.place.me.0.hands ≡ hand_of s (record { rest = ⟦<PostCell<P> as Load>⟧.rest result; parcels = es }) ∷ []) × IsPermutation es (pool result.mail.items ++ result.fresh.items) }
        ensures gave { (boxes : List _) × (seat.new.place.me.0.gave ≡ boxes ++ seat.old.place.me.0.gave) × All (λ h. h.slot ≢ self.now.board.shards + s) boxes }
        ensures finds { (k : ℕ) → finds_of k seat.old.place.me.0.finds ≤ finds_of k seat.new.place.me.0.finds }
        ensures rest { seat.new.place.me.0 ≡ record seat.old.place.me.0 { hands = seat.new.place.me.0.hands; finds = seat.new.place.me.0.finds; gave = seat.new.place.me.0.gave } }
    {
        let mut served = served;
        for t in 0..self.board.shards as u32 {
            served = self.try_deliver(seat, s, t, served);
        }
        served
    }
}
