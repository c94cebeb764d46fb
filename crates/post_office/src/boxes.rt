//! Emptying and filling boxes while a shard's cell is held.
ghost use Rattle.std.specs.Prelude.{◌≡◌, ◌≢◌, ◌⊎◌, ◌<◌, ◌≤◌, ◌+◌, ◌++◌, ℕ, List, [], ◌∷◌, All, IsPermutation, Some, length, slice_get, slice_set, true, false};
ghost use Rattle.quiet_table.specs.Contents.{pool};
ghost use Rattle.quiet_table.specs.Views.{hand_of};
ghost use Rattle.post_office.specs.Posts.{Standing, stood};
ghost use Rattle.post_office.specs.Finds.{FoundHeld, GivenBack, finds_of};

use crate::load::{PostBox, PostCell};
use crate::merging::{merge, post};
use crate::pile::Pile;
use crate::post::{Post, PostSeat};
use phase_core::Phase;
use quiet_table::{Load, Take};

// Whether the pile is there and has an envelope.
pub(crate) fn has_some<M>(mail: &Vec<Pile<M>>, at: usize) -> bool
    ensures yes { result ≡ true → at < length mail.now.items }
    ensures no { result ≡ false → (es : _) → slice_get mail.now.items at ≡ Some es → es ≡ [] }
{
    at < mail.len() && !mail[at].is_empty()
}

impl<P: Phase> Post<P> {
    // Tries the shard's own box once. Where it is free, what lies in it joins what waits.
    pub(crate) fn fetch(&self, seat: &mut PostSeat<P>, s: u32, served: PostCell<P>) -> PostCell<P>
        requires own { seat.old.place.table_id ≡ self.now.board.table.shared.table_id }
        requires within { s < self.now.board.shards }
        requires number { (served.shard ≡ s) × (served.owners.value.items ≡ self.now.owners.items) }
        requires held { seat.old.place.me.0.hands ≡ hand_of s (record { rest = ⟦<PostCell<P> as Load>⟧.rest served; parcels = ⟦<PostCell<P> as Load>⟧.parcels served }) ∷ [] }
        requires stands { Standing P.problem P.holds P.weight P.start_weight served.owners.value.items s (stood P.problem served.phase.value served.first.value.items served.cells.items) (pool served.mail.items ++ served.fresh.items) }
        ensures own { (seat.new.place.table_id ≡ seat.old.place.table_id) × (seat.new.place.id ≡ seat.old.place.id) }
        ensures kept { (result.phase ≡ served.phase) × (result.first ≡ served.first) × (result.owners ≡ served.owners) × (result.shard ≡ served.shard) × (result.cells ≡ served.cells) }
        ensures held { (es : List _) × (seat.new.place.me.0.hands ≡ hand_of s (record { rest = ⟦<PostCell<P> as Load>⟧.rest served; parcels = es }) ∷ []) × IsPermutation es (pool result.mail.items ++ result.fresh.items) }
        ensures stands { Standing P.problem P.holds P.weight P.start_weight served.owners.value.items s (stood P.problem served.phase.value served.first.value.items served.cells.items) (pool result.mail.items ++ result.fresh.items) }
        ensures tried { (boxes : List _) × (seat.new.place.me.0.gave ≡ boxes ++ seat.old.place.me.0.gave) × (FoundHeld (self.now.board.shards + s) seat.old.place.me.0.finds seat.new.place.me.0.finds ⊎ GivenBack (self.now.board.shards + s) boxes) × All (λ h. h.slot ≡ self.now.board.shards + s → h.parcels ≡ []) boxes }
        ensures finds { (k : ℕ) → finds_of k seat.old.place.me.0.finds ≤ finds_of k seat.new.place.me.0.finds }
        ensures rest { seat.new.place.me.0 ≡ record seat.old.place.me.0 { hands = seat.new.place.me.0.hands; finds = seat.new.place.me.0.finds; gave = seat.new.place.me.0.gave } }
    {
        match self.board.take_box(seat, s) {
            Take::Held { turn: _ } => served,
            Take::Taken(inbox) => {
                let (served, inbox) = merge(served, inbox);
                self.board.give_box(seat, s, inbox);
                served
            }
        }
    }

    // Tries the box of another shard once. Where it is free, what goes out to that shard is put into it.
    pub(crate) fn deliver(
        &self,
        seat: &mut PostSeat<P>,
        s: u32,
        t: u32,
        served: PostCell<P>,
    ) -> PostCell<P>
        requires own { seat.old.place.table_id ≡ self.now.board.table.shared.table_id }
        requires within { (s < self.now.board.shards) × (t < self.now.board.shards) × (t ≢ s) × (t < length served.mail.items) }
        requires number { (served.shard ≡ s) × (served.owners.value.items ≡ self.now.owners.items) }
        requires held { (es : List _) × (seat.old.place.me.0.hands ≡ hand_of s (record { rest = ⟦<PostCell<P> as Load>⟧.rest served; parcels = es }) ∷ []) × IsPermutation es (pool served.mail.items ++ served.fresh.items) }
        ensures own { (seat.new.place.table_id ≡ seat.old.place.table_id) × (seat.new.place.id ≡ seat.old.place.id) }
        ensures kept { (result.phase ≡ served.phase) × (result.first ≡ served.first) × (result.owners ≡ served.owners) × (result.shard ≡ served.shard) × (result.cells ≡ served.cells) × (result.fresh ≡ served.fresh) }
        ensures moved { ((result.mail.items ≡ served.mail.items) × FoundHeld (self.now.board.shards + t) seat.old.place.me.0.finds seat.new.place.me.0.finds) ⊎ (result.mail.items ≡ slice_set served.mail.items t []) }
        ensures held { (es : List _) × (seat.new.place.me.0.hands ≡ hand_of s (record { rest = ⟦<PostCell<P> as Load>⟧.rest result; parcels = es }) ∷ []) × IsPermutation es (pool result.mail.items ++ result.fresh.items) }
        ensures gave { (boxes : List _) × (seat.new.place.me.0.gave ≡ boxes ++ seat.old.place.me.0.gave) × All (λ h. h.slot ≢ self.now.board.shards + s) boxes }
        ensures finds { (k : ℕ) → finds_of k seat.old.place.me.0.finds ≤ finds_of k seat.new.place.me.0.finds }
        ensures rest { seat.new.place.me.0 ≡ record seat.old.place.me.0 { hands = seat.new.place.me.0.hands; finds = seat.new.place.me.0.finds; gave = seat.new.place.me.0.gave } }
    {
        match self.board.take_box(seat, t) {
            Take::Held { turn: _ } => served,
            Take::Taken(inbox) => {
                let (served, inbox) = post(served, inbox);
                self.board.give_box(seat, t, inbox);
                served
            }
        }
    }
}
