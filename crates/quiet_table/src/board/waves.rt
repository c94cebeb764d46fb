//! The two waves, and the verdict.
ghost use Rattle.std.specs.Prelude.{◌≡◌, ◌≢◌, ◌<◌, ◌≤◌, ◌+◌, ◌-◌, ◌*◌, ◌^◌, ◌++◌, [], ◌∷◌, take, length, true};
ghost use Rattle.quiet_table.specs.Words.{adds};
ghost use Rattle.quiet_table.specs.Waved.{Waved, verdict_word, SeesAgain};

use super::{Board, BoardSeat};
use crate::load::{LegalLoad, Load};
use crate::plays::{Declares, Looks, ReadsFirst, ReadsSecond, Stops};
use crate::rule::Place;
use crate::wave::{Verdict, Wave};

impl<C: LegalLoad, B: Load<Rest = C::Rest, Parcel = C::Parcel>> Board<C, B> {
    // Reads the next handled word. The first read of a wave clears the wave before.
    fn read_first(&self, place: &mut Place<C, B>, k: usize) -> u64
        requires own { place.old.table_id ≡ self.now.table.shared.table_id }
        requires within { k < self.now.shards }
        requires old { k ≤ length place.old.me.0.first }
        ensures own { (place.new.table_id ≡ place.old.table_id) × (place.new.id ≡ place.old.id) }
        ensures told { place.new.me ≡ (record place.old.me.0 { first = take k place.old.me.0.first ++ result ∷ []; second = [] }, place.old.me.1) }
        ensures small { adds (take k place.old.me.0.first ++ result ∷ []) < 2 ^ 62 }
    {
        self.table
            .shared
            .load::<ReadsFirst>(place, 3 * self.shards + k)
    }

    // Reads the next sent word.
    fn read_second(&self, place: &mut Place<C, B>, k: usize) -> u64
        requires own { place.old.table_id ≡ self.now.table.shared.table_id }
        requires within { k < self.now.shards }
        requires last { k ≡ length place.old.me.0.second }
        ensures own { (place.new.table_id ≡ place.old.table_id) × (place.new.id ≡ place.old.id) }
        ensures told { place.new.me ≡ (record place.old.me.0 { second = place.old.me.0.second ++ result ∷ [] }, place.old.me.1) }
        ensures small { adds (place.old.me.0.second ++ result ∷ []) < 2 ^ 62 }
    {
        self.table
            .shared
            .load::<ReadsSecond>(place, 2 * self.shards + k)
    }

    // Reads all handled words, and answers their sum.
    fn first_wave(&self, place: &mut Place<C, B>) -> u64
        requires own { place.old.table_id ≡ self.now.table.shared.table_id }
        requires some_shard { 0 < self.now.shards }
        ensures own { (place.new.table_id ≡ place.old.table_id) × (place.new.id ≡ place.old.id) }
        ensures told { place.new.me ≡ (record place.old.me.0 { first = place.new.me.0.first; second = [] }, place.old.me.1) }
        ensures full { (length place.new.me.0.first ≡ self.now.shards) × (result ≡ adds place.new.me.0.first) }
    {
        let mut handled = self.read_first(place, 0);
        for k in 1..self.shards {
            handled += self.read_first(place, k);
        }
        handled
    }

    // Reads all sent words, and answers their sum.
    fn second_wave(&self, place: &mut Place<C, B>) -> u64
        requires own { place.old.table_id ≡ self.now.table.shared.table_id }
        requires none { place.old.me.0.second ≡ [] }
        ensures own { (place.new.table_id ≡ place.old.table_id) × (place.new.id ≡ place.old.id) }
        ensures told { place.new.me ≡ (record place.old.me.0 { second = place.new.me.0.second }, place.old.me.1) }
        ensures full { (length place.new.me.0.second ≡ self.now.shards) × (result ≡ adds place.new.me.0.second) }
    {
        let mut sent = 0;
        for k in 0..self.shards {
            sent += self.read_second(place, k);
        }
        sent
    }

    // Tries once to set the verdict to Quiet, and answers the word that it found.
    fn declare(&self, place: &mut Place<C, B>) -> u64
        requires own { place.old.table_id ≡ self.now.table.shared.table_id }
        requires full { (length place.old.me.0.first ≡ self.now.shards) × (length place.old.me.0.second ≡ self.now.shards) }
        requires equal { adds place.old.me.0.first ≡ adds place.old.me.0.second }
        ensures own { (place.new.table_id ≡ place.old.table_id) × (place.new.id ≡ place.old.id) }
        ensures low { result ≤ 2 }
        ensures again { SeesAgain place.old.me.0.seen result }
        ensures running { result ≡ 0 → place.new.me ≡ (record place.old.me.0 { seen = 1 }, place.old.me.1) }
        ensures found { result ≢ 0 → place.new.me ≡ (record place.old.me.0 { seen = result }, place.old.me.1) }
    {
        self.table
            .shared
            .compare_exchange::<Declares>(place, 4 * self.shards, 0, 1)
    }

    /// Reads all handled words, then all sent words. Where the sums are equal it tries once to set the verdict to Quiet.
    /// `Stopped` comes only where the verdict was Stopped (two-wave counting: Mattern 1987).
    pub fn wave(&self, seat: &mut BoardSeat<C, B>) -> Wave
        requires own { seat.old.place.table_id ≡ self.now.table.shared.table_id }
        ensures own { (seat.new.place.table_id ≡ seat.old.place.table_id) × (seat.new.place.id ≡ seat.old.place.id) }
        ensures rest { seat.new.place.me.0 ≡ record seat.old.place.me.0 { first = seat.new.place.me.0.first; second = seat.new.place.me.0.second; seen = seat.new.place.me.0.seen } }
        ensures again { SeesAgain seat.old.place.me.0.seen seat.new.place.me.0.seen }
        ensures waved { Waved self.now.shards seat.new.place.me.0 result }
    {
        let handled = self.first_wave(&mut seat.place);
        let sent = self.second_wave(&mut seat.place);
        if handled != sent {
            return Wave::NotYet { handled, sent };
        }
        match self.declare(&mut seat.place) {
            2 => Wave::Stopped,
            _ => Wave::Quiet,
        }
    }

    // Tries once to set the verdict to Stopped, and answers the word that it found.
    fn try_stop(&self, place: &mut Place<C, B>) -> u64
        requires own { place.old.table_id ≡ self.now.table.shared.table_id }
        requires live { place.old.me.0.live ≡ true }
        ensures own { (place.new.table_id ≡ place.old.table_id) × (place.new.id ≡ place.old.id) }
        ensures low { result ≤ 2 }
        ensures again { SeesAgain place.old.me.0.seen result }
        ensures running { result ≡ 0 → place.new.me ≡ (record place.old.me.0 { stops = place.old.me.0.stops + 1; seen = 2 }, place.old.me.1) }
        ensures found { result ≢ 0 → place.new.me ≡ (record place.old.me.0 { stops = place.old.me.0.stops + 1; seen = result }, place.old.me.1) }
    {
        self.table
            .shared
            .compare_exchange::<Stops>(place, 4 * self.shards, 0, 2)
    }

    // Reads the verdict's word.
    fn look(&self, place: &mut Place<C, B>) -> u64
        requires own { place.old.table_id ≡ self.now.table.shared.table_id }
        ensures own { (place.new.table_id ≡ place.old.table_id) × (place.new.id ≡ place.old.id) }
        ensures low { result ≤ 2 }
        ensures again { SeesAgain place.old.me.0.seen result }
        ensures told { place.new.me ≡ (record place.old.me.0 { seen = result }, place.old.me.1) }
    {
        self.table.shared.load::<Looks>(place, 4 * self.shards)
    }

    /// Tries once to set the verdict from Running to Stopped, and answers the verdict after the try.
    pub fn stop(&self, seat: &mut BoardSeat<C, B>) -> Verdict
        requires own { seat.old.place.table_id ≡ self.now.table.shared.table_id }
        ensures own { (seat.new.place.table_id ≡ seat.old.place.table_id) × (seat.new.place.id ≡ seat.old.place.id) }
        ensures told { seat.new.place.me.0 ≡ record seat.old.place.me.0 { stops = seat.old.place.me.0.stops + 1; seen = verdict_word result } }
        ensures set { verdict_word result ≢ 0 }
        ensures again { SeesAgain seat.old.place.me.0.seen (verdict_word result) }
    {
        match self.try_stop(&mut seat.place) {
            1 => Verdict::Quiet,
            _ => Verdict::Stopped,
        }
    }

    /// What one look at the verdict reads.
    pub fn verdict(&self, seat: &mut BoardSeat<C, B>) -> Verdict
        requires own { seat.old.place.table_id ≡ self.now.table.shared.table_id }
        ensures own { (seat.new.place.table_id ≡ seat.old.place.table_id) × (seat.new.place.id ≡ seat.old.place.id) }
        ensures told { seat.new.place.me.0 ≡ record seat.old.place.me.0 { seen = verdict_word result } }
        ensures again { SeesAgain seat.old.place.me.0.seen (verdict_word result) }
    {
        match self.look(&mut seat.place) {
            0 => Verdict::Running,
            1 => Verdict::Quiet,
            _ => Verdict::Stopped,
        }
    }
}
