//! What a board's values have to say of themselves.
ghost use Rattle.std.specs.Prelude.{◌≡◌, ℕ, ◌+◌, ◌^◌, ◌<◌, List, [], ◌∷◌, ◌++◌, length, IsPermutation, IsTrue, ◌↔◌, slice_get, slice_set, Some};

/// A value that holds envelopes. Its contents are plain data in two halves: the envelopes, and all but them.
pub trait Load: Drop {
    /// All but the envelopes.
    type Rest;

    /// An envelope.
    type Parcel;

    ghost rest: { Self → Self.Rest };

    ghost parcels: { Self → List Self.Parcel };

    /// How many envelopes the value holds.
    fn load(&self) -> u64
        ensures count { result ≡ length (parcels self.now) };
}

/// A load that says which contents of all of a board are legal, and what one count may settle.
///
/// `legal` reads what all slots are but for their envelopes, the list of all envelopes in any order, and the settled
/// total, which is what was handled and counted or is still uncounted. `turn` leads from the contents of one cell to its
/// next contents, and sends and handles so many envelopes. `origin` says nothing of envelopes, and no turn changes it.
pub trait LegalLoad: Load {
    /// What the contents came from.
    type Origin;

    ghost legal: { List Self.Rest → List Self.Parcel → ℕ → Type 0 };

    ghost turn: { Self.Rest → List Self.Parcel → ℕ → ℕ → Self.Rest → List Self.Parcel → Type 0 };

    ghost origin: { List Self.Rest → Self.Origin };

    /// Whether the value holds no envelope.
    fn is_idle(&self) -> bool
        ensures none { IsTrue result ↔ (length (Self.parcels self.now) ≡ 0) }
    {
        self.load() == 0
    }

    ghost balanced: { (r : Self.Rest) (es : List Self.Parcel) (sent handled : ℕ) (r' : Self.Rest) (es' : List Self.Parcel) → turn r es sent handled r' es' → length es + sent ≡ length es' + handled };

    ghost idle: { (r : Self.Rest) (sent handled : ℕ) (r' : Self.Rest) (es' : List Self.Parcel) → turn r [] sent handled r' es' → handled ≡ 0 };

    ghost sends_after: { (r : Self.Rest) (es : List Self.Parcel) (sent handled : ℕ) (r' : Self.Rest) (es' : List Self.Parcel) → turn r es sent handled r' es' → 0 < sent → 0 < handled };

    ghost keeps: { (rests : List Self.Rest) (k : ℕ) (r : Self.Rest) (es others : List Self.Parcel) (sent handled : ℕ) (r' : Self.Rest) (es' : List Self.Parcel) (total : ℕ) → legal rests (es ++ others) total → slice_get rests k ≡ Some r → turn r es sent handled r' es' → legal (slice_set rests k r') (es' ++ others) (total + handled) };

    ghost any_order: { (rests : List Self.Rest) (es es' : List Self.Parcel) (total : ℕ) → IsPermutation es es' → legal rests es total → legal rests es' total };

    ghost bounded: { (rests : List Self.Rest) (es : List Self.Parcel) (total : ℕ) → legal rests es total → total + length es < 2 ^ 62 };

    ghost same_origin: { (rests : List Self.Rest) (k : ℕ) (r : Self.Rest) (es : List Self.Parcel) (sent handled : ℕ) (r' : Self.Rest) (es' : List Self.Parcel) → slice_get rests k ≡ Some r → turn r es sent handled r' es' → origin (slice_set rests k r') ≡ origin rests };
}
