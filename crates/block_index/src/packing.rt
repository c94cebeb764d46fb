//! Places as words.

ghost use Rattle.std.specs.Prelude.{◌≡◌, ℕ, ◌+◌, ◌*◌, ◌/◌, ◌%◌, ◌^◌, ◌≤◌, ◌<◌, IsSome, IfSome, IsNone, ◌↔◌};
ghost use Rattle.block_index.specs.Places.{Cube, IsPlace, packed};

use crate::place::Place;

impl Place {
    /// The place as one word: its level from bit 48 on, z from bit 32 on, y from bit 16 on, and x.
    pub fn pack(self) -> u64
        ensures word { result ≡ packed self }
    {
        (u64::from(self.level()) << 48)
            + (u64::from(self.z()) << 32)
            + (u64::from(self.y()) << 16)
            + u64::from(self.x())
    }

    /// The place that packs to `word`, where there is one.
    pub fn unpack(word: u64) -> Option<Place>
        ensures packs_back { IfSome result (λ place. packed place ≡ word) }
        ensures limits { IfSome result (λ place. IsPlace place) }
        ensures every_place { (place : Cube) → IsPlace place → packed place ≡ word → result ≡ Some place }
        ensures none { IsNone result ↔ ((place : Cube) → IsPlace place → packed place ≡ word → ⊥) }
    {
        let level = u8::try_from(word >> 48).ok()?;
        Place::new(
            level,
            sixteen_bits(word, 0),
            sixteen_bits(word, 16),
            sixteen_bits(word, 32),
        )
    }
}

/// The sixteen bits of a word from bit `first` on.
fn sixteen_bits(word: u64, first: u8) -> u16
    requires { first < 64 }
    ensures { result ≡ word / 2 ^ first % 2 ^ 16 }
{
    ((word >> first) % 0x1_0000) as u16
}
