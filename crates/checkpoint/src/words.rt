//! Numbers of 8 bytes, out of their bytes, and the parts that are made of them.
ghost use Rattle.std.specs.Prelude.{◌≡◌, ◌+◌, ◌*◌, ◌^◌, ◌<◌, ◌≤◌, All, IfErr, IfOk, drop, length, map, take};
ghost use Rattle.block_index.specs.Places.{Grid, IsPlace, packed};
ghost use Rattle.leaf_set.specs.Tiling.{IsTiling};
ghost use Rattle.checkpoint.specs.Lemmas.PartEnds.{EndsPlaces};
ghost use Rattle.checkpoint.specs.Reading.{AreNumber};
ghost use Rattle.checkpoint.specs.Spelling.{numbers_bytes};

use crate::fault::CheckFault;
use block_index::{Domain, Place};
use leaf_set::{LeafFault, LeafSet};
use std::alloc::Global;

/// The number in the 8 bytes from a place on.
pub fn word_at(bytes: &[u8], at: usize) -> u64
    requires within { 8 * at + 8 ≤ length bytes.now }
    ensures word { AreNumber 8 result (take 8 (drop (8 * at) bytes.now)) }
{
    let i = 8 * at;
    u64::from_be_bytes([
        bytes[i],
        bytes[i + 1],
        bytes[i + 2],
        bytes[i + 3],
        bytes[i + 4],
        bytes[i + 5],
        bytes[i + 6],
        bytes[i + 7],
    ])
}

/// The places of these words, or the first word that is none.
fn places_of(alloc: Global, bytes: &[u8], count: usize) -> Result<Vec<Place>, CheckFault>
    requires whole { length bytes.now ≡ 8 * count }
    requires few { count < 2 ^ 32 }
    ensures places { IfOk result (λ places. bytes.now ≡ numbers_bytes (map packed places.items)) }
    ensures limits { IfOk result (λ places. All IsPlace places.items) }
    ensures fault { IfErr result (λ f. (grid : Grid) → EndsPlaces grid bytes.now f) }
{
    let mut places = Vec::with_capacity(alloc, count)?;
    for at in 0..count {
        match Place::unpack(word_at(bytes, at)) {
            Some(place) => places.push(place)?,
            None => return Err(CheckFault::Word { at: at as u32 }),
        }
    }
    Ok(places)
}

/// The leaves of which the bytes are the words in order.
pub fn leaves(
    alloc: Global,
    bytes: &[u8],
    count: usize,
    domain: Domain,
) -> Result<LeafSet, CheckFault>
    requires whole { length bytes.now ≡ 8 * count }
    requires few { count < 2 ^ 32 }
    ensures sound { IfOk result (λ set. IsTiling set) }
    ensures grid { IfOk result (λ set. set.grid ≡ domain) }
    ensures places { IfOk result (λ set. bytes.now ≡ numbers_bytes (map packed set.places)) }
    ensures fault { IfErr result (EndsPlaces domain bytes.now) }
{
    let places = match places_of(alloc, bytes, count) {
        Ok(places) => places,
        Err(fault) => return Err(fault),
    };
    match LeafSet::from_places(alloc, domain, places) {
        Ok(set) => Ok(set),
        Err(LeafFault::Memory) => Err(CheckFault::Memory),
        Err(fault) => Err(CheckFault::Leaves(fault)),
    }
}
