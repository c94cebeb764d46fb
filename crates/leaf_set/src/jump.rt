//! The first jump of a mesh: two leaves that touch with levels more than one apart.
//!
//! Each jump is found from the finer of its leaves: the coarser one covers one of the places of the finer one's level
//! around the corner that this shares with its parent, and is looked up among the places above them.

ghost use Rattle.std.specs.Prelude.{◌≡◌, ℕ, ◌+◌, ◌*◌, ◌^◌, ◌<◌, ◌≤◌, ◌⊎◌, min, max, Some, IfSome, IsNone, IsSomeAnd, length, slice_get};
ghost use Rattle.block_index.specs.Places.{Cube, IsDomain, IsInside};
ghost use Rattle.block_index.specs.Axes.{IsUnitStep};
ghost use Rattle.leaf_set.specs.LeafFaults.{IsFirstPair, Jumps};
ghost use Rattle.leaf_set.specs.MeshLaws.{HasLeavesApart};
ghost use Rattle.leaf_set.specs.Meshes.{IsLeaf, IsMesh, IsBalanced};
ghost use Rattle.leaf_set.specs.Lemmas.JumpSearch.{IsAroundCorner, IsFarOver, IsFarAbove, IsUpTo, corner_step};

use block_index::{Domain, Place, place_beyond};
use indexmap::IndexSet;

/// How many places of a level lie around a corner: two along each axis.
const PLACES_AROUND: u8 = 8;

/// The first pair of positions, by the lesser and then the greater, whose leaves touch with levels more than one
/// apart.
pub(crate) fn first_jump(domain: &Domain, places: &IndexSet<Place>) -> Option<(u32, u32)>
    requires domain { IsDomain domain.now }
    requires mesh { IsMesh domain.now places.now.keys }
    ensures found { IfSome result (λ p. IsFirstPair (Jumps domain.now places.now.keys) p.0 p.1) }
    ensures none { IsNone result → IsBalanced domain.now places.now.keys }
{
    let mut first = None;
    for i in 0..places.len() {
        if let Some(j) = first_far_above(domain, places, i) {
            first = Some(earlier(first, pair(i, j)));
        }
    }
    first
}

/// Two positions as a pair, the lesser first.
fn pair(i: usize, j: usize) -> (u32, u32)
    requires i { i < 2 ^ 32 }
    requires j { j < 2 ^ 32 }
    ensures lesser { result.0 ≡ min i j }
    ensures greater { result.1 ≡ max i j }
{
    (i.min(j) as u32, i.max(j) as u32)
}

/// Of two pairs the earlier, by the first number and then the second.
fn earlier(a: Option<(u32, u32)>, b: (u32, u32)) -> (u32, u32)
    ensures either { (a ≡ Some result) ⊎ (result ≡ b) }
    ensures up_to_a { IfSome a (λ p. IsUpTo result.0 result.1 p.0 p.1) }
    ensures up_to_b { IsUpTo result.0 result.1 b.0 b.1 }
{
    match a {
        Some(a) if a.0 < b.0 || (a.0 == b.0 && a.1 < b.1) => a,
        _ => b,
    }
}

/// The first leaf that touches the leaf at `i` from more than one level up.
fn first_far_above(domain: &Domain, places: &IndexSet<Place>, i: usize) -> Option<usize>
    requires domain { IsDomain domain.now }
    requires mesh { IsMesh domain.now places.now.keys }
    requires leaf { i < length places.now.keys }
    ensures found { IfSome result (λ j. IsFarAbove domain.now places.now.keys i j) }
    ensures first { (j : ℕ) → IsFarAbove domain.now places.now.keys i j → IsSomeAnd result (λ k. k ≤ j) }
{
    let leaf = places.as_slice()[i];
    let mut first = None;
    for s in 1..PLACES_AROUND {
        if let Some(j) = far_above_around(domain, places, leaf, s) {
            first = Some(lesser(first, j));
        }
    }
    first
}

/// The lesser of two positions.
fn lesser(a: Option<usize>, b: usize) -> usize
    ensures either { (a ≡ Some result) ⊎ (result ≡ b) }
    ensures up_to_a { IfSome a (λ k. result ≤ k) }
    ensures up_to_b { result ≤ b }
{
    match a {
        Some(a) if a < b => a,
        _ => b,
    }
}

/// The leaf that covers the place numbered `s` around a leaf's corner from more than one level up.
fn far_above_around(domain: &Domain, places: &IndexSet<Place>, leaf: Place, s: u8) -> Option<usize>
    requires inside { IsInside domain.now leaf }
    requires apart { HasLeavesApart places.now.keys }
    requires number { s < 8 }
    ensures found { IfSome result (λ j. (u c : Cube) × IsAroundCorner domain.now leaf s u × IsFarOver places.now.keys u j c) }
    ensures every { (u c : Cube) (j : ℕ) → IsAroundCorner domain.now leaf s u → IsFarOver places.now.keys u j c → result ≡ Some j }
{
    far_above(places, around_corner(domain, leaf, s)?)
}

/// The leaf that covers a place from more than one level up.
fn far_above(places: &IndexSet<Place>, place: Place) -> Option<usize>
    requires apart { HasLeavesApart places.now.keys }
    ensures found { IfSome result (λ j. (c : Cube) × IsFarOver places.now.keys place j c) }
    ensures every { (c : Cube) (j : ℕ) → IsFarOver places.now.keys place j c → result ≡ Some j }
{
    let mut below = place.parent()?;
    while let Some(above) = below.parent() {
        if let Some(j) = position(places, above) {
            return Some(j);
        }
        below = above;
    }
    None
}

/// The position at which a place is a leaf.
fn position(places: &IndexSet<Place>, at: Place) -> Option<usize>
    ensures found { IfSome result (λ j. slice_get places.now.keys j ≡ Some at) }
    ensures none { IsNone result → IsLeaf places.now.keys at → ⊥ }
{
    places.get_index_of(&at)
}

/// The place numbered `s` of the eight around the corner that a leaf shares with its parent, x fastest, then y, then
/// z. Number 0 is the leaf's own. Outside an axis that doesn't wrap there is none.
fn around_corner(domain: &Domain, leaf: Place, s: u8) -> Option<Place>
    requires inside { IsInside domain.now leaf }
    requires number { s < 8 }
    ensures found { IfSome result (λ u. IsAroundCorner domain.now leaf s u) }
    ensures every { (u : Cube) → IsAroundCorner domain.now leaf s u → result ≡ Some u }
{
    place_beyond(
        leaf,
        corner_step(leaf.x(), s % 2),
        corner_step(leaf.y(), s / 2 % 2),
        corner_step(leaf.z(), s / 4),
        domain,
    )
}

/// The step from a place along an axis: none with `k = 0`, else the one to the side where its parent ends too.
fn corner_step(x: u16, k: u8) -> i8
    requires number { k < 2 }
    ensures step { result ≡ corner_step x k }
    ensures unit { IsUnitStep result }
{
    if k == 0 {
        0
    } else if x % 2 == 0 {
        -1
    } else {
        1
    }
}
