//! What keeps a list of places from being a mesh: one pass for each fault.
ghost use Rattle.std.specs.Prelude.{◌≡◌, ℕ, ◌+◌, ◌^◌, ◌<◌, ◌≤◌, ◌↔◌, IsTrue, Some, IfSome, IsNone, length, slice_get};
ghost use Rattle.block_index.specs.Places.{Cube, IsDomain, IsPlace};
ghost use Rattle.leaf_set.specs.LeafFaults.{
  BreaksOrder,
  LiesOutside,
  Overlaps,
  IsFirst,
  IsFirstPair,
  StandInOrder,
  LieInside,
  LieApart,
  IsLeafFault,
};
ghost use Rattle.leaf_set.specs.Meshes.{IsMesh};

use crate::bare_places::first_bare;
use crate::leaf_fault::LeafFault;
use block_index::{DEEPEST, Domain, Place, covers, inside, order};
use std::cmp::Ordering;

/// The first fault that keeps the places from being a mesh of the domain in order. Where there is none, they are one,
/// and balance alone is left to be looked at.
pub(crate) fn mesh_fault(domain: &Domain, places: &[Place]) -> Option<LeafFault>
    ensures found { IfSome result (λ f. IsLeafFault domain.now places.now f) }
    ensures none { IsNone result → IsMesh domain.now places.now }
    ensures limits { IsNone result → IsDomain domain.now }
{
    if let Some(at) = first_unordered(places) {
        return Some(LeafFault::Order { at });
    }
    if let Some(at) = first_outside(domain, places) {
        return Some(LeafFault::Outside { at });
    }
    if let Some(a) = first_overlap(places) {
        return Some(LeafFault::Overlap { a, b: a + 1 });
    }
    let at = first_bare(domain, places)?;
    Some(LeafFault::Hole { at })
}

/// The first place that doesn't stand after the one before it.
fn first_unordered(places: &[Place]) -> Option<u32>
    ensures found { IfSome result (λ at. IsFirst (BreaksOrder places.now) at) }
    ensures none { IsNone result → StandInOrder places.now }
    ensures few { IsNone result → length places.now ≤ 2 ^ 31 }
    ensures limits { IsNone result → (i : ℕ) (c : Cube) → slice_get places.now i ≡ Some c → IsPlace c }
{
    for at in 0..places.len() {
        if breaks_order(places, at) {
            return Some(at as u32);
        }
    }
    None
}

/// Whether the place at `at` doesn't stand after the one before it.
fn breaks_order(places: &[Place], at: usize) -> bool
    requires within { at < length places.now }
    ensures breaks { IsTrue result ↔ BreaksOrder places.now at }
    ensures limits { (c : Cube) → slice_get places.now at ≡ Some c → IsPlace c }
{
    // The limits of every place bound how many can stand in order.
    let level = places[at].level();
    prove!(level <= DEEPEST);
    at > 0 && order(places[at - 1], places[at]) != Ordering::Less
}

/// The first place that isn't inside the domain.
fn first_outside(domain: &Domain, places: &[Place]) -> Option<u32>
    requires few { length places.now ≤ 2 ^ 31 }
    ensures found { IfSome result (λ at. IsFirst (LiesOutside domain.now places.now) at) }
    ensures none { IsNone result → LieInside domain.now places.now }
{
    for at in 0..places.len() {
        if !inside(places[at], domain) {
            return Some(at as u32);
        }
    }
    None
}

/// The first place that contains a later one. It contains the next one, since what a place contains follows it.
fn first_overlap(places: &[Place]) -> Option<u32>
    requires in_order { StandInOrder places.now }
    requires limits { (i : ℕ) (c : Cube) → slice_get places.now i ≡ Some c → IsPlace c }
    requires few { length places.now ≤ 2 ^ 31 }
    ensures found { IfSome result (λ a. IsFirstPair (Overlaps places.now) a (a + 1)) }
    ensures below { IfSome result (λ a. a + 1 < 2 ^ 32) }
    ensures none { IsNone result → LieApart places.now }
{
    for b in 1..places.len() {
        if covers(places[b - 1], places[b]) {
            return Some((b - 1) as u32);
        }
    }
    None
}
