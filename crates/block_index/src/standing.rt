//! The order of places.

ghost use Rattle.std.specs.Prelude.{◌≡◌, ℕ, ◌+◌, ◌-◌, ◌*◌, ◌/◌, ◌^◌, ◌≤◌, ◌<◌};
ghost use Rattle.std.specs.Ordering.{nat_cmp};
ghost use Rattle.block_index.specs.Places.{IsPlace};
ghost use Rattle.block_index.specs.Order.{rank, tree_of, filled_path, compared_in_steps};

use crate::place::{DEEPEST, Place};
use std::cmp::Ordering;

/// What places are ordered by, first to last.
#[derive(Clone, Copy, PartialEq, Eq, PartialOrd, Ord)]
struct Standing {
    tree_z: u16,
    tree_y: u16,
    tree_x: u16,
    filled_path: u32,
    level: u8,
}

impl Standing {
    fn of(place: Place) -> Standing
        ensures value { result ≡ record {
          tree_z = tree_of place.level place.z;
          tree_y = tree_of place.level place.y;
          tree_x = tree_of place.level place.x;
          filled_path = filled_path place;
          level = place.level;
        } }
        ensures limits { IsPlace place }
    {
        Standing {
            tree_z: place.z() >> place.level(),
            tree_y: place.y() >> place.level(),
            tree_x: place.x() >> place.level(),
            filled_path: filled_path(place),
            level: place.level(),
        }
    }
}

/// The path with a zero for each level that the place lacks, so that an ancestor's is the least of its descendants'.
fn filled_path(place: Place) -> u32
    ensures { result ≡ filled_path place }
{
    place.path() * 8u32.pow(u32::from(DEEPEST - place.level()))
}

/// How two places stand in the order of leaves: by tree along z, then y, then x, then by path, an ancestor before
/// its descendants.
pub fn order(a: Place, b: Place) -> Ordering
    ensures ranks { result ≡ nat_cmp (rank a) (rank b) }
    ensures steps { result ≡ compared_in_steps a b }
{
    Standing::of(a).cmp(&Standing::of(b))
}
