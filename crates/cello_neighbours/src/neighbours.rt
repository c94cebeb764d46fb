//! All leaves that touch a leaf.

ghost use Rattle.std.specs.Prelude.{◌≡◌, ◌<◌, All, length};
ghost use Rattle.leaf_set.specs.TouchingLeaves.{AreTouching};

use crate::by_direction::in_direction;
use crate::directions::Direction;
use crate::touching_list::Touching;
use leaf_set::LeafSet;

/// How many offsets of steps of -1, 0 and 1 there are: the 26 directions, and no step at all.
const OFFSETS: u8 = 27;

/// The positions of all leaves that touch the leaf at `b`: as the set keeps them, or looked up.
pub fn touching(set: &LeafSet, b: usize) -> Touching
    requires leaf { b < length set.now.places }
    ensures touching { AreTouching set.now.grid set.now.places b result }
    ensures below { All (λ j. j < length set.now.places) result }
{
    match set.kept_touching(b) {
        Some(kept) => Touching::of(kept),
        None => looked_up(set, b),
    }
}

/// The positions of all leaves that touch the leaf at `b`, looked up direction by direction.
fn looked_up(set: &LeafSet, b: usize) -> Touching
    requires leaf { b < length set.now.places }
    ensures touching { AreTouching set.now.grid set.now.places b result }
{
    // The leaves of a leaf set are a balanced mesh.
    let leaves = set.len();
    prove!(b < leaves);
    let mut found = Touching::new();
    for n in 0..OFFSETS {
        if let Some(d) = Direction::numbered(n) {
            found.add(b, &in_direction(set, b, d));
        }
    }
    found
}
