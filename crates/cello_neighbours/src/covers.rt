//! Covers: what stands at a place beside a leaf.

ghost use Rattle.std.specs.Prelude.{◌≡◌, ℕ, ◌<◌, ◌≤◌, [], ◌∷◌, ◌++◌, length, Contains};
ghost use Rattle.std.specs.List.Sorted.{IsStrictlyIncreasing};
ghost use Rattle.cello_neighbours.specs.Covers.{most_against};

use arrayvec::ArrayVec;
use std::marker::Model;

/// The most finer leaves that lie against a leaf on one side: those at a face.
const MOST_AGAINST: usize = 4;

/// What covers the place one step from a leaf. Leaves are given by their positions in the leaf set.
#[derive(Drop)]
pub enum Cover {
    /// The place is a leaf, as wide as the one that the step begins at. It may be that leaf itself.
    Same(u32),
    /// A coarser leaf contains the place.
    Coarser(u32),
    /// Finer leaves lie in the place, and of these the ones against the leaf.
    Finer(FinerList),
    /// The step leaves the domain on an axis that isn't periodic.
    Outside,
}

/// The finer leaves that lie against a leaf on one side, by their positions in the leaf set: ascending, 4 at a face, 2
/// at an edge, 1 at a corner.
#[derive(Drop)]
pub struct FinerList {
    leaves: ArrayVec<u32, MOST_AGAINST>,
}

impl Model for FinerList {
    ghost use Rattle.std.specs.Prelude.{List, ℕ};
    ghost use Rattle.std.specs.List.Sorted.{IsStrictlyIncreasing};

    ghost Value = { List ℕ };

    ghost view = { λ t. t.leaves.items };

    ghost invariant = { λ t. IsStrictlyIncreasing t.leaves.items };
}

impl FinerList {
    /// No leaves.
    pub(crate) fn new() -> FinerList
        ensures { result ≡ [] }
    {
        FinerList {
            leaves: ArrayVec::new(),
        }
    }

    /// How many leaves there are.
    pub fn len(&self) -> usize
        ensures len { result ≡ length self.now }
        ensures few { length self.now ≤ most_against }
    {
        self.leaves.len()
    }

    /// The positions of the leaves.
    pub fn items(&self) -> &[u32]
        ensures items { result.now ≡ self.now }
        ensures few { length self.now ≤ most_against }
        ensures ascending { IsStrictlyIncreasing self.now }
    {
        self.leaves.as_slice()
    }

    /// Puts a position behind the others.
    pub(crate) fn push(&mut self, leaf: u32)
        requires room { length self.old < most_against }
        requires later { (j : ℕ) → Contains self.old j → j < leaf }
        ensures items { self.new ≡ self.old ++ leaf ∷ [] }
    {
        self.leaves.push(leaf);
    }
}
