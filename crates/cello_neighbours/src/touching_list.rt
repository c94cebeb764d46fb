//! The list of the leaves that touch a leaf.

ghost use Rattle.std.specs.Prelude.{◌≡◌, ℕ, ◌+◌, ◌<◌, ◌≤◌, ◌⊎◌, ◌↔◌, [], ◌∷◌, length, Contains};
ghost use Rattle.std.specs.List.Sorted.{IsStrictlyIncreasing};
ghost use Rattle.leaf_set.specs.TouchingLeaves.{most_touching};
ghost use Rattle.cello_neighbours.specs.Covers.{leaves_of};
ghost use Rattle.cello_neighbours.specs.Lemmas.Added.{IsAdded};

use crate::covers::Cover;
use arrayvec::ArrayVec;
use std::marker::Model;

/// The most leaves that touch a leaf of a balanced mesh: four at a face, two at an edge, one at a corner.
const MOST_TOUCHING: usize = 6 * 4 + 12 * 2 + 8;

/// The leaves that touch a leaf, by their positions in the leaf set: ascending, each once, at most 56.
#[derive(Drop)]
pub struct Touching {
    leaves: ArrayVec<u32, MOST_TOUCHING>,
}

impl Model for Touching {
    ghost use Rattle.std.specs.Prelude.{List, ℕ};
    ghost use Rattle.std.specs.List.Sorted.{IsStrictlyIncreasing};

    ghost Value = { List ℕ };

    ghost view = { λ t. t.leaves.items };

    ghost invariant = { λ t. IsStrictlyIncreasing t.leaves.items };
}

impl Touching {
    /// No leaves.
    pub(crate) fn new() -> Touching
        ensures { result ≡ [] }
    {
        Touching {
            leaves: ArrayVec::new(),
        }
    }

    /// The leaves of a list.
    pub(crate) fn of(leaves: &[u32]) -> Touching
        requires ascending { IsStrictlyIncreasing leaves.now }
        requires few { length leaves.now ≤ most_touching }
        ensures { result ≡ leaves.now }
    {
        let mut list = ArrayVec::new();
        list.try_extend_from_slice(leaves).unwrap();
        Touching { leaves: list }
    }

    /// How many leaves there are.
    pub fn len(&self) -> usize
        ensures len { result ≡ length self.now }
        ensures few { length self.now ≤ most_touching }
    {
        self.leaves.len()
    }

    /// The positions of the leaves.
    pub fn items(&self) -> &[u32]
        ensures items { result.now ≡ self.now }
        ensures few { length self.now ≤ most_touching }
        ensures ascending { IsStrictlyIncreasing self.now }
    {
        self.leaves.as_slice()
    }

    /// Puts the leaves that a cover names among the others, but for leaf `b`.
    pub(crate) fn add(&mut self, b: usize, cover: &Cover)
        requires room { length self.old + length (leaves_of cover.now) ≤ most_touching }
        ensures added { IsAdded b (leaves_of cover.now) self.old self.new }
    {
        match cover {
            Cover::Same(leaf) => self.add_leaf(b, *leaf),
            Cover::Coarser(leaf) => self.add_leaf(b, *leaf),
            Cover::Finer(leaves) => self.add_leaves(b, leaves.items()),
            Cover::Outside => {}
        }
    }

    /// Puts leaves among the others, but for leaf `b`.
    fn add_leaves(&mut self, b: usize, leaves: &[u32])
        requires room { length self.old + length leaves.now ≤ most_touching }
        ensures added { IsAdded b leaves.now self.old self.new }
    {
        for leaf in leaves {
            self.add_leaf(b, *leaf);
        }
    }

    /// Puts a leaf among the others, unless it is leaf `b`.
    fn add_leaf(&mut self, b: usize, leaf: u32)
        requires room { length self.old < most_touching }
        ensures added { IsAdded b (leaf ∷ []) self.old self.new }
    {
        if leaf as usize != b {
            self.insert(leaf);
        }
    }

    /// Puts a position among the others, where it isn't there yet.
    fn insert(&mut self, leaf: u32)
        requires room { length self.old < most_touching }
        ensures members { (j : ℕ) → Contains self.new j ↔ ((j ≡ leaf) ⊎ Contains self.old j) }
        ensures ascending { IsStrictlyIncreasing self.new }
        ensures one_more { length self.new ≤ length self.old + 1 }
    {
        if let Err(at) = self.leaves.as_slice().binary_search(&leaf) {
            self.leaves.insert(at, leaf);
        }
    }
}
