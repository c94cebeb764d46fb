//! The levels that open a phase, leaf by leaf.

ghost use Rattle.std.specs.Prelude.{◌≡◌, ◌≤◌, ◌↔◌, IfOk, IsTrue, length, min};
ghost use Rattle.block_index.specs.Places.{deepest};
ghost use Rattle.leaf_set.specs.LevelRules.{wished_level};
ghost use Rattle.leaf_set.specs.Meshes.{IsLeaf};
ghost use Rattle.leaf_set.specs.Opening.{IsOpening};
ghost use Rattle.sibling_rule.specs.Lemmas.OwnLevel.{IsLone, OpensAt};

use block_index::{Place, Wish};
use cello_num::Memory;
use leaf_set::LeafSet;
use std::alloc::Global;

/// For each leaf, in order, the least level that the range, its wish and its missing siblings allow it.
pub fn opening(alloc: Global, set: &LeafSet, wishes: &[Wish]) -> Result<Vec<u8>, Memory>
    requires one_each { length wishes.now ≡ length set.now.places }
    ensures opening { IfOk result (λ levels. IsOpening set.now.grid set.now.places wishes.now levels.items) }
{
    let mut levels = Vec::with_capacity(alloc, set.len())?;
    for (i, wish) in wishes.iter().enumerate() {
        levels.push(opening_level(set, set.place(i), *wish))?;
    }
    Ok(levels)
}

/// The opening level of one leaf. It looks for a missing sibling only where the leaf wishes to coarsen.
fn opening_level(set: &LeafSet, leaf: Place, wish: Wish) -> u8
    requires { IsLeaf set.now.places leaf }
    ensures { OpensAt set.now.grid set.now.places leaf wish result }
{
    let wished = wished_level(leaf.level(), wish, set.domain().max_level());
    if wished < leaf.level() && is_lone(set, leaf) {
        leaf.level()
    } else {
        wished
    }
}

/// The level that a leaf's wish asks, at most the finest.
pub(crate) fn wished_level(level: u8, wish: Wish, finest: u8) -> u8
    requires { finest ≤ deepest }
    ensures { result ≡ min (wished_level wish level) finest }
{
    let wished = match wish {
        Wish::Coarsen => level.saturating_sub(1),
        Wish::Stay => level,
        Wish::Refine => level.saturating_add(1),
    };
    wished.min(finest)
}

/// Whether a leaf is no root and one of its sibling places is no leaf.
pub(crate) fn is_lone(set: &LeafSet, leaf: Place) -> bool
    ensures { IsTrue result ↔ IsLone set.now.places leaf }
{
    let Some(parent) = leaf.parent() else {
        return false;
    };
    for k in 0..8 {
        if set.position(parent.child(k)).is_none() {
            return true;
        }
    }
    false
}
