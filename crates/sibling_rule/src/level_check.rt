//! Whether levels are a solution of the level rules, and which rule they break first.
ghost use Rattle.std.specs.Prelude.{◌≡◌, ℕ, ◌<◌, ◌↔◌, IfSome, IsNone, IsTrue, All, length};
ghost use Rattle.leaf_set.specs.LeafFaults.{IsFirst};
ghost use Rattle.leaf_set.specs.LevelRules.{IsSolution};
ghost use Rattle.leaf_set.specs.Tiling.{IsTiling};
ghost use Rattle.leaf_set.specs.TouchingLeaves.{AreTouching};
ghost use Rattle.sibling_rule.specs.BrokenRules.{
  Breaks,
  BreaksJump,
  BreaksLone,
  BreaksRange,
  BreaksSibling,
  BreaksWish,
  IsFirstBroken,
  IsFirstOfLeaf,
};
ghost use Rattle.sibling_rule.specs.Lemmas.TouchAt.{TouchAt};
ghost use Rattle.sibling_rule.specs.declared.broken.LevelRule.{LevelRule};

use crate::broken::{Broken, LevelRule};
use crate::own_rules::{is_lone, wished_level};
use crate::siblings::are_siblings;
use block_index::Wish;
use cello_neighbours::touching;
use leaf_set::LeafSet;

/// The first rule that levels break, at the first leaf that breaks one; none where they are a solution. The work grows
/// with the leaves and the pairs of them that touch.
pub fn levels_ok(set: &LeafSet, wishes: &[Wish], levels: &[u8]) -> Option<Broken>
    requires wish_each { length wishes.now ≡ length set.now.places }
    requires level_each { length levels.now ≡ length set.now.places }
    ensures broken { IfSome result (λ b. IsFirstBroken set.now.grid set.now.places wishes.now levels.now b) }
    ensures none { IsNone result ↔ IsSolution set.now.grid set.now.places wishes.now levels.now }
{
    for i in 0..set.len() {
        if let Some(broken) = broken_at(set, wishes, levels, i) {
            return Some(broken);
        }
    }
    None
}

/// The first rule that a leaf breaks.
fn broken_at(set: &LeafSet, wishes: &[Wish], levels: &[u8], i: usize) -> Option<Broken>
    requires wish_each { length wishes.now ≡ length set.now.places }
    requires level_each { length levels.now ≡ length set.now.places }
    requires leaf { i < length set.now.places }
    ensures at { IfSome result (λ b. b.a ≡ i) }
    ensures broken { IfSome result (λ b. IsFirstOfLeaf set.now.grid set.now.places wishes.now levels.now i b.rule b.b) }
    ensures none { IsNone result → (r : LevelRule) (j : ℕ) → Breaks set.now.grid set.now.places wishes.now levels.now r i j → ⊥ }
{
    let leaves = set.len();
    prove!(i < leaves);
    let a = i as u32;
    if breaks_range(set, levels, i) {
        return Some(by(a, a, LevelRule::Range));
    }
    if breaks_wish(set, wishes, levels, i) {
        return Some(by(a, a, LevelRule::Wish));
    }
    let around = touching(set, i);
    if let Some(b) = first_jump(set, levels, i, around.items()) {
        return Some(by(a, b, LevelRule::Jump));
    }
    if breaks_lone(set, levels, i) {
        return Some(by(a, a, LevelRule::Lone));
    }
    match first_sibling(set, levels, i, around.items()) {
        Some(b) => Some(by(a, b, LevelRule::Sibling)),
        None => None,
    }
}

/// The rule that leaf `a` breaks by leaf `b`.
fn by(a: u32, b: u32, rule: LevelRule) -> Broken
    ensures broken { result ≡ record { a = a; b = b; rule = rule } }
{
    Broken { a, b, rule }
}

/// Whether a leaf's level is out of its range.
fn breaks_range(set: &LeafSet, levels: &[u8], i: usize) -> bool
    requires level_each { length levels.now ≡ length set.now.places }
    requires leaf { i < length set.now.places }
    ensures breaks { IsTrue result ↔ BreaksRange set.now.grid set.now.places levels.now i }
{
    let level = set.place(i).level();
    let most = level.saturating_add(1).min(set.domain().max_level());
    levels[i] < level.saturating_sub(1) || most < levels[i]
}

/// Whether a leaf's level is below the one that it wishes for.
fn breaks_wish(set: &LeafSet, wishes: &[Wish], levels: &[u8], i: usize) -> bool
    requires wish_each { length wishes.now ≡ length set.now.places }
    requires level_each { length levels.now ≡ length set.now.places }
    requires leaf { i < length set.now.places }
    ensures breaks { IsTrue result ↔ BreaksWish set.now.grid set.now.places wishes.now levels.now i }
{
    levels[i] < wished_level(set.place(i).level(), wishes[i], set.domain().max_level())
}

/// The first of the touching leaves whose level is too far above a leaf's.
fn first_jump(set: &LeafSet, levels: &[u8], i: usize, around: &[u32]) -> Option<u32>
    requires level_each { length levels.now ≡ length set.now.places }
    requires leaf { i < length set.now.places }
    requires around { AreTouching set.now.grid set.now.places i around.now }
    requires within { All (λ j. j < length set.now.places) around.now }
    ensures found { IfSome result (λ j. IsFirst (BreaksJump set.now.grid set.now.places levels.now i) j) }
    ensures none { IsNone result → (j : ℕ) → BreaksJump set.now.grid set.now.places levels.now i j → ⊥ }
{
    for j in around {
        if breaks_jump(set, levels, i, *j as usize) {
            return Some(*j);
        }
    }
    None
}

/// Whether a leaf's level is too far below that of a leaf that touches it.
fn breaks_jump(set: &LeafSet, levels: &[u8], i: usize, j: usize) -> bool
    requires level_each { length levels.now ≡ length set.now.places }
    requires leaf { i < length set.now.places }
    requires beside { j < length set.now.places }
    requires touch { TouchAt set.now.grid set.now.places i j }
    ensures breaks { IsTrue result ↔ BreaksJump set.now.grid set.now.places levels.now i j }
{
    levels[i] < levels[j].saturating_sub(1)
}

/// Whether a leaf coarsens though one of its sibling places is no leaf.
fn breaks_lone(set: &LeafSet, levels: &[u8], i: usize) -> bool
    requires level_each { length levels.now ≡ length set.now.places }
    requires leaf { i < length set.now.places }
    ensures breaks { IsTrue result ↔ BreaksLone set.now.places levels.now i }
{
    let leaf = set.place(i);
    levels[i] < leaf.level() && is_lone(set, leaf)
}

/// The first of a leaf's siblings that doesn't coarsen as it does. Siblings touch.
fn first_sibling(set: &LeafSet, levels: &[u8], i: usize, around: &[u32]) -> Option<u32>
    requires tiles { IsTiling set.now }
    requires level_each { length levels.now ≡ length set.now.places }
    requires leaf { i < length set.now.places }
    requires around { AreTouching set.now.grid set.now.places i around.now }
    requires within { All (λ j. j < length set.now.places) around.now }
    ensures found { IfSome result (λ j. IsFirst (BreaksSibling set.now.places levels.now i) j) }
    ensures none { IsNone result → (j : ℕ) → BreaksSibling set.now.places levels.now i j → ⊥ }
{
    for j in around {
        if breaks_sibling(set, levels, i, *j as usize) {
            return Some(*j);
        }
    }
    None
}

/// Whether a leaf coarsens beside a sibling that doesn't coarsen as far.
fn breaks_sibling(set: &LeafSet, levels: &[u8], i: usize, j: usize) -> bool
    requires level_each { length levels.now ≡ length set.now.places }
    requires leaf { i < length set.now.places }
    requires beside { j < length set.now.places }
    ensures breaks { IsTrue result ↔ BreaksSibling set.now.places levels.now i j }
{
    let leaf = set.place(i);
    levels[i] < levels[j].min(leaf.level()) && are_siblings(leaf, set.place(j))
}
