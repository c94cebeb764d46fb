//! One walk along the old blocks and the new places.
ghost use Rattle.std.specs.Prelude.{◌≡◌, ℕ, ◌+◌, ◌++◌, [], ◌∷◌, ◌<◌, List, Some, IfOk, OnOk, length, slice_get};
ghost use Rattle.block_index.specs.declared.wish.Wish.{Wish};
ghost use Rattle.leaf_set.specs.LevelRules.{IsSolution};
ghost use Rattle.leaf_set.specs.Meshes.{IsLeaf};
ghost use Rattle.leaf_set.specs.NextMesh.{next_mesh};
ghost use Rattle.block_fields.specs.Blocks.{BlockState, zero_block};
ghost use Rattle.block_fields.specs.BlockStates.{AreBlocksOf, state_of};
ghost use Rattle.block_fields.specs.Samples.{adapted};
ghost use Rattle.block_fields.specs.States.{total};
ghost use Rattle.prolong_restrict.specs.Families.{FieldsFit};
ghost use Rattle.split_join.specs.Applying.{AreBlocksOfSet, IsNextMesh, MadeOfZeros};
ghost use Rattle.split_join.specs.Lemmas.NewBlocks.{IsFamily};
ghost use Rattle.split_join.specs.Lemmas.Steps.{Gathers, Steps};

use crate::new_blocks::{parent_from, push_children};
use block_fields::Block;
use block_index::Place;
use cello_num::Memory;
use leaf_set::LeafSet;
use std::alloc::Global;
use std::cmp::Ordering;

/// The blocks of the next mesh in order, from those of the old one: a block whose leaf stays is moved, one whose leaf
/// is split gives its eight children, and eight whose leaves join give their parent.
pub fn apply(
    alloc: Global,
    blocks: Vec<Block>,
    old: &LeafSet,
    new: &LeafSet,
) -> Result<Vec<Block>, Memory>
    requires blocks { AreBlocksOfSet old.now blocks.items }
    requires next { IsNextMesh old.now new.now.places }
    ensures blocks { (n fields depth : ℕ) → AreBlocksOf old.now.places n fields depth blocks.items →
        IfOk result (λ next. AreBlocksOf new.now.places n fields depth next.items) }
    ensures adapted { (n fields depth : ℕ) (wishes : List Wish) (levels : List ℕ) → AreBlocksOf old.now.places n fields depth blocks.items →
        IsSolution old.now.grid old.now.places wishes levels → new.now.places ≡ next_mesh old.now.places levels →
        IfOk result (λ next. state_of old.now.grid n fields next.items ≡ adapted (state_of old.now.grid n fields blocks.items) levels) }
    ensures totals { (n fields depth f : ℕ) → AreBlocksOf old.now.places n fields depth blocks.items → f < fields →
        IfOk result (λ next. total (state_of old.now.grid n fields next.items) f ≡ total (state_of old.now.grid n fields blocks.items) f) }
    ensures kept { IfOk result (λ next. (i j : ℕ) (a b : BlockState) → slice_get blocks.items i ≡ Some a → slice_get next.items j ≡ Some b →
        b.place ≡ a.place → b ≡ a) }
    ensures fresh { IfOk result (λ next. (j : ℕ) (b : BlockState) → slice_get next.items j ≡ Some b → (IsLeaf old.now.places b.place → ⊥) →
        MadeOfZeros b) }
{
    let leaves = old.len();
    prove!(blocks.len() == leaves);
    let mut next = Vec::with_capacity(alloc, new.len())?;
    let mut family = Vec::with_capacity(alloc, 8)?;
    for block in blocks {
        let at = new.place(next.len());
        step(alloc, at, block, &mut family, &mut next)?;
    }
    Ok(next)
}

/// One old block, where the next new place is `at`: it is kept, or split, or waits for its family and joins with it.
fn step(
    alloc: Global,
    at: Place,
    block: Block,
    family: &mut Vec<Block>,
    next: &mut Vec<Block>,
) -> Result<(), Memory>
    requires room { block.place.level < at.level → block.place.level < 6 }
    requires family { at.level < block.place.level → length family.old.items ≡ 7 → (n : ℕ) × (fields : ℕ) × (depth : ℕ) × IsFamily at n fields depth (family.old.items ++ block ∷ []) }
    requires few { FieldsFit (family.old.items ++ block ∷ []) }
    ensures { OnOk result (Steps at block family.old.items next.old.items family.new.items next.new.items) }
{
    match at.level().cmp(&block.place().level()) {
        Ordering::Equal => next.push(block)?,
        Ordering::Greater => push_children(alloc, &block, next)?,
        Ordering::Less => gather(alloc, at, block, family, next)?,
    }
    Ok(())
}

/// One more block of a family that joins. The eighth one completes it.
fn gather(
    alloc: Global,
    at: Place,
    block: Block,
    family: &mut Vec<Block>,
    next: &mut Vec<Block>,
) -> Result<(), Memory>
    requires family { length family.old.items ≡ 7 → (n : ℕ) × (fields : ℕ) × (depth : ℕ) × IsFamily at n fields depth (family.old.items ++ block ∷ []) }
    requires few { FieldsFit (family.old.items ++ block ∷ []) }
    ensures { OnOk result (Gathers at block family.old.items next.old.items family.new.items next.new.items) }
{
    family.push(block)?;
    if family.len() == 8 {
        next.push(parent_from(alloc, at, family)?)?;
        family.clear();
    }
    Ok(())
}
