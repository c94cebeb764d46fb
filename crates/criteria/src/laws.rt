//! Laws about the tests of cells, and about the wishes of the blocks of a mesh.
ghost use Rattle.std.specs.Prelude.{◌≡◌, ℕ, ◌≤◌, All, List, Some, ℤ, map, slice_get};
ghost use Rattle.block_index.specs.Places.{Cube, Grid, IsDomain};
ghost use Rattle.leaf_set.specs.Meshes.{IsBalanced, IsMesh};
ghost use Rattle.block_fields.specs.Blocks.{BlockState, seen_at};
ghost use Rattle.block_fields.specs.BlockStates.{AreBlocksOf, HoldsSamples, state_of};
ghost use Rattle.params_check.specs.Limits.{KeepsCriterion};
ghost use Rattle.params_check.specs.declared.criterion.Criterion.{Criterion};
ghost use Rattle.criteria.specs.Cells.{IsNear, greatest_around, least_around};
ghost use Rattle.criteria.specs.Samples.{FieldSamples};
ghost use Rattle.criteria.specs.Wishes.{criteria_wish, wishes_in};

/// The greatest of the 27 samples at a cell and around it is one of them, and none of them is above it; the least is
/// one of them too, and none is below it.
pub fn greatest_and_least_around()
    ensures none_above { (s : FieldSamples) (x y z : ℕ) (u v w : ℤ) → IsNear x u → IsNear y v → IsNear z w → s u v w ≤ greatest_around s x y z }
    ensures none_below { (s : FieldSamples) (x y z : ℕ) (u v w : ℤ) → IsNear x u → IsNear y v → IsNear z w → least_around s x y z ≤ s u v w }
    ensures greatest_there { (s : FieldSamples) (x y z : ℕ) →
        (u : ℤ) × ((v : ℤ) × ((w : ℤ) × (IsNear x u × IsNear y v × IsNear z w × (s u v w ≡ greatest_around s x y z)))) }
    ensures least_there { (s : FieldSamples) (x y z : ℕ) →
        (u : ℤ) × ((v : ℤ) × ((w : ℤ) × (IsNear x u × IsNear y v × IsNear z w × (s u v w ≡ least_around s x y z)))) }
{}

/// Where the ghosts of all blocks of a mesh hold the samples of their state, the wishes of the blocks, one after another,
/// are those of the state's leaves.
pub fn wishes_of_a_mesh()
    ensures wishes { (grid : Grid) (leaves : List Cube) (n fields depth : ℕ) (blocks : List BlockState) (phase : ℕ) (criteria : List Criterion) →
        IsDomain grid → IsMesh grid leaves → IsBalanced grid leaves → 2 ≤ n → AreBlocksOf leaves n fields depth blocks →
        All (KeepsCriterion fields) criteria →
        ((i : ℕ) (b : BlockState) → slice_get blocks i ≡ Some b → HoldsSamples (state_of grid n fields blocks) b) →
        map (λ b. criteria_wish b.edge phase criteria (seen_at b) b.place) blocks ≡ wishes_in phase criteria (state_of grid n fields blocks) }
{}
