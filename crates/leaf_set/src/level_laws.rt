//! Laws about touching places, the level rules and the next mesh: balance, the solutions, and the least of them.

ghost use Rattle.std.specs.Prelude.{◌≡◌, ℕ, ◌+◌, ◌≤◌, true, List, Some, slice_get, slice_index};
ghost use Rattle.block_index.specs.Places.{Cube, Grid, IsDomain, IsInside, covers, deepest};
ghost use Rattle.block_index.specs.Touching.{Touches};
ghost use Rattle.block_index.specs.declared.wish.Wish.{Wish};
ghost use Rattle.leaf_set.specs.Meshes.{IsLeaf, IsMesh, IsBalanced};
ghost use Rattle.leaf_set.specs.TouchingLeaves.{IsCoveredBeside};
ghost use Rattle.leaf_set.specs.LevelRules.{IsSolution, IsLeast};
ghost use Rattle.leaf_set.specs.NextMesh.{next_mesh};
ghost use Rattle.leaf_set.specs.Solutions.{greatest_levels, pointwise_min};
ghost use Rattle.leaf_set.specs.LevelChanges.{Overlap, DifferByAtMostOne};

/// Touching is symmetric, and of two places that touch, those that cover them touch too unless one covers the other.
pub fn touching_places()
    ensures symmetric { (grid : Grid) (a c : Cube) → Touches grid a c → Touches grid c a }
    ensures grows { (grid : Grid) (a b c f : Cube) → covers a b ≡ true → covers c f ≡ true → b.level ≤ deepest → f.level ≤ deepest →
        (covers a c ≡ true → ⊥) → Touches grid b f → Touches grid a c }
{}

/// Beside a leaf of a balanced mesh a place as wide is a leaf, or its parent is, or its children that touch the leaf are.
pub fn places_beside_a_leaf()
    ensures covered { (grid : Grid) (mesh : List Cube) (q b : Cube) → IsDomain grid → IsMesh grid mesh → IsBalanced grid mesh →
        IsLeaf mesh b → q.level ≡ b.level → IsInside grid q → Touches grid q b → IsCoveredBeside grid mesh q b }
{}

/// The next mesh of a mesh at any solution of the level rules is balanced, and no level changes by more than one.
pub fn next_mesh_is_balanced()
    ensures balanced { (grid : Grid) (mesh : List Cube) (wishes : List Wish) (levels : List ℕ) → IsDomain grid → IsMesh grid mesh →
        IsSolution grid mesh wishes levels → IsBalanced grid (next_mesh mesh levels) }
    ensures near { (grid : Grid) (mesh : List Cube) (wishes : List Wish) (levels : List ℕ) (p : Cube) →
        IsSolution grid mesh wishes levels → IsLeaf (next_mesh mesh levels) p →
        (i : ℕ) × (a : Cube) × (slice_get mesh i ≡ Some a) × Overlap a p × DifferByAtMostOne a p }
    ensures changes_by_at_most_one { (grid : Grid) (mesh : List Cube) (wishes : List Wish) (levels : List ℕ) (a p : Cube) → IsDomain grid →
        IsMesh grid mesh → IsSolution grid mesh wishes levels → IsLeaf mesh a →
        IsLeaf (next_mesh mesh levels) p → Overlap a p → DifferByAtMostOne a p }
{}

/// The solutions of the level rules: the greatest levels are one for all wishes, the lesser of two at each leaf is
/// one, and each changes a level by at most one.
pub fn solutions_of_the_level_rules()
    ensures greatest { (grid : Grid) (mesh : List Cube) (wishes : List Wish) → IsDomain grid → IsMesh grid mesh →
        IsBalanced grid mesh → IsSolution grid mesh wishes (greatest_levels grid mesh) }
    ensures at_most_greatest { (grid : Grid) (mesh : List Cube) (wishes : List Wish) (levels : List ℕ) (i : ℕ) →
        IsSolution grid mesh wishes levels → slice_index levels i ≤ slice_index (greatest_levels grid mesh) i }
    ensures lesser { (grid : Grid) (mesh : List Cube) (wishes : List Wish) (levels others : List ℕ) →
        IsSolution grid mesh wishes levels → IsSolution grid mesh wishes others →
        IsSolution grid mesh wishes (pointwise_min levels others) }
    ensures by_at_most_one { (grid : Grid) (mesh : List Cube) (wishes : List Wish) (levels : List ℕ) (i : ℕ) (a : Cube) →
        IsSolution grid mesh wishes levels → slice_get mesh i ≡ Some a →
        (a.level ≤ slice_index levels i + 1) × (slice_index levels i ≤ a.level + 1) }
{}

/// The least solution of the level rules on a balanced mesh: there is one, and only one.
pub fn least_solution()
    ensures exists { (grid : Grid) (mesh : List Cube) (wishes : List Wish) → IsDomain grid → IsMesh grid mesh →
        IsBalanced grid mesh → (levels : List ℕ) × IsLeast grid mesh wishes levels }
    ensures unique { (grid : Grid) (mesh : List Cube) (wishes : List Wish) (levels others : List ℕ) →
        IsLeast grid mesh wishes levels → IsLeast grid mesh wishes others → levels ≡ others }
{}
