//! Laws about the definitions: what holds of every mesh, of the mesh of the roots, and of the next mesh.

ghost use Rattle.std.specs.Prelude.{◌≡◌, ℕ, ◌*◌, ◌^◌, ◌≤◌, List, Some, length, slice_get};
ghost use Rattle.block_index.specs.Places.{Cube, Grid, IsDomain};
ghost use Rattle.block_index.specs.declared.wish.Wish.{Wish};
ghost use Rattle.leaf_set.specs.declared.leaf_fault.LeafFault.{LeafFault};
ghost use Rattle.leaf_set.specs.declared.leaf_fault.LeafFault.TheVariants.{Memory};
ghost use Rattle.leaf_set.specs.LeafFaults.{IsLeafFault};
ghost use Rattle.leaf_set.specs.Meshes.{IsLeaf, IsMesh, IsBalanced, most_leaves};
ghost use Rattle.leaf_set.specs.LevelRules.{IsSolution};
ghost use Rattle.leaf_set.specs.NextMesh.{next_mesh};
ghost use Rattle.leaf_set.specs.RootMesh.{root_mesh, tree_count};
ghost use Rattle.leaf_set.specs.Origins.{Origin};
ghost use Rattle.leaf_set.specs.Tiling.{IsTiling};
ghost use Rattle.leaf_set.specs.MeshLaws.{
  HasDistinctLeaves,
  HasLeavesInOrder,
  HasLeavesApart,
  HasOneLeafOver,
  HasLeafNear,
  HasLastLeafOver,
  IsLeafOrNot,
};

/// The mesh of the roots is a balanced mesh of every domain.
pub fn root_mesh_is_a_mesh()
    ensures mesh { (grid : Grid) → IsDomain grid → IsMesh grid (root_mesh grid) }
    ensures level { (grid : Grid) (i : ℕ) (c : Cube) → slice_get (root_mesh grid) i ≡ Some c → c.level ≡ 0 }
    ensures balanced { (grid : Grid) → IsBalanced grid (root_mesh grid) }
{}

/// The leaves of a mesh: each stands once, in order, and no part of the domain is left out or covered twice.
pub fn leaves_of_a_mesh()
    ensures distinct { (grid : Grid) (mesh : List Cube) → IsDomain grid → IsMesh grid mesh → HasDistinctLeaves mesh }
    ensures in_order { (grid : Grid) (mesh : List Cube) → IsDomain grid → IsMesh grid mesh → HasLeavesInOrder mesh }
    ensures apart { (grid : Grid) (mesh : List Cube) → IsDomain grid → IsMesh grid mesh → HasLeavesApart mesh }
    ensures one_over { (grid : Grid) (mesh : List Cube) → IsDomain grid → IsMesh grid mesh → HasOneLeafOver grid mesh }
    ensures near { (grid : Grid) (mesh : List Cube) → IsDomain grid → IsMesh grid mesh → HasLeafNear grid mesh }
    ensures last_over { (grid : Grid) (mesh : List Cube) → IsDomain grid → IsMesh grid mesh → HasLastLeafOver grid mesh }
    ensures decided { (mesh : List Cube) (c : Cube) → IsLeafOrNot mesh c }
    ensures count { (grid : Grid) (mesh : List Cube) → IsDomain grid → IsMesh grid mesh →
        length mesh ≤ tree_count grid * 8 ^ grid.finest }
    ensures limit { (grid : Grid) (mesh : List Cube) → IsDomain grid → IsMesh grid mesh → length mesh ≤ most_leaves }
{}

/// The next mesh of a mesh at any solution of the level rules is a mesh, and each of its leaves has an origin.
pub fn next_mesh_is_a_mesh()
    ensures mesh { (grid : Grid) (mesh : List Cube) (wishes : List Wish) (levels : List ℕ) → IsDomain grid → IsMesh grid mesh →
        IsSolution grid mesh wishes levels → IsMesh grid (next_mesh mesh levels) }
    ensures origins { (grid : Grid) (mesh : List Cube) (wishes : List Wish) (levels : List ℕ) (p : Cube) →
        IsSolution grid mesh wishes levels → IsLeaf (next_mesh mesh levels) p → Origin mesh levels p }
{}

/// The faults of a list of places: one that has a fault is no balanced mesh in order, and it has one fault, the first.
pub fn faults_of_places()
    ensures no_mesh { (grid : Grid) (places : List Cube) (f : LeafFault) → IsLeafFault grid places f → (f ≡ Memory → ⊥) →
        IsTiling (record { grid = grid; places = places }) → ⊥ }
    ensures one_fault { (grid : Grid) (places : List Cube) (f g : LeafFault) → IsDomain grid → IsLeafFault grid places f →
        IsLeafFault grid places g → (f ≡ Memory → ⊥) → (g ≡ Memory → ⊥) → f ≡ g }
{}
