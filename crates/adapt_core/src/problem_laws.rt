//! Laws of the problem: there is one, and no other.

ghost use Rattle.std.specs.Prelude.{◌≡◌, List, length};
ghost use Rattle.block_index.specs.Places.{Cube, Grid, IsDomain};
ghost use Rattle.block_index.specs.declared.wish.Wish.{Wish};
ghost use Rattle.leaf_set.specs.Meshes.{IsMesh, IsBalanced};
ghost use Rattle.adapt_core.specs.Cells.{LeafState, AdaptProblem};
ghost use Rattle.adapt_core.specs.Problem.{mesh_of, wishes_of, IsAdaptProblem, AdaptBegins};

/// The domain, the mesh and the wishes tell the problem, and with it the cells with which a phase begins.
pub fn one_problem()
    ensures one { (p q : AdaptProblem) → IsAdaptProblem p → IsAdaptProblem q → p.grid ≡ q.grid → mesh_of p ≡ mesh_of q → wishes_of p ≡ wishes_of q → p ≡ q }
    ensures cells { (p q : AdaptProblem) (cells others : List LeafState) → AdaptBegins p cells → AdaptBegins q others → p ≡ q → cells ≡ others }
{}

/// There is a problem for each balanced mesh and a wish for each of its leaves.
pub fn problem_exists()
    ensures exists { (grid : Grid) (mesh : List Cube) (wishes : List Wish) → IsDomain grid → IsMesh grid mesh → IsBalanced grid mesh → length wishes ≡ length mesh → (p : AdaptProblem) × IsAdaptProblem p × (p.grid ≡ grid) × (mesh_of p ≡ mesh) × (wishes_of p ≡ wishes) }
{}
