//! Laws about covers: there is one in each direction, and the leaves that it names touch the leaf.

ghost use Rattle.std.specs.Prelude.{◌≡◌, ℕ, ◌↔◌, Some, Contains, slice_get};
ghost use Rattle.block_index.specs.Places.{Cube, Grid, IsInside};
ghost use Rattle.block_index.specs.Touching.{Touches};
ghost use Rattle.leaf_set.specs.Tiling.{Tiling, IsTiling};
ghost use Rattle.block_index.specs.Beyond.{Offset, IsBeyond, LeavesDomain};
ghost use Rattle.cello_neighbours.specs.Directions.{IsDirection};
ghost use Rattle.cello_neighbours.specs.Covers.{IsCover, leaves_of};
ghost use Rattle.cello_neighbours.specs.declared.covers.Cover.{Cover};

/// A step goes to one place, and to none exactly where it leaves the domain on an axis that isn't periodic.
pub fn one_place_beyond()
    ensures one { (grid : Grid) (a p q : Cube) (d : Offset) → IsBeyond grid a d p → IsBeyond grid a d q → p ≡ q }
    ensures none { (grid : Grid) (a : Cube) (d : Offset) → IsInside grid a → IsDirection d →
        (((q : Cube) → IsBeyond grid a d q → ⊥) ↔ LeavesDomain grid a d) }
{}

/// A leaf has one cover in a direction.
pub fn one_cover()
    ensures one { (t : Tiling) (b : ℕ) (d : Offset) (cover other : Cover) → IsTiling t →
        IsCover t.grid t.places b d cover → IsCover t.grid t.places b d other → cover ≡ other }
{}

/// Each leaf that a cover names touches the leaf at which the step begins, unless it is that leaf.
pub fn covers_touch()
    ensures touch { (t : Tiling) (b j : ℕ) (a c : Cube) (d : Offset) (cover : Cover) → IsTiling t → IsDirection d →
        IsCover t.grid t.places b d cover → Contains (leaves_of cover) j → (j ≡ b → ⊥) →
        slice_get t.places b ≡ Some a → slice_get t.places j ≡ Some c → Touches t.grid a c }
{}
