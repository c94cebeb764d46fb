//! Laws about fluxes and advanced states.

ghost use Rattle.std.specs.Prelude.{◌≡◌, ℕ, ◌+◌, ◌-◌, ◌*◌, ◌^◌, ◌<◌, ◌≤◌, ◌⊎◌, true, false, pos, negsuc, sum_by};
ghost use Rattle.block_index.specs.Places.{Cube, Grid};
ghost use Rattle.leaf_set.specs.Meshes.{IsLeaf};
ghost use Rattle.block_fields.specs.Cells.{block_of};
ghost use Rattle.block_fields.specs.States.{State, IsState, held, total};
ghost use Rattle.grid_fluxes.specs.Axes.{
  Axis,
  cell_stepped,
  first_children,
  is_outside,
  next_cell,
  previous_cell,
  wraps_along,
};
ghost use Rattle.grid_fluxes.specs.BoundaryFlows.{out, into};
ghost use Rattle.grid_fluxes.specs.Bounds.{
  CarriesShares,
  FluxesWithin,
  GivesWithin,
  IsBelowFinest,
  IsWithinFiner,
};
ghost use Rattle.grid_fluxes.specs.Fluxes.{
  Across,
  Fluxes,
  advanced,
  advanced_by,
  finer_across,
  flux_after,
  flux_before,
  given,
  given_along,
  none_across,
  taken,
  taken_along,
};
ghost use Rattle.grid_fluxes.specs.Replacing.{ReplacesAbove, ReplacesBelow, ReplacesNone};
ghost use Rattle.grid_fluxes.specs.Surroundings.{SameAmount, SameFluxes, SameSamples};
ghost use Rattle.grid_fluxes.specs.Upwind.{Flow, IsCourant, is_closed_face, upwind};

/// A state that is advanced is a state, and its amounts are as defined.
pub fn advanced_states()
    ensures state { (s : State) (across : Across) (fluxes : Fluxes) → IsState s → IsState (advanced_by s across fluxes) }
    ensures amounts { (s : State) (across : Across) (fluxes : Fluxes) (f : ℕ) (c : Cube) → IsState s → f < s.fields →
        IsLeaf s.leaves (block_of s.edge c) →
        held (advanced_by s across fluxes) f c ≡ held s f c - given s across fluxes f c + taken s across fluxes f c }
{}

/// Where no cell gives more than it has, a field's total after an advance and what went out are its total before it
/// and what came in, for the fluxes of every scheme. The upwind flux brings nothing in.
pub fn advancing_balances()
    ensures balance { (s : State) (fluxes : Fluxes) (f : ℕ) → IsState s → f < s.fields → GivesWithin s (finer_across s) fluxes f →
        total (advanced s fluxes) f + out s fluxes f ≡ total s f + into s fluxes f }
    ensures upwind_into { (s : State) (flow : Flow) (f : ℕ) → into s (upwind s flow) f ≡ 0 }
    ensures upwind { (s : State) (flow : Flow) (f : ℕ) → IsState s → f < s.fields → IsCourant flow s.grid.finest →
        total (advanced s (upwind s flow)) f + out s (upwind s flow) f ≡ total s f }
{}

/// Where each face carries a share of what its upwind cell holds, and the shares are small enough, no cell gives more
/// than it has, whichever of its faces carry the sum over finer faces. The upwind flux is such a one.
pub fn shares_stay_within()
    ensures any { (s : State) (across : Across) (fluxes : Fluxes) (f : ℕ) (share : Axis → ℕ) (den : ℕ) → IsState s → IsBelowFinest s across →
        CarriesShares s fluxes f share den → GivesWithin s across fluxes f }
    ensures none_across { (s : State) → IsBelowFinest s none_across }
    ensures finer_across { (s : State) → IsState s → IsBelowFinest s (finer_across s) }
    ensures within_finer { (s : State) (across : Across) → IsState s → IsWithinFiner s across → IsBelowFinest s across }
    ensures upwind { (s : State) (flow : Flow) (f : ℕ) → IsCourant flow s.grid.finest →
        CarriesShares s (upwind s flow) f flow.speed flow.den }
{}

/// Where no cell gives more than it has, what goes out is at most the field's total, and no amount of the advanced
/// state is above the total and what came in.
pub fn totals_bound_advances()
    ensures out { (s : State) (fluxes : Fluxes) (f : ℕ) → IsState s → f < s.fields → GivesWithin s (finer_across s) fluxes f →
        out s fluxes f ≤ total s f }
    ensures advanced { (s : State) (fluxes : Fluxes) (f : ℕ) (c : Cube) → IsState s → f < s.fields → GivesWithin s (finer_across s) fluxes f →
        held (advanced s fluxes) f c ≤ total s f + into s fluxes f }
{}

/// On the way of an advance, whichever of the faces with finer leaves across carry sums already, no amount is above four
/// times what bounds the total and the fluxes from outside. The upwind flux keeps to what its upwind cells hold, so its
/// provisional amounts are at most 2^42 where the total is at most 2^40.
pub fn amounts_on_the_way()
    ensures most { (s : State) (across : Across) (fluxes : Fluxes) (f m : ℕ) (c : Cube) → IsState s → f < s.fields → total s f ≤ m →
        FluxesWithin s fluxes f m → IsWithinFiner s across → IsLeaf s.leaves (block_of s.edge c) →
        held (advanced_by s across fluxes) f c ≤ 4 * m }
    ensures none_across { (s : State) → IsWithinFiner s none_across }
    ensures finer_across { (s : State) → IsWithinFiner s (finer_across s) }
    ensures upwind { (s : State) (flow : Flow) (f m : ℕ) → IsCourant flow s.grid.finest → FluxesWithin s (upwind s flow) f m }
    ensures provisional { (s : State) (across : Across) (flow : Flow) (f : ℕ) (c : Cube) → IsState s → f < s.fields → total s f ≤ 2 ^ 40 →
        IsCourant flow s.grid.finest → IsWithinFiner s across → IsLeaf s.leaves (block_of s.edge c) →
        held (advanced_by s across (upwind s flow)) f c ≤ 2 ^ 42 }
{}

/// From one choice of the faces that carry sums to another, a cell's amount changes by what it then gives less and takes
/// more. Where one face of the cell is replaced, by the sum in place of the own flux, and else not at all.
pub fn replacing_fluxes()
    ensures any { (s : State) (one other : Across) (fluxes : Fluxes) (f : ℕ) (c : Cube) → IsState s → f < s.fields →
        IsLeaf s.leaves (block_of s.edge c) → GivesWithin s one fluxes f → GivesWithin s other fluxes f →
        held (advanced_by s other fluxes) f c + given s other fluxes f c + taken s one fluxes f c
        ≡ held (advanced_by s one fluxes) f c + given s one fluxes f c + taken s other fluxes f c }
    ensures above_giving { (s : State) (one other : Across) (fluxes : Fluxes) (f : ℕ) (a : Axis) (c : Cube) → IsState s → f < s.fields →
        IsLeaf s.leaves (block_of s.edge c) → GivesWithin s one fluxes f → GivesWithin s other fluxes f → ReplacesAbove one other a c →
        fluxes.goes_up a ≡ true →
        held (advanced_by s other fluxes) f c + sum_by (fluxes.level_flux f a) (first_children a (next_cell a s.grid s.edge c))
        ≡ held (advanced_by s one fluxes) f c + fluxes.level_flux f a (next_cell a s.grid s.edge c) }
    ensures above_taking { (s : State) (one other : Across) (fluxes : Fluxes) (f : ℕ) (a : Axis) (c : Cube) → IsState s → f < s.fields →
        IsLeaf s.leaves (block_of s.edge c) → GivesWithin s one fluxes f → GivesWithin s other fluxes f → ReplacesAbove one other a c →
        fluxes.goes_up a ≡ false →
        held (advanced_by s other fluxes) f c + fluxes.level_flux f a (next_cell a s.grid s.edge c)
        ≡ held (advanced_by s one fluxes) f c + sum_by (fluxes.level_flux f a) (first_children a (next_cell a s.grid s.edge c)) }
    ensures below_taking { (s : State) (one other : Across) (fluxes : Fluxes) (f : ℕ) (a : Axis) (c : Cube) → IsState s → f < s.fields →
        IsLeaf s.leaves (block_of s.edge c) → GivesWithin s one fluxes f → GivesWithin s other fluxes f → ReplacesBelow one other a c →
        fluxes.goes_up a ≡ true →
        held (advanced_by s other fluxes) f c + fluxes.level_flux f a c
        ≡ held (advanced_by s one fluxes) f c + sum_by (fluxes.level_flux f a) (first_children a c) }
    ensures below_giving { (s : State) (one other : Across) (fluxes : Fluxes) (f : ℕ) (a : Axis) (c : Cube) → IsState s → f < s.fields →
        IsLeaf s.leaves (block_of s.edge c) → GivesWithin s one fluxes f → GivesWithin s other fluxes f → ReplacesBelow one other a c →
        fluxes.goes_up a ≡ false →
        held (advanced_by s other fluxes) f c + sum_by (fluxes.level_flux f a) (first_children a c)
        ≡ held (advanced_by s one fluxes) f c + fluxes.level_flux f a c }
    ensures none { (s : State) (one other : Across) (fluxes : Fluxes) (f : ℕ) (c : Cube) → IsState s → f < s.fields →
        IsLeaf s.leaves (block_of s.edge c) → ReplacesNone one other c →
        held (advanced_by s other fluxes) f c ≡ held (advanced_by s one fluxes) f c }
{}

/// Along an axis whose fluxes are all 0 a cell gives and takes nothing. The upwind flux is 0 along an axis of speed 0.
pub fn still_axes()
    ensures given { (s : State) (across : Across) (fluxes : Fluxes) (f : ℕ) (a : Axis) (c : Cube) → ((v : Cube) → fluxes.level_flux f a v ≡ 0) →
        given_along s across fluxes f c a ≡ 0 }
    ensures taken { (s : State) (across : Across) (fluxes : Fluxes) (f : ℕ) (a : Axis) (c : Cube) → ((v : Cube) → fluxes.level_flux f a v ≡ 0) →
        taken_along s across fluxes f c a ≡ 0 }
    ensures upwind { (s : State) (flow : Flow) (f : ℕ) (a : Axis) (v : Cube) → flow.speed a ≡ 0 → (upwind s flow).level_flux f a v ≡ 0 }
{}

/// The upwind flux through a closed face is 0. Where each axis is closed or periodic, nothing goes out.
pub fn closed_ends()
    ensures face { (s : State) (flow : Flow) (f : ℕ) (a : Axis) (v : Cube) → is_closed_face s flow a v ≡ true →
        (upwind s flow).level_flux f a v ≡ 0 }
    ensures out { (s : State) (flow : Flow) (f : ℕ) → IsState s → ((a : Axis) → (flow.closed a ≡ true) ⊎ (wraps_along a s.grid ≡ true)) →
        out s (upwind s flow) f ≡ 0 }
{}

/// The own flux through a face is one number from both of its sides: what the cell on one side gives is what the one
/// on the other side takes.
pub fn own_fluxes_from_both_sides()
    ensures one { (s : State) (flux : Axis → Cube → ℕ) (a : Axis) (c : Cube) →
        flux_after s none_across flux a c ≡ flux_before none_across flux a (next_cell a s.grid s.edge c) }
    ensures up { (s : State) (fluxes : Fluxes) (f : ℕ) (a : Axis) (c : Cube) → fluxes.goes_up a ≡ true →
        given_along s none_across fluxes f c a ≡ taken_along s none_across fluxes f (next_cell a s.grid s.edge c) a }
    ensures down { (s : State) (fluxes : Fluxes) (f : ℕ) (a : Axis) (c : Cube) → fluxes.goes_up a ≡ false →
        taken_along s none_across fluxes f c a ≡ given_along s none_across fluxes f (next_cell a s.grid s.edge c) a }
{}

/// A cell's amount after an advance depends on its own amount and the fluxes through its faces alone, for every scheme.
/// Under the upwind flux it depends on its own samples and those beside it alone.
pub fn amounts_by_their_surroundings()
    ensures fluxes { (s t : State) (across : Across) (one other : Fluxes) (f : ℕ) (c : Cube) → IsState s → IsState t →
        f < s.fields → f < t.fields → IsLeaf s.leaves (block_of s.edge c) → IsLeaf t.leaves (block_of t.edge c) →
        SameAmount s t f c → SameFluxes s t across one other f c →
        held (advanced_by s across one) f c ≡ held (advanced_by t across other) f c }
    ensures upwind { (s t : State) (across : Across) (flow : Flow) (f : ℕ) (c : Cube) → SameAmount s t f c → SameSamples s t across f c →
        SameFluxes s t across (upwind s flow) (upwind t flow) f c }
{}

/// The cell after a cell and the one before it lead back to each other, and are those that samples are asked for one step
/// away.
pub fn cells_beside()
    ensures previous_of_next { (a : Axis) (grid : Grid) (n : ℕ) (c : Cube) → previous_cell a grid n (next_cell a grid n c) ≡ c }
    ensures next_of_previous { (a : Axis) (grid : Grid) (n : ℕ) (c : Cube) → is_outside a grid n c ≡ false →
        is_outside a grid n (previous_cell a grid n c) ≡ false → next_cell a grid n (previous_cell a grid n c) ≡ c }
    ensures leaf_inside { (s : State) (a : Axis) (c : Cube) → IsState s → IsLeaf s.leaves (block_of s.edge c) → is_outside a s.grid s.edge c ≡ false }
    ensures itself { (grid : Grid) (a : Axis) (n : ℕ) (c : Cube) → ((b : Axis) → is_outside b grid n c ≡ false) →
        cell_stepped a grid n c (pos 0) ≡ c }
    ensures next { (grid : Grid) (a : Axis) (n : ℕ) (c : Cube) → ((b : Axis) → is_outside b grid n c ≡ false) →
        is_outside a grid n (next_cell a grid n c) ≡ false → cell_stepped a grid n c (pos 1) ≡ next_cell a grid n c }
    ensures previous { (grid : Grid) (a : Axis) (n : ℕ) (c : Cube) → ((b : Axis) → is_outside b grid n c ≡ false) →
        is_outside a grid n (previous_cell a grid n c) ≡ false → cell_stepped a grid n c (negsuc 0) ≡ previous_cell a grid n c }
{}
