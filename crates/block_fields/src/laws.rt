//! Laws about states: samples, totals, and what adapting keeps.

ghost use Rattle.std.specs.Prelude.{◌≡◌, ℕ, ◌≤◌, ◌<◌, List, Some, length, map, slice_get, sum_by};
ghost use Rattle.std.specs.List.{range_with_len};
ghost use Rattle.cello_num.specs.Parts.{part};
ghost use Rattle.block_index.specs.Places.{Cube, Grid, IsDomain, child_of, parent_of, child_number};
ghost use Rattle.block_index.specs.declared.wish.Wish.{Wish};
ghost use Rattle.leaf_set.specs.Meshes.{IsLeaf, IsMesh, IsBalanced};
ghost use Rattle.leaf_set.specs.LevelRules.{IsSolution};
ghost use Rattle.leaf_set.specs.NextMesh.{children_of};
ghost use Rattle.block_fields.specs.Cells.{block_of, cells, cells_of};
ghost use Rattle.block_fields.specs.Divisions.{split_amounts, join_amounts};
ghost use Rattle.block_fields.specs.InitialStates.{initial, sum_over_roots};
ghost use Rattle.block_fields.specs.States.{State, IsState, total, held, filled};
ghost use Rattle.block_fields.specs.Samples.{sample, adapted};

/// A state that is filled by a function on a balanced mesh is a state, holds what the function gives, and its total is
/// the sum over all cells. The total of every state is such a sum.
pub fn filled_states()
    ensures state { (grid : Grid) (n fields : ℕ) (leaves : List Cube) (given : ℕ → Cube → ℕ) → IsDomain grid → IsMesh grid leaves →
        IsBalanced grid leaves → 2 ≤ n → IsState (filled grid n fields leaves given) }
    ensures holds { (grid : Grid) (n fields : ℕ) (leaves : List Cube) (given : ℕ → Cube → ℕ) (f : ℕ) (c : Cube) → IsDomain grid →
        IsMesh grid leaves → 2 ≤ n → f < fields → IsLeaf leaves (block_of n c) → held (filled grid n fields leaves given) f c ≡ given f c }
    ensures total { (grid : Grid) (n fields : ℕ) (leaves : List Cube) (given : ℕ → Cube → ℕ) (f : ℕ) → f < fields →
        total (filled grid n fields leaves given) f ≡ sum_by (given f) (cells n leaves) }
    ensures sum { (s : State) (f : ℕ) → IsState s → f < s.fields → total s f ≡ sum_by (held s f) (cells s.edge s.leaves) }
{}

/// The sample is the amount where a leaf holds the cell, the cell's part where a coarser leaf holds its parent, and
/// the sum of its children where finer leaves hold these.
pub fn samples()
    ensures here { (s : State) (f : ℕ) (c : Cube) → IsLeaf s.leaves (block_of s.edge c) → sample s f c ≡ held s f c }
    ensures coarser { (s : State) (f : ℕ) (c : Cube) → IsState s → 0 < c.level → IsLeaf s.leaves (parent_of (block_of s.edge c)) →
        sample s f c ≡ part (held s f (parent_of c)) (child_number c) }
    ensures finer { (s : State) (f : ℕ) (c : Cube) → IsState s → ((k : ℕ) → k < 8 → IsLeaf s.leaves (block_of s.edge (child_of c k))) →
        sample s f c ≡ sum_by (held s f) (children_of c) }
{}

/// The samples at the cells of a block: its own amounts where it is a leaf, parts of its parent's, or sums of its
/// children's.
pub fn samples_of_blocks()
    ensures kept { (s : State) (i : ℕ) (b : Cube) (amounts : List (List ℕ)) → IsState s → slice_get s.leaves i ≡ Some b →
        slice_get s.amounts i ≡ Some amounts →
        map (λ f. map (sample s f) (cells_of s.edge b)) (range_with_len 0 s.fields) ≡ amounts }
    ensures split { (s : State) (i k : ℕ) (a : Cube) (amounts : List (List ℕ)) → IsState s → slice_get s.leaves i ≡ Some a →
        slice_get s.amounts i ≡ Some amounts → k < 8 →
        map (λ f. map (sample s f) (cells_of s.edge (child_of a k))) (range_with_len 0 s.fields)
        ≡ split_amounts s.edge (child_of a k) amounts }
    ensures joined { (s : State) (p : Cube) (blocks : List (List (List ℕ))) → IsState s → length blocks ≡ 8 →
        ((k : ℕ) (amounts : List (List ℕ)) → slice_get blocks k ≡ Some amounts →
        (i : ℕ) × (slice_get s.leaves i ≡ Some (child_of p k)) × (slice_get s.amounts i ≡ Some amounts)) →
        map (λ f. map (sample s f) (cells_of s.edge p)) (range_with_len 0 s.fields) ≡ join_amounts s.edge s.fields p blocks }
{}

/// Adapting keeps each field's total, for every solution of the level rules.
pub fn adapting_keeps_totals()
    ensures totals { (s : State) (wishes : List Wish) (levels : List ℕ) (f : ℕ) → IsState s → IsSolution s.grid s.leaves wishes levels →
        f < s.fields → total (adapted s levels) f ≡ total s f }
{}

/// The total of the first state is the sum over the coordinates of the root cells.
pub fn first_state()
    ensures total { (grid : Grid) (n fields : ℕ) (given : ℕ → Cube → ℕ) (f : ℕ) → f < fields →
        total (initial grid n fields given) f ≡ sum_over_roots grid n (λ x y z. given f (record { level = 0; x = x; y = y; z = z })) }
{}

/// No amount and no sample is above the field's total.
pub fn totals_bound()
    ensures held { (s : State) (f : ℕ) (c : Cube) → IsState s → f < s.fields → held s f c ≤ total s f }
    ensures sample { (s : State) (f : ℕ) (c : Cube) → IsState s → f < s.fields → sample s f c ≤ total s f }
{}
