//! Laws about blocks: the state that the blocks of a mesh make up, and what a write changes.

ghost use Rattle.std.specs.Prelude.{◌≡◌, ℕ, ◌*◌, ◌≤◌, ◌<◌, List, ℤ, pos, Some, length, map, slice_get, slice_index, slice_set, sum, sum_by};
ghost use Rattle.std.specs.List.{range_with_len};
ghost use Rattle.block_index.specs.Places.{Cube, Grid, IsDomain};
ghost use Rattle.leaf_set.specs.Meshes.{IsMesh, IsBalanced};
ghost use Rattle.block_fields.specs.Blocks.{
  BlockState,
  IsBlock,
  amount_at,
  amounts_of,
  before_of,
  ghosts_of,
  seen_at,
  shell_of,
  with_amount,
  with_ghost,
  with_ghosts,
};
ghost use Rattle.block_fields.specs.BlockStates.{
  AreBlocksOf,
  HoldsSamples,
  IsBlockOf,
  IsLeafOf,
  sample_around,
  state_before,
  state_of,
};
ghost use Rattle.block_fields.specs.Cells.{block_of, cell_at, cell_number, cells_of};
ghost use Rattle.block_fields.specs.Lending.{with_before, with_direction, with_field};
ghost use Rattle.block_fields.specs.Shells.{IsAround, direction_of, ghost_size, number_around};
ghost use Rattle.block_fields.specs.States.{State, IsState, filled, held, total};

/// The blocks of a balanced mesh, one a leaf in order and all of one size, are a state: its total is the sum over the
/// blocks, and a cell holds what its block has. Blocks that hold what a function gives are the state filled by it.
pub fn blocks_of_a_mesh()
    ensures state { (grid : Grid) (leaves : List Cube) (n fields depth : ℕ) (blocks : List BlockState) → IsDomain grid → IsMesh grid leaves →
        IsBalanced grid leaves → 2 ≤ n → AreBlocksOf leaves n fields depth blocks → IsState (state_of grid n fields blocks) }
    ensures total { (grid : Grid) (n fields : ℕ) (blocks : List BlockState) (f : ℕ) →
        total (state_of grid n fields blocks) f ≡ sum_by (λ b. sum (amounts_of b f)) blocks }
    ensures held { (grid : Grid) (leaves : List Cube) (n fields depth : ℕ) (blocks : List BlockState) (i f : ℕ) (b : BlockState) (c : Cube) →
        IsDomain grid → IsMesh grid leaves → AreBlocksOf leaves n fields depth blocks → slice_get blocks i ≡ Some b → block_of n c ≡ b.place →
        held (state_of grid n fields blocks) f c ≡ slice_index (amounts_of b f) (cell_number n c) }
    ensures filled { (grid : Grid) (leaves : List Cube) (n fields depth : ℕ) (blocks : List BlockState) (given : ℕ → Cube → ℕ) →
        AreBlocksOf leaves n fields depth blocks → ((i : ℕ) (b : BlockState) → slice_get blocks i ≡ Some b →
        b.amounts ≡ map (λ f. map (given f) (cells_of n b.place)) (range_with_len 0 fields)) →
        state_of grid n fields blocks ≡ filled grid n fields leaves given }
    ensures by_cells { (n fields depth : ℕ) (b : BlockState) (given : ℕ → Cube → ℕ) → IsBlockOf n fields depth b →
        ((f j : ℕ) → f < fields → j < n * n * n → slice_index (amounts_of b f) j ≡ given f (cell_at n b.place j)) →
        b.amounts ≡ map (λ f. map (given f) (cells_of n b.place)) (range_with_len 0 fields) }
{}

/// The same of the second copies.
pub fn second_copies_of_a_mesh()
    ensures state { (grid : Grid) (leaves : List Cube) (n fields depth : ℕ) (blocks : List BlockState) → IsDomain grid → IsMesh grid leaves →
        IsBalanced grid leaves → 2 ≤ n → AreBlocksOf leaves n fields depth blocks → IsState (state_before grid n fields blocks) }
    ensures total { (grid : Grid) (n fields : ℕ) (blocks : List BlockState) (f : ℕ) →
        total (state_before grid n fields blocks) f ≡ sum_by (λ b. sum (before_of b f)) blocks }
    ensures held { (grid : Grid) (leaves : List Cube) (n fields depth : ℕ) (blocks : List BlockState) (i f : ℕ) (b : BlockState) (c : Cube) →
        IsDomain grid → IsMesh grid leaves → AreBlocksOf leaves n fields depth blocks → slice_get blocks i ≡ Some b → block_of n c ≡ b.place →
        held (state_before grid n fields blocks) f c ≡ slice_index (before_of b f) (cell_number n c) }
{}

/// An amount that is written is read again, and no other cell and no other field changes.
pub fn writing_amounts()
    ensures written { (b : BlockState) (f x y z q : ℕ) → IsBlock b → f < length b.amounts → x < b.edge → y < b.edge → z < b.edge →
        amount_at (with_amount b f x y z q) f x y z ≡ q }
    ensures other_cells { (b : BlockState) (f x y z q u v w : ℕ) → f < length b.amounts → x < b.edge → y < b.edge → u < b.edge → v < b.edge →
        (x ≡ u → y ≡ v → z ≡ w → ⊥) → amount_at (with_amount b f x y z q) f u v w ≡ amount_at b f u v w }
    ensures other_fields { (b : BlockState) (f x y z q g : ℕ) → (g ≡ f → ⊥) → amounts_of (with_amount b f x y z q) g ≡ amounts_of b g }
{}

/// A ghost that is written is read again, and nothing else changes that the block holds in its cells or around them.
pub fn writing_ghosts()
    ensures written { (b : BlockState) (f : ℕ) (x y z : ℤ) (q : ℕ) → IsBlock b → f < length b.amounts → IsAround b.edge b.depth x →
        IsAround b.edge b.depth y → IsAround b.edge b.depth z → (direction_of b.edge x y z ≡ 13 → ⊥) →
        seen_at (with_ghost b f x y z q) f x y z ≡ q }
    ensures other_cells { (b : BlockState) (f : ℕ) (x y z : ℤ) (q : ℕ) (u v w : ℤ) → IsBlock b → f < length b.amounts → IsAround b.edge b.depth x →
        IsAround b.edge b.depth y → IsAround b.edge b.depth z → (direction_of b.edge x y z ≡ 13 → ⊥) → IsAround b.edge b.depth u →
        IsAround b.edge b.depth v → IsAround b.edge b.depth w → (x ≡ u → y ≡ v → z ≡ w → ⊥) →
        seen_at (with_ghost b f x y z q) f u v w ≡ seen_at b f u v w }
    ensures other_fields { (b : BlockState) (f : ℕ) (x y z : ℤ) (q g : ℕ) → (g ≡ f → ⊥) → shell_of (with_ghost b f x y z q) g ≡ shell_of b g }
    ensures own_cells { (b : BlockState) (f x y z : ℕ) → x < b.edge → y < b.edge → z < b.edge →
        seen_at b f (pos x) (pos y) (pos z) ≡ amount_at b f x y z }
{}

/// Where a direction's ghosts of a field are written as a list, the cells of that direction hold its elements by number,
/// and all else stays.
pub fn writing_directions()
    ensures written { (b : BlockState) (f d : ℕ) (w : List ℕ) (x y z : ℤ) → IsBlock b → f < length b.amounts → direction_of b.edge x y z ≡ d →
        (d ≡ 13 → ⊥) → seen_at (with_ghosts b f d w) f x y z ≡ slice_index w (number_around b.edge b.depth x y z) }
    ensures other_directions { (b : BlockState) (f d : ℕ) (w : List ℕ) (g : ℕ) (x y z : ℤ) → IsBlock b → f < length b.amounts →
        (direction_of b.edge x y z ≡ d → ⊥) → seen_at (with_ghosts b f d w) g x y z ≡ seen_at b g x y z }
    ensures other_fields { (b : BlockState) (f d : ℕ) (w : List ℕ) (g : ℕ) (x y z : ℤ) → IsBlock b → f < length b.amounts →
        (g ≡ f → ⊥) → seen_at (with_ghosts b f d w) g x y z ≡ seen_at b g x y z }
{}

/// How long the lists of a block are.
pub fn lists_of_a_block()
    ensures amounts { (b : BlockState) (f : ℕ) → IsBlock b → f < length b.amounts → length (amounts_of b f) ≡ b.edge * b.edge * b.edge }
    ensures before { (b : BlockState) (f : ℕ) → IsBlock b → f < length b.amounts → length (before_of b f) ≡ b.edge * b.edge * b.edge }
    ensures ghosts { (b : BlockState) (f d : ℕ) → IsBlock b → f < length b.amounts → d < 27 → length (ghosts_of b f d) ≡ ghost_size b.edge b.depth d }
{}

/// A list of the right length takes the place of the one that was lent.
pub fn written_lists()
    ensures field { (b : BlockState) (f : ℕ) (w : List ℕ) → IsBlock b → f < length b.amounts → length w ≡ b.edge * b.edge * b.edge →
        with_field b f w ≡ record b { amounts = slice_set b.amounts f w } }
    ensures before { (b : BlockState) (f : ℕ) (w : List ℕ) → IsBlock b → f < length b.amounts → length w ≡ b.edge * b.edge * b.edge →
        with_before b f w ≡ record b { before = slice_set b.before f w } }
    ensures direction { (b : BlockState) (f d : ℕ) (w : List ℕ) → IsBlock b → f < length b.amounts → d < 27 →
        length w ≡ ghost_size b.edge b.depth d → with_direction b f d w ≡ with_ghosts b f d w }
{}

/// A block of a mesh is a leaf of the state. Where its ghosts hold the samples of its level, it sees these in its own
/// cells and around them.
pub fn samples_around_blocks()
    ensures leaf { (grid : Grid) (leaves : List Cube) (n fields depth : ℕ) (blocks : List BlockState) (i : ℕ) (b : BlockState) →
        AreBlocksOf leaves n fields depth blocks → slice_get blocks i ≡ Some b → IsLeafOf (state_of grid n fields blocks) i b }
    ensures seen { (s : State) (i : ℕ) (b : BlockState) (f : ℕ) (x y z : ℤ) → IsState s → IsLeafOf s i b → HoldsSamples s b → f < s.fields →
        IsAround b.edge b.depth x → IsAround b.edge b.depth y → IsAround b.edge b.depth z → seen_at b f x y z ≡ sample_around s b f x y z }
{}
