//! Laws about ghost cells, their regions, and the pieces that carry their samples.
ghost use Rattle.std.specs.Prelude.{◌≡◌, ℕ, ◌+◌, ◌*◌, ◌%◌, ◌<◌, ◌≤◌, ◌⊎◌, ◌↔◌, true, List, [], Some, slice_get, slice_index_or, length, map};
ghost use Rattle.std.specs.List.{range_with_len};
ghost use Rattle.block_index.specs.Places.{Cube, Grid, IsDomain, IsInside};
ghost use Rattle.block_index.specs.Touching.{Touches};
ghost use Rattle.leaf_set.specs.Meshes.{IsMesh, IsBalanced};
ghost use Rattle.block_fields.specs.Blocks.{BlockState};
ghost use Rattle.block_fields.specs.BlockStates.{IsLeafOf};
ghost use Rattle.block_fields.specs.States.{State, IsState};
ghost use Rattle.block_fields.specs.Samples.{sample};
ghost use Rattle.ghost_pieces.specs.Ghosts.{Local, IsGhost, IsSource, ghost_cell};
ghost use Rattle.ghost_pieces.specs.Boxes.{IsInBox, box_size, cell_in, has_region, region_box};
ghost use Rattle.ghost_pieces.specs.Regions.{Region, IsRegionCell, IsRegion, Member, Once, AreOwed, joined, most_regions};
ghost use Rattle.ghost_pieces.specs.Sent.{offset, sent, piece_amounts};
ghost use Rattle.ghost_pieces.specs.Pieces.{PieceState, AreOwedPieces, CarriesSamples, FitsSize, HasRegion, IsBetweenLeaves, filled};

/// Each ghost cell of each leaf has a source, which is the leaf itself or touches it, and no other.
pub fn one_source_each()
    ensures some { (grid : Grid) (leaves : List Cube) (n d j : ℕ) (b : Cube) (g : Local) → IsDomain grid → IsMesh grid leaves →
        IsBalanced grid leaves → n % 2 ≡ 0 → 2 * d ≤ n → slice_get leaves j ≡ Some b → IsGhost n d g →
        (i : ℕ) × (s : Cube) × (slice_get leaves i ≡ Some s) × IsSource n s (ghost_cell grid n d b g) × ((s ≡ b) ⊎ Touches grid b s) }
    ensures one { (grid : Grid) (leaves : List Cube) (n i j : ℕ) (a c v : Cube) → IsDomain grid → IsMesh grid leaves →
        slice_get leaves i ≡ Some a → slice_get leaves j ≡ Some c → IsSource n a v → IsSource n c v → i ≡ j }
{}

/// Each ghost cell lies in one region of its leaf. A region is a box, its leaves are one or touch, and a leaf has at most
/// 56 of them, so there is room where one is missing.
pub fn regions_cover()
    ensures over { (grid : Grid) (leaves : List Cube) (n d j : ℕ) (b : Cube) (g : Local) → IsDomain grid → IsMesh grid leaves →
        IsBalanced grid leaves → n % 2 ≡ 0 → 2 * d ≤ n → slice_get leaves j ≡ Some b → IsGhost n d g →
        (r : Region) × (r.receiver ≡ j) × IsRegionCell grid n d leaves r g }
    ensures one { (grid : Grid) (leaves : List Cube) (n d : ℕ) (r q : Region) (g : Local) → IsDomain grid → IsMesh grid leaves →
        IsBalanced grid leaves → r.receiver ≡ q.receiver → IsRegionCell grid n d leaves r g → IsRegionCell grid n d leaves q g → r ≡ q }
    ensures touch { (grid : Grid) (leaves : List Cube) (n d : ℕ) (r : Region) (g : Local) → IsDomain grid → IsMesh grid leaves →
        IsBalanced grid leaves → n % 2 ≡ 0 → 2 * d ≤ n → (x : IsRegionCell grid n d leaves r g) →
        (r.sender ≡ r.receiver) ⊎ Touches grid x.block x.source }
    ensures as_box { (grid : Grid) (leaves : List Cube) (n d : ℕ) (r : Region) (b s : Cube) (g : Local) → IsDomain grid → IsMesh grid leaves →
        IsBalanced grid leaves → n % 2 ≡ 0 → 2 * d ≤ n → 0 < n → slice_get leaves r.receiver ≡ Some b → slice_get leaves r.sender ≡ Some s →
        IsRegion grid n d leaves r → (IsRegionCell grid n d leaves r g ↔ IsInBox (region_box n d b r.direction s) g) }
    ensures few { (grid : Grid) (leaves : List Cube) (n d j : ℕ) (rs : List Region) → IsDomain grid → IsMesh grid leaves →
        n % 2 ≡ 0 → 2 * d ≤ n → 0 < n → Once rs → ((r : Region) → Member rs r → (r.receiver ≡ j) × IsRegion grid n d leaves r) →
        length rs ≤ most_regions }
    ensures room { (grid : Grid) (leaves : List Cube) (n d j : ℕ) (rs : List Region) (q : Region) → IsDomain grid → IsMesh grid leaves →
        n % 2 ≡ 0 → 2 * d ≤ n → 0 < n → Once rs → ((r : Region) → Member rs r → (r.receiver ≡ j) × IsRegion grid n d leaves r) →
        q.receiver ≡ j → IsRegion grid n d leaves q → (Member rs q → ⊥) → length rs < most_regions }
{}

/// The lists of what all leaves owe together name each region of each leaf once, and nothing else.
pub fn regions_owed()
    ensures all { (grid : Grid) (leaves : List Cube) (n d : ℕ) (lists : List (List Region)) → length lists ≡ length leaves →
        ((i : ℕ) (rs : List Region) → slice_get lists i ≡ Some rs → AreOwed grid n d leaves i rs) →
        Once (joined lists) × ((r : Region) → Member (joined lists) r ↔ IsRegion grid n d leaves r) }
{}

/// The sample of a cell of a region is what the sender's amounts give at an offset into its block, so the amounts of a
/// region's piece are its samples in order.
pub fn pieces_hold_samples()
    ensures cell { (s : State) (d f : ℕ) (r : Region) (b a : Cube) (amounts : List (List ℕ)) (g : Local) → IsState s → s.edge % 2 ≡ 0 →
        slice_get s.leaves r.receiver ≡ Some b → slice_get s.leaves r.sender ≡ Some a → slice_get s.amounts r.sender ≡ Some amounts →
        IsRegionCell s.grid s.edge d s.leaves r g →
        sample s f (ghost_cell s.grid s.edge d b g) ≡ sent s.edge b.level a.level (slice_index_or amounts f []) (offset s.grid s.edge d b a g) }
    ensures piece { (s : State) (d f : ℕ) (r : Region) (b a : Cube) (amounts : List (List ℕ)) → IsState s → s.edge % 2 ≡ 0 → 2 * d ≤ s.edge →
        slice_get s.leaves r.receiver ≡ Some b → slice_get s.leaves r.sender ≡ Some a → slice_get s.amounts r.sender ≡ Some amounts →
        IsRegion s.grid s.edge d s.leaves r →
        map (λ i. sample s f (ghost_cell s.grid s.edge d b (cell_in (region_box s.edge d b r.direction a) i)))
        (range_with_len 0 (box_size (region_box s.edge d b r.direction a)))
        ≡ piece_amounts s.grid s.edge d b r.direction a (slice_index_or amounts f []) }
{}

/// The pieces that a leaf owes lie between leaves of the mesh, have the size of their regions, and their places have a
/// region: so each can be filled by its sender and filed by its receiver.
pub fn owed_pieces()
    ensures between { (grid : Grid) (leaves : List Cube) (n d fields i k : ℕ) (ps : List PieceState) (p : PieceState) → IsDomain grid →
        IsMesh grid leaves → IsBalanced grid leaves → n % 2 ≡ 0 → 2 * d ≤ n → 0 < n → AreOwedPieces grid n d fields leaves i ps →
        slice_get ps k ≡ Some p → (p.region.sender ≡ i) × IsRegion grid n d leaves p.region × IsBetweenLeaves leaves p }
    ensures fits { (grid : Grid) (leaves : List Cube) (n d fields i k : ℕ) (ps : List PieceState) (p : PieceState) → IsDomain grid →
        IsMesh grid leaves → IsBalanced grid leaves → n % 2 ≡ 0 → 2 * d ≤ n → 0 < n → AreOwedPieces grid n d fields leaves i ps →
        slice_get ps k ≡ Some p → FitsSize n d fields p × HasRegion grid n d p }
{}

/// The two leaves of a region are at most one level apart, and their places have a region.
pub fn leaves_of_a_region()
    ensures found { (grid : Grid) (leaves : List Cube) (n d : ℕ) (r : Region) (b s : Cube) → IsDomain grid → IsMesh grid leaves →
        IsBalanced grid leaves → n % 2 ≡ 0 → 2 * d ≤ n → 0 < n → slice_get leaves r.receiver ≡ Some b → slice_get leaves r.sender ≡ Some s →
        IsRegion grid n d leaves r → has_region grid n d b r.direction s ≡ true }
    ensures near { (grid : Grid) (leaves : List Cube) (n d : ℕ) (r : Region) (b s : Cube) → IsDomain grid → IsMesh grid leaves →
        IsBalanced grid leaves → n % 2 ≡ 0 → 2 * d ≤ n → slice_get leaves r.receiver ≡ Some b → slice_get leaves r.sender ≡ Some s →
        IsRegion grid n d leaves r → (b.level ≤ s.level + 1) × (s.level ≤ b.level + 1) }
{}

/// A filled piece has the size of the empty one. Filled by the leaf of a state that owes it, it carries the samples of
/// its region, for every field.
pub fn filled_pieces()
    ensures fits { (grid : Grid) (fields : ℕ) (b : BlockState) (p : PieceState) → length b.amounts ≡ fields →
        FitsSize b.edge b.depth fields p → FitsSize b.edge b.depth fields (filled grid b p) }
    ensures samples { (s : State) (i k : ℕ) (b : BlockState) (ps : List PieceState) (p : PieceState) → IsState s → s.edge % 2 ≡ 0 →
        2 * b.depth ≤ s.edge → IsLeafOf s i b → AreOwedPieces s.grid s.edge b.depth s.fields s.leaves i ps → slice_get ps k ≡ Some p →
        CarriesSamples s b.depth (filled s.grid b p) }
    ensures carried { (s : State) (d : ℕ) (p : PieceState) → IsState s → s.edge % 2 ≡ 0 → 2 * d ≤ s.edge → CarriesSamples s d p →
        FitsSize s.edge d s.fields p }
{}
