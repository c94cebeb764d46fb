//! Laws about filing: what a block's shell holds after one piece, and after all.
ghost use Rattle.std.specs.Prelude.{◌≡◌, ℕ, ◌*◌, ◌%◌, ◌<◌, ◌≤◌, ◌⊎◌, true, false, List, [], length, slice_index, slice_index_or};
ghost use Rattle.block_index.specs.Places.{Cube, Grid, IsDomain};
ghost use Rattle.leaf_set.specs.Meshes.{IsMesh};
ghost use Rattle.cello_neighbours.specs.Directions.{IsDirection};
ghost use Rattle.block_fields.specs.Blocks.{BlockState, IsBlock};
ghost use Rattle.block_fields.specs.BlockStates.{HoldsSamples, IsLeafOf};
ghost use Rattle.block_fields.specs.States.{State, IsState};
ghost use Rattle.ghost_pieces.specs.Ghosts.{Local};
ghost use Rattle.ghost_pieces.specs.Boxes.{IsInBox, box_size, cell_in};
ghost use Rattle.ghost_pieces.specs.Regions.{Region, IsRegion, Member, Once, most_regions};
ghost use Rattle.ghost_pieces.specs.Pieces.{PieceState, CarriesSamples, FitsSize, box_of};
ghost use Rattle.ghost_pieces.specs.Filing.{Source, after_filing, is_filed, source_of, with_filed, with_piece};
ghost use Rattle.ghost_pieces.specs.Shells.{HoldsFiled, AreAllFiled, IsLocal, IsSourceOf, seen_local};

/// After filing, the cells of the piece's region hold its amounts, in order, in every field, and all else that the block
/// holds in its cells or around them is as before. It keeps the limits of blocks.
pub fn filing_a_piece()
    ensures cells { (b : BlockState) (p : PieceState) (f k : ℕ) → IsBlock b → FitsSize b.edge b.depth (length b.amounts) p →
        IsDirection p.region.direction → f < length b.amounts → k < box_size (box_of b.edge b.depth p) →
        seen_local (with_piece b p) f (cell_in (box_of b.edge b.depth p) k) ≡ slice_index (slice_index_or p.amounts f []) k }
    ensures others { (b : BlockState) (p : PieceState) (f : ℕ) (g : Local) → IsBlock b → FitsSize b.edge b.depth (length b.amounts) p →
        IsDirection p.region.direction → f < length b.amounts → IsLocal b.edge b.depth g → (IsInBox (box_of b.edge b.depth p) g → ⊥) →
        seen_local (with_piece b p) f g ≡ seen_local b f g }
    ensures limits { (b : BlockState) (p : PieceState) → IsBlock b → FitsSize b.edge b.depth (length b.amounts) p →
        IsDirection p.region.direction → IsBlock (with_piece b p) }
{}

/// The list of filed regions: a region stands in it exactly where it was filed before or just now, none stands twice, and
/// there is room where one of the leaf's is missing.
pub fn filed_regions()
    ensures none { (r : Region) → is_filed [] r ≡ false }
    ensures this { (filed : List Source) (r : Region) → is_filed (with_filed filed r) r ≡ true }
    ensures kept { (filed : List Source) (r q : Region) → is_filed filed q ≡ true → is_filed (with_filed filed r) q ≡ true }
    ensures others { (filed : List Source) (r q : Region) → is_filed (with_filed filed r) q ≡ true → (is_filed filed q ≡ true) ⊎ (source_of q ≡ source_of r) }
    ensures one { (r q : Region) → IsDirection r.direction → IsDirection q.direction → r.receiver ≡ q.receiver → source_of r ≡ source_of q → r ≡ q }
    ensures once { (filed : List Source) (r : Region) → Once filed → Once (with_filed filed r) }
    ensures room { (grid : Grid) (leaves : List Cube) (n d j : ℕ) (filed : List Source) (q : Region) → IsDomain grid → IsMesh grid leaves →
        n % 2 ≡ 0 → 2 * d ≤ n → 0 < n → Once filed → ((k : Source) → Member filed k → IsSourceOf grid n d leaves j k) →
        q.receiver ≡ j → IsRegion grid n d leaves q → is_filed filed q ≡ false → length filed < most_regions }
{}

/// A shell holds the samples at all regions that are filed: at the start none is, a piece that carries its region's
/// samples adds its region, and where all are filed the whole shell holds the samples.
pub fn filed_shells()
    ensures none { (s : State) (j : ℕ) (b : BlockState) → HoldsFiled s j [] b }
    ensures more { (s : State) (j : ℕ) (filed : List Source) (b : BlockState) (p : PieceState) → IsState s → IsBlock b →
        IsLeafOf s j b → p.region.receiver ≡ j → CarriesSamples s b.depth p → HoldsFiled s j filed b →
        HoldsFiled s j (with_filed filed p.region) (after_filing filed p b) }
    ensures all { (s : State) (j : ℕ) (filed : List Source) (b : BlockState) → IsState s → IsBlock b → IsLeafOf s j b →
        AreAllFiled s b.depth j filed → HoldsFiled s j filed b → HoldsSamples s b }
{}
