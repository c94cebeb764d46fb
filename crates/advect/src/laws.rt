//! Laws that tie the blocks of a mesh to its state.
ghost use Rattle.std.specs.Prelude.{◌≡◌, ℕ, ◌+◌, ◌%◌, ◌^◌, ◌≤◌, ◌<◌, true, List, Some, length, slice_get};
ghost use Rattle.block_index.specs.Places.{Cube, Grid, IsDomain};
ghost use Rattle.leaf_set.specs.Meshes.{IsBalanced, IsMesh};
ghost use Rattle.block_fields.specs.Blocks.{BlockState, IsBlock};
ghost use Rattle.block_fields.specs.BlockStates.{AreBlocksOf, HoldsSamples, IsLeafOf, state_of};
ghost use Rattle.block_fields.specs.Cells.{block_of};
ghost use Rattle.block_fields.specs.States.{State, IsState, held};
ghost use Rattle.grid_fluxes.specs.Axes.{Axis, coordinate, next_cell};
ghost use Rattle.grid_fluxes.specs.Bounds.{GivesWithin};
ghost use Rattle.grid_fluxes.specs.Fluxes.{Across, Fluxes, advanced_by, none_across};
ghost use Rattle.grid_fluxes.specs.Upwind.{Flow, upwind};
ghost use Rattle.advect.specs.CellFluxes.{AreProvisional, amount_of, noted_after, noted_before, own_after, own_before};
ghost use Rattle.advect.specs.CorrectedStates.{ReplacesBehind, lies_behind};
ghost use Rattle.advect.specs.FaceFluxes.{FaceFluxState, HoldsFluxes};
ghost use Rattle.advect.specs.FluxPieces.{FluxPieceState, IsCorrected, StaysWithin};
ghost use Rattle.advect.specs.OwnFluxes.{IsProvisional, own_flux};

/// Where the ghosts of a block hold the samples of its state, the block advanced by its own fluxes is its part of the
/// state advanced by the upwind fluxes, none of them replaced. So all blocks of a mesh are that state.
pub fn advanced_blocks()
    ensures cell { (s : State) (flow : Flow) (i : ℕ) (b new : BlockState) (f : ℕ) (c : Cube) → IsState s → IsBlock b → IsLeafOf s i b →
        HoldsSamples s b → IsProvisional (own_flux flow s.grid b) flow.goes_up b new → f < s.fields → block_of s.edge c ≡ b.place →
        amount_of s.edge new f c ≡ held (advanced_by s none_across (upwind s flow)) f c }
    ensures leaf { (s : State) (flow : Flow) (i : ℕ) (b new : BlockState) → IsState s → IsBlock b → IsBlock new → IsLeafOf s i b →
        HoldsSamples s b → IsProvisional (own_flux flow s.grid b) flow.goes_up b new →
        IsLeafOf (advanced_by s none_across (upwind s flow)) i new }
    ensures mesh { (flow : Flow) (grid : Grid) (leaves : List Cube) (n fields depth : ℕ) (blocks news : List BlockState) → IsDomain grid →
        IsMesh grid leaves → IsBalanced grid leaves → 2 ≤ n → AreBlocksOf leaves n fields depth blocks →
        ((i : ℕ) (b : BlockState) → slice_get blocks i ≡ Some b → HoldsSamples (state_of grid n fields blocks) b) →
        AreProvisional flow grid blocks news →
        state_of grid n fields news ≡ advanced_by (state_of grid n fields blocks) none_across (upwind (state_of grid n fields blocks) flow) }
{}

/// A block whose ghosts hold the samples of its state finds by itself the upwind fluxes of the state through the faces
/// of its cells, each seen as the face at which a cell begins. The fluxes that are noted for its outermost faces are these.
pub fn own_fluxes()
    ensures before { (s : State) (flow : Flow) (i : ℕ) (b : BlockState) (f : ℕ) (a : Axis) (c : Cube) → IsState s → IsBlock b → IsLeafOf s i b →
        HoldsSamples s b → f < s.fields → block_of s.edge c ≡ b.place →
        own_before s.edge (own_flux flow s.grid b) f a c ≡ (upwind s flow).level_flux f a c }
    ensures after { (s : State) (flow : Flow) (i : ℕ) (b : BlockState) (f : ℕ) (a : Axis) (c : Cube) → IsState s → IsBlock b → IsLeafOf s i b →
        HoldsSamples s b → f < s.fields → block_of s.edge c ≡ b.place →
        own_after s.edge (own_flux flow s.grid b) f a c ≡ (upwind s flow).level_flux f a (next_cell a s.grid s.edge c) }
    ensures noted_before { (s : State) (flow : Flow) (i : ℕ) (b : BlockState) (faces : FaceFluxState) (f : ℕ) (a : Axis) (c : Cube) → IsState s →
        IsBlock b → IsLeafOf s i b → HoldsSamples s b → f < s.fields → block_of s.edge c ≡ b.place → faces.edge ≡ b.edge →
        faces.fields ≡ length b.amounts → HoldsFluxes (own_flux flow s.grid b) faces → coordinate a c % s.edge ≡ 0 →
        noted_before s.edge faces f a c ≡ (upwind s flow).level_flux f a c }
    ensures noted_after { (s : State) (flow : Flow) (i : ℕ) (b : BlockState) (faces : FaceFluxState) (f : ℕ) (a : Axis) (c : Cube) → IsState s →
        IsBlock b → IsLeafOf s i b → HoldsSamples s b → f < s.fields → block_of s.edge c ≡ b.place → faces.edge ≡ b.edge →
        faces.fields ≡ length b.amounts → HoldsFluxes (own_flux flow s.grid b) faces → coordinate a c % s.edge + 1 ≡ s.edge →
        noted_after s.edge faces f a c ≡ (upwind s flow).level_flux f a (next_cell a s.grid s.edge c) }
{}

/// Where a block is its part of a state advanced with some of the fluxes replaced, and a correction replaces those behind
/// a piece, the corrected block is its part of the state advanced with these replaced too. For each cell behind the piece
/// there is enough to take.
pub fn corrected_blocks()
    ensures cell { (s : State) (fluxes : Fluxes) (one other : Across) (i : ℕ) (b new : BlockState) (faces : FaceFluxState) (piece : FluxPieceState) (f : ℕ)
        (c : Cube) → IsState s → IsLeafOf (advanced_by s one fluxes) i b → ReplacesBehind s fluxes b.place faces piece one other → f < s.fields →
        GivesWithin s one fluxes f → GivesWithin s other fluxes f → IsCorrected faces piece b new → block_of s.edge c ≡ b.place →
        amount_of s.edge new f c ≡ held (advanced_by s other fluxes) f c }
    ensures leaf { (s : State) (fluxes : Fluxes) (one other : Across) (i : ℕ) (b new : BlockState) (faces : FaceFluxState) (piece : FluxPieceState) →
        IsState s → IsLeafOf (advanced_by s one fluxes) i b → ReplacesBehind s fluxes b.place faces piece one other →
        ((f : ℕ) → f < s.fields → GivesWithin s one fluxes f) → ((f : ℕ) → f < s.fields → GivesWithin s other fluxes f) → IsBlock new →
        IsCorrected faces piece b new → IsLeafOf (advanced_by s other fluxes) i new }
    ensures stays { (s : State) (fluxes : Fluxes) (one other : Across) (i : ℕ) (b : BlockState) (faces : FaceFluxState) (piece : FluxPieceState) (f : ℕ)
        (c : Cube) → IsState s → IsLeafOf (advanced_by s one fluxes) i b → ReplacesBehind s fluxes b.place faces piece one other → f < s.fields →
        GivesWithin s one fluxes f → GivesWithin s other fluxes f → block_of s.edge c ≡ b.place → lies_behind s.edge piece c ≡ true →
        held (advanced_by s other fluxes) f c ≤ 2 ^ 44 →
        StaysWithin faces piece f (c.x % s.edge) (c.y % s.edge) (c.z % s.edge) (amount_of s.edge b f c) }
{}
