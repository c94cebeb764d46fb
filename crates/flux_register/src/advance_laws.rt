//! Laws about what an advance by the upwind fluxes makes of the blocks of a mesh.

ghost use Rattle.std.specs.Prelude.{◌≡◌, ℕ, ◌^◌, ◌<◌, ◌≤◌, List, Some, length, slice_get};
ghost use Rattle.block_index.specs.Places.{Cube};
ghost use Rattle.leaf_set.specs.Tiling.{IsTiling};
ghost use Rattle.block_fields.specs.Blocks.{BlockState};
ghost use Rattle.block_fields.specs.BlockStates.{AreBlocksOf, HoldsSamples, state_before, state_of};
ghost use Rattle.block_fields.specs.States.{total};
ghost use Rattle.grid_fluxes.specs.Upwind.{upwind};
ghost use Rattle.params_check.specs.Parameters.{IsParameters, Parameters};
ghost use Rattle.advect.specs.FaceFluxes.{FaceFluxState};
ghost use Rattle.advect.specs.Flows.{flow_of};
ghost use Rattle.advect.specs.OwnFluxes.{HoldsAtMost};
ghost use Rattle.flux_register.specs.Made.{AreAdvancedBy, AreUpwindAdvanced};

/// Blocks whose ghosts hold the samples of their state, advanced one by one by parameters, are what an advance by the
/// upwind fluxes makes of that state, and their second copies hold it. Before the advance no such block holds more than
/// an advance allows.
pub fn upwind_advances()
    ensures advanced { (p : Parameters) (mesh : List Cube) (depth : ℕ) (befores blocks : List BlockState) (faces : List FaceFluxState) → IsParameters p →
        IsTiling (record { grid = p.grid; places = mesh }) → AreBlocksOf mesh p.block (length p.fields) depth befores →
        ((f : ℕ) → f < length p.fields → total (state_of p.grid p.block (length p.fields) befores) f ≤ 2 ^ 40) →
        ((i : ℕ) (b : BlockState) → slice_get befores i ≡ Some b → HoldsSamples (state_of p.grid p.block (length p.fields) befores) b) →
        AreUpwindAdvanced p befores blocks faces →
        AreAdvancedBy p.grid mesh p.block (length p.fields) depth blocks faces (upwind (state_of p.grid p.block (length p.fields) befores) (flow_of p)) }
    ensures before { (p : Parameters) (befores blocks : List BlockState) (faces : List FaceFluxState) → AreUpwindAdvanced p befores blocks faces →
        state_before p.grid p.block (length p.fields) blocks ≡ state_of p.grid p.block (length p.fields) befores }
    ensures small { (p : Parameters) (mesh : List Cube) (depth : ℕ) (befores : List BlockState) (i : ℕ) (b : BlockState) → IsParameters p →
        IsTiling (record { grid = p.grid; places = mesh }) → AreBlocksOf mesh p.block (length p.fields) depth befores →
        ((f : ℕ) → f < length p.fields → total (state_of p.grid p.block (length p.fields) befores) f ≤ 2 ^ 40) →
        ((i : ℕ) (b : BlockState) → slice_get befores i ≡ Some b → HoldsSamples (state_of p.grid p.block (length p.fields) befores) b) →
        slice_get befores i ≡ Some b → HoldsAtMost (2 ^ 42) b }
{}
