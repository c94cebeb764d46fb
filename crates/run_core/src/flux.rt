//! The advance of a run's blocks: its correction, what leaves the domain, and the blocks at its end.
ghost use Rattle.std.specs.Prelude.{◌≡◌, ℕ, ◌^◌, ◌<◌, ◌≤◌, IfOk, List, Some, length, slice_get};
ghost use Rattle.initial_fill.specs.RootBlocks.{root_depth};
ghost use Rattle.block_fields.specs.Blocks.{BlockState};
ghost use Rattle.block_fields.specs.States.{total};
ghost use Rattle.grid_fluxes.specs.Fluxes.{advanced};
ghost use Rattle.grid_fluxes.specs.Upwind.{upwind};
ghost use Rattle.advect.specs.Flows.{flow_of};
ghost use Rattle.flux_register.specs.Cells.{FluxPart, problem_of, state_in};
ghost use Rattle.flux_register.specs.Made.{AreUpwindAdvanced, IsMadeBy};
ghost use Rattle.flux_register.specs.Problem.{FluxFixBegins};
ghost use Rattle.params_check.specs.Parameters.{IsParameters};
ghost use Rattle.run_core.specs.Courses.{outflow};
ghost use Rattle.run_core.specs.Runs.{AreBlocksFor, blocks_state};
ghost use Rattle.run_core.specs.Works.{flux_setting_of};
ghost use Rattle.run_core.specs.Lemmas.Advances.{AreAdvancedBlocks};

use crate::maker::Maker;
use advect::FaceFluxes;
use block_fields::Block;
use cello_num::Memory;
use flux_register::{FluxCell, FluxFix, outer, settled_blocks};
use leaf_set::LeafSet;
use params_check::Params;
use phase_core::Quiet;
use std::alloc::Global;

/// The flux correction over blocks that were advanced by their own fluxes, and its cells, which the maker makes.
pub(crate) fn begin_flux<M: Maker>(
    alloc: Global,
    maker: &M,
    params: &Params,
    set: &LeafSet,
    blocks: Vec<Block>,
    faces: Vec<FaceFluxes>,
) -> Result<(FluxFix, Vec<FluxCell>), Memory>
    requires ready { M.ready maker.now }
    requires limits { IsParameters params.now }
    requires grid { set.now.grid ≡ params.now.grid }
    requires advanced { AreAdvancedBlocks params.now set.now.places blocks.items faces.items }
    ensures setting { IfOk result (λ r. (problem_of r.0 r.1.items).setting ≡ flux_setting_of params.now) }
    ensures state { (befores : List BlockState) → AreUpwindAdvanced params.now befores blocks.items faces.items →
        IfOk result (λ r. state_in (problem_of r.0 r.1.items) ≡ blocks_state params.now befores) }
    ensures depths { IfOk result (λ r. (i : ℕ) (k : FluxPart) → slice_get (problem_of r.0 r.1.items).parts i ≡ Some k → k.before.depth ≡ root_depth) }
    ensures made { IfOk result (λ r. IsMadeBy (problem_of r.0 r.1.items) (upwind (state_in (problem_of r.0 r.1.items)) (flow_of params.now))) }
    ensures begins { IfOk result (λ r. FluxFixBegins (problem_of r.0 r.1.items) r.1.items) }
{
    let begun = maker.begin_flux(alloc, set, blocks, faces)?;
    Ok(begun)
}

/// What leaves the domain in an advance, for each of four fields.
pub(crate) fn flux_out(params: &Params, quiet: &Quiet<FluxFix>) -> [u64; 4]
    requires setting { quiet.now.problem.setting ≡ flux_setting_of params.now }
    requires few { (f : ℕ) → f < length params.now.fields → total (state_in quiet.now.problem) f ≤ 2 ^ 40 }
    requires made { IsMadeBy quiet.now.problem (upwind (state_in quiet.now.problem) (flow_of params.now)) }
    ensures { result ≡ outflow params.now (state_in quiet.now.problem) }
{
    let out = outer(quiet, params.domain());
    [out[0], out[1], out[2], out[3]]
}

/// The blocks of a flux correction at rest, which hold the state after the advance.
pub(crate) fn corrected(
    alloc: Global,
    params: &Params,
    quiet: Quiet<FluxFix>,
) -> Result<Vec<Block>, Memory>
    requires setting { quiet.problem.setting ≡ flux_setting_of params.now }
    requires depths { (i : ℕ) (k : FluxPart) → slice_get quiet.problem.parts i ≡ Some k → k.before.depth ≡ root_depth }
    requires made { IsMadeBy quiet.problem (upwind (state_in quiet.problem) (flow_of params.now)) }
    ensures blocks { IfOk result (λ blocks. AreBlocksFor params.now (state_in quiet.problem).leaves blocks.items) }
    ensures state { IfOk result (λ blocks. blocks_state params.now blocks.items ≡ advanced (state_in quiet.problem) (upwind (state_in quiet.problem) (flow_of params.now))) }
{
    let blocks = settled_blocks(alloc, quiet)?;
    Ok(blocks)
}
