//! A refresh of a run's ghosts: its cells, and the blocks at its end.
ghost use Rattle.std.specs.Prelude.{◌≡◌, ℕ, ◌^◌, ◌<◌, ◌≤◌, IfOk, length};
ghost use Rattle.block_fields.specs.States.{total};
ghost use Rattle.refresh_phase.specs.Cells.{problem_of, state_in};
ghost use Rattle.refresh_phase.specs.Problem.{RefreshBegins};
ghost use Rattle.run_core.specs.Runs.{AreBlocksFor, blocks_state};
ghost use Rattle.run_core.specs.Works.{HoldAround, setting_of};

use crate::maker::Maker;
use block_fields::Block;
use cello_num::Memory;
use leaf_set::LeafSet;
use params_check::Params;
use phase_core::Quiet;
use refresh_phase::{Refresh, RefreshCell, settled_blocks};
use std::alloc::Global;

/// The refresh phase over these blocks, and its cells, which the maker makes.
pub(crate) fn begin_refresh<M: Maker>(
    alloc: Global,
    maker: &M,
    params: &Params,
    set: &LeafSet,
    blocks: Vec<Block>,
) -> Result<(Refresh, Vec<RefreshCell>), Memory>
    requires ready { M.ready maker.now }
    requires grid { set.now.grid ≡ params.now.grid }
    requires blocks { AreBlocksFor params.now set.now.places blocks.items }
    requires few { (f : ℕ) → f < length params.now.fields → total (blocks_state params.now blocks.items) f ≤ 2 ^ 40 }
    ensures setting { IfOk result (λ r. (problem_of r.0 r.1.items).setting ≡ setting_of params.now) }
    ensures state { IfOk result (λ r. state_in (problem_of r.0 r.1.items) ≡ blocks_state params.now blocks.items) }
    ensures begins { IfOk result (λ r. RefreshBegins (problem_of r.0 r.1.items) r.1.items) }
{
    let begun = maker.begin_refresh(alloc, set, blocks)?;
    Ok(begun)
}

/// The blocks of a refresh phase at rest, with the samples of their state around them.
pub(crate) fn refreshed(
    alloc: Global,
    params: &Params,
    quiet: Quiet<Refresh>,
) -> Result<Vec<Block>, Memory>
    requires setting { quiet.problem.setting ≡ setting_of params.now }
    ensures blocks { IfOk result (λ blocks. AreBlocksFor params.now (state_in quiet.problem).leaves blocks.items) }
    ensures state { IfOk result (λ blocks. state_in quiet.problem ≡ blocks_state params.now blocks.items) }
    ensures around { IfOk result (λ blocks. HoldAround params.now blocks.items) }
{
    let blocks = settled_blocks(alloc, quiet)?;
    Ok(blocks)
}
