//! The refresh phase as a phase over messages: its beginning, its handling, and the blocks at its end.

ghost use Rattle.std.specs.Prelude.{◌≡◌, ℕ, ◌≤◌, ◌^◌, IfOk, Some, length, map, slice_get, sum};
ghost use Rattle.block_fields.specs.Blocks.{BlockState, amounts_of};
ghost use Rattle.block_fields.specs.BlockStates.{AreBlocksOf, HoldsSamples, state_of};
ghost use Rattle.refresh_phase.specs.Cells.{own_cells, problem_of, state_in};
ghost use Rattle.refresh_phase.specs.Problem.{RefreshBegins};

use crate::cell::RefreshCell;
use crate::first_cells::first_cells;
use crate::making::cells_in_threads;
use crate::problem::Problem;
use crate::refresh_msg::RefreshMsg;
use block_fields::Block;
use block_index::Domain;
use cello_num::Memory;
use leaf_set::LeafSet;
use phase_core::{Outbox, Phase, Quiet};
use std::alloc::Global;
use std::marker::Model;
use std::thread::Threads;

/// The refresh phase over the blocks of a mesh, all of one size.
#[derive(Drop)]
pub struct Refresh {
    domain: Domain,
    edge: u16,
    fields: u8,
    depth: u8,
}

impl Model for Refresh {
    ghost use Rattle.refresh_phase.specs.Cells.{Setting};

    ghost Value = { Setting };

    ghost view = { λ r. record { grid = r.domain; edge = r.edge; fields = r.fields; depth = r.depth } };
}

impl Phase for Refresh {
    ghost use Rattle.refresh_phase.specs.Cells.{problem_of};
    ghost use Rattle.refresh_phase.specs.React.{refresh_react, refresh_start};
    ghost use Rattle.refresh_phase.specs.Problem.{IsRefreshProblem, RefreshBegins, RefreshHolds, refresh_plan, refresh_weight, refresh_start_weight};
    ghost use Rattle.refresh_phase.specs.Lemmas.RefreshLaws.{is_plan, part_stays, with_parts};
    ghost use Rattle.owed_phase.specs.Lemmas.OwingLaws as laws;

    type Cell = RefreshCell;

    type Msg = RefreshMsg;

    type Problem = Problem;

    ghost problem = { problem_of };

    ghost begins = { RefreshBegins };

    ghost holds = { RefreshHolds };

    ghost weight = { refresh_weight };

    ghost start_weight = { refresh_start_weight };

    ghost start = { refresh_start };

    ghost react = { refresh_react };

    ghost start_holds = { λ p. laws.start_holds (IsRefreshProblem p) (refresh_plan p) p.parts (λ valid. is_plan p) };

    ghost start_weighs = { λ p. laws.start_weighs (IsRefreshProblem p) (refresh_plan p) p.parts (λ valid. is_plan p) };

    ghost keeps = { λ p. laws.keeps (IsRefreshProblem p) (refresh_plan p) p.parts (λ valid. is_plan p) };

    ghost lowers = { λ p. laws.lowers (IsRefreshProblem p) (refresh_plan p) p.parts (λ valid. is_plan p) };

    ghost same_problem = { λ setting p. laws.same_problem (refresh_plan p) (part_stays p) (with_parts setting) };

    ghost holds_in_any_order = { λ p. laws.holds_in_any_order (IsRefreshProblem p) (refresh_plan p) p.parts (λ valid. is_plan p) };

    ghost weighs_in_any_order = { λ p. laws.weighs_in_any_order (IsRefreshProblem p) (refresh_plan p) p.parts (λ valid. is_plan p) };

    ghost few_cells = { λ p. laws.few_cells (IsRefreshProblem p) (refresh_plan p) p.parts (λ valid. is_plan p) };

    ghost addressed = { λ p. laws.addressed (IsRefreshProblem p) (refresh_plan p) p.parts (λ valid. is_plan p) };

    ghost start_weight_fits = { λ p. laws.start_weight_fits (IsRefreshProblem p) (refresh_plan p) p.parts (λ valid. is_plan p) };

    fn start(&self, _to: u32) -> RefreshMsg {
        RefreshMsg::Start
    }

    fn handle(
        &self,
        alloc: Global,
        _at: u32,
        cell: &mut RefreshCell,
        msg: &RefreshMsg,
        out: &mut Outbox<RefreshMsg>,
    ) -> Result<(), Memory> {
        match msg {
            RefreshMsg::Start => {
                out.reserve(cell.owed())?;
                cell.send(alloc, &self.domain, out);
            }
            RefreshMsg::Piece(piece) => cell.file(piece),
        }
        Ok(())
    }
}

impl Refresh {
    /// The phase over the blocks of a leaf set, which are all of one size, and its cells in the order of the leaves. It
    /// takes the room of all pieces, so that a message is handled without memory but for the outbox's.
    pub fn begin(
        alloc: Global,
        set: &LeafSet,
        blocks: Vec<Block>,
    ) -> Result<(Refresh, Vec<RefreshCell>), Memory>
        requires blocks { (n : ℕ) × (fields : ℕ) × (depth : ℕ) × AreBlocksOf set.now.places n fields depth blocks.items }
        requires few { (i f : ℕ) (b : BlockState) → slice_get blocks.items i ≡ Some b → sum (amounts_of b f) ≤ 2 ^ 42 }
        ensures grid { IfOk result (λ r. (problem_of r.0 r.1.items).setting.grid ≡ set.now.grid) }
        ensures blocks { IfOk result (λ r. map (λ k. k.own) (problem_of r.0 r.1.items).parts ≡ map own_cells blocks.items) }
        ensures sizes { (n fields depth : ℕ) → AreBlocksOf set.now.places n fields depth blocks.items →
            IfOk result (λ r. r.0 ≡ record { grid = set.now.grid; edge = n; fields = fields; depth = depth }) }
        ensures state { (n fields depth : ℕ) → AreBlocksOf set.now.places n fields depth blocks.items →
            IfOk result (λ r. state_in (problem_of r.0 r.1.items) ≡ state_of set.now.grid n fields blocks.items) }
        ensures begins { IfOk result (λ r. RefreshBegins (problem_of r.0 r.1.items) r.1.items) }
    {
        let phase = Refresh::over(*set.domain(), &blocks[0]);
        let cells = first_cells(alloc, set, blocks)?;
        Ok((phase, cells))
    }

    /// The phase and the cells of `begin`, which are made in at most as many threads as there are workers.
    pub fn begin_in_threads<R: Threads + Sync>(
        rt: &R,
        alloc: Global,
        workers: u32,
        set: &LeafSet,
        blocks: Vec<Block>,
    ) -> Result<(Refresh, Vec<RefreshCell>), Memory>
        requires workers { 1 ≤ workers }
        requires blocks { (n : ℕ) × (fields : ℕ) × (depth : ℕ) × AreBlocksOf set.now.places n fields depth blocks.items }
        requires few { (i f : ℕ) (b : BlockState) → slice_get blocks.items i ≡ Some b → sum (amounts_of b f) ≤ 2 ^ 42 }
        ensures grid { IfOk result (λ r. (problem_of r.0 r.1.items).setting.grid ≡ set.now.grid) }
        ensures blocks { IfOk result (λ r. map (λ k. k.own) (problem_of r.0 r.1.items).parts ≡ map own_cells blocks.items) }
        ensures sizes { (n fields depth : ℕ) → AreBlocksOf set.now.places n fields depth blocks.items →
            IfOk result (λ r. r.0 ≡ record { grid = set.now.grid; edge = n; fields = fields; depth = depth }) }
        ensures state { (n fields depth : ℕ) → AreBlocksOf set.now.places n fields depth blocks.items →
            IfOk result (λ r. state_in (problem_of r.0 r.1.items) ≡ state_of set.now.grid n fields blocks.items) }
        ensures begins { IfOk result (λ r. RefreshBegins (problem_of r.0 r.1.items) r.1.items) }
    {
        let phase = Refresh::over(*set.domain(), &blocks[0]);
        let cells = cells_in_threads(rt, alloc, workers, set, blocks)?;
        Ok((phase, cells))
    }

    /// The phase over blocks of the size of this one.
    fn over(domain: Domain, block: &Block) -> Refresh
        ensures { result ≡ record { grid = domain; edge = block.now.edge; fields = length block.now.amounts; depth = block.now.depth } }
    {
        Refresh {
            domain,
            edge: block.edge(),
            fields: block.fields(),
            depth: block.depth(),
        }
    }
}

/// The blocks of a phase at rest, in the order of the leaves: no amount has changed, and every shell holds the samples
/// of its block's level.
pub fn settled_blocks(alloc: Global, quiet: Quiet<Refresh>) -> Result<Vec<Block>, Memory>
    ensures amounts { IfOk result (λ blocks. map own_cells blocks.items ≡ map (λ k. k.own) quiet.problem.parts) }
    ensures samples { IfOk result (λ blocks. (i : ℕ) (b : BlockState) → slice_get blocks.items i ≡ Some b → HoldsSamples (state_in quiet.problem) b) }
    ensures sizes { IfOk result (λ blocks. AreBlocksOf (state_in quiet.problem).leaves quiet.problem.setting.edge quiet.problem.setting.fields quiet.problem.setting.depth blocks.items) }
{
    let blocks = blocks_of(alloc, quiet.into_cells())?;
    Ok(blocks)
}

/// The blocks of cells, in order.
fn blocks_of(alloc: Global, cells: Vec<RefreshCell>) -> Result<Vec<Block>, Memory>
    ensures { IfOk result (λ blocks. blocks.items ≡ map (λ c. c.block) cells.items) }
{
    Ok(
        cells
            .into_iter()
            .map(|cell| cell.into_block())
            .collect(alloc)?,
    )
}
