//! The flux correction as a phase over messages: its beginning and its handling.

ghost use Rattle.std.specs.Prelude.{◌≡◌, ℕ, ◌≤◌, IfOk, length, map};
ghost use Rattle.block_fields.specs.BlockStates.{AreBlocksOf, state_before};
ghost use Rattle.grid_fluxes.specs.Fluxes.{Fluxes};
ghost use Rattle.flux_register.specs.Cells.{problem_of, state_in, unadvanced};
ghost use Rattle.flux_register.specs.Made.{AreAdvancedBy, IsMadeBy};
ghost use Rattle.flux_register.specs.Problem.{FluxFixBegins};

use crate::cell::FluxCell;
use crate::first_cells::first_cells;
use crate::flux_msg::FluxMsg;
use crate::making::cells_in_threads;
use crate::problem::Problem;
use advect::FaceFluxes;
use block_fields::Block;
use block_index::Domain;
use cello_num::Memory;
use leaf_set::LeafSet;
use phase_core::{Outbox, Phase};
use std::alloc::Global;
use std::marker::Model;
use std::thread::Threads;

/// The flux correction over the blocks of a mesh, all of one size.
#[derive(Drop)]
pub struct FluxFix {
    domain: Domain,
    edge: u16,
    fields: u8,
}

impl Model for FluxFix {
    ghost use Rattle.flux_register.specs.Cells.{Setting};

    ghost Value = { Setting };

    ghost view = { λ r. record { grid = r.domain; edge = r.edge; fields = r.fields } };
}

impl Phase for FluxFix {
    ghost use Rattle.flux_register.specs.Cells.{problem_of};
    ghost use Rattle.flux_register.specs.React.{flux_react, flux_start};
    ghost use Rattle.flux_register.specs.Problem.{IsFluxProblem, FluxFixBegins, FluxFixHolds, flux_plan, flux_weight, flux_start_weight};
    ghost use Rattle.flux_register.specs.Lemmas.FluxLaws.{is_plan, part_stays, with_parts};
    ghost use Rattle.owed_phase.specs.Lemmas.OwingLaws as laws;

    type Cell = FluxCell;

    type Msg = FluxMsg;

    type Problem = Problem;

    ghost problem = { problem_of };

    ghost begins = { FluxFixBegins };

    ghost holds = { FluxFixHolds };

    ghost weight = { flux_weight };

    ghost start_weight = { flux_start_weight };

    ghost start = { flux_start };

    ghost react = { flux_react };

    ghost start_holds = { λ p. laws.start_holds (IsFluxProblem p) (flux_plan p) p.parts (λ valid. is_plan p) };

    ghost start_weighs = { λ p. laws.start_weighs (IsFluxProblem p) (flux_plan p) p.parts (λ valid. is_plan p) };

    ghost keeps = { λ p. laws.keeps (IsFluxProblem p) (flux_plan p) p.parts (λ valid. is_plan p) };

    ghost lowers = { λ p. laws.lowers (IsFluxProblem p) (flux_plan p) p.parts (λ valid. is_plan p) };

    ghost same_problem = { λ setting p. laws.same_problem (flux_plan p) (part_stays p) (with_parts setting) };

    ghost holds_in_any_order = { λ p. laws.holds_in_any_order (IsFluxProblem p) (flux_plan p) p.parts (λ valid. is_plan p) };

    ghost weighs_in_any_order = { λ p. laws.weighs_in_any_order (IsFluxProblem p) (flux_plan p) p.parts (λ valid. is_plan p) };

    ghost few_cells = { λ p. laws.few_cells (IsFluxProblem p) (flux_plan p) p.parts (λ valid. is_plan p) };

    ghost addressed = { λ p. laws.addressed (IsFluxProblem p) (flux_plan p) p.parts (λ valid. is_plan p) };

    ghost start_weight_fits = { λ p. laws.start_weight_fits (IsFluxProblem p) (flux_plan p) p.parts (λ valid. is_plan p) };

    fn start(&self, _to: u32) -> FluxMsg {
        FluxMsg::Start
    }

    fn handle(
        &self,
        alloc: Global,
        _at: u32,
        cell: &mut FluxCell,
        msg: &FluxMsg,
        out: &mut Outbox<FluxMsg>,
    ) -> Result<(), Memory> {
        match msg {
            FluxMsg::Start => {
                out.reserve(cell.owed())?;
                cell.send(alloc, out);
            }
            FluxMsg::Piece(piece) => cell.correct(piece),
        }
        Ok(())
    }
}

impl FluxFix {
    /// The phase over the blocks of a leaf set, which are all of one size, and its cells in the order of the leaves. The
    /// blocks and the fluxes of their faces are what an advance by each block's own fluxes made of them. It takes the
    /// room of all pieces, so that a message is handled without memory but for the outbox's.
    pub fn begin(
        alloc: Global,
        set: &LeafSet,
        blocks: Vec<Block>,
        faces: Vec<FaceFluxes>,
    ) -> Result<(FluxFix, Vec<FluxCell>), Memory>
        requires made { (n : ℕ) × (fields : ℕ) × (depth : ℕ) × (fluxes : Fluxes) × AreAdvancedBy set.now.grid set.now.places n fields depth blocks.items faces.items fluxes }
        ensures grid { IfOk result (λ r. (problem_of r.0 r.1.items).setting.grid ≡ set.now.grid) }
        ensures sizes { (n fields depth : ℕ) → AreBlocksOf set.now.places n fields depth blocks.items →
            IfOk result (λ r. r.0 ≡ record { grid = set.now.grid; edge = n; fields = fields }) }
        ensures state { (n fields depth : ℕ) → AreBlocksOf set.now.places n fields depth blocks.items →
            IfOk result (λ r. state_in (problem_of r.0 r.1.items) ≡ state_before set.now.grid n fields blocks.items) }
        ensures parts { IfOk result (λ r. map (λ k. k.before) (problem_of r.0 r.1.items).parts ≡ map unadvanced blocks.items) }
        ensures made { (n fields depth : ℕ) (fluxes : Fluxes) → AreAdvancedBy set.now.grid set.now.places n fields depth blocks.items faces.items fluxes →
            IfOk result (λ r. IsMadeBy (problem_of r.0 r.1.items) fluxes) }
        ensures begins { IfOk result (λ r. FluxFixBegins (problem_of r.0 r.1.items) r.1.items) }
    {
        let phase = FluxFix::over(*set.domain(), &blocks[0]);
        let cells = first_cells(alloc, set, blocks, faces)?;
        Ok((phase, cells))
    }

    /// The phase and the cells of `begin`, which are made in at most as many threads as there are workers.
    pub fn begin_in_threads<R: Threads + Sync>(
        rt: &R,
        alloc: Global,
        workers: u32,
        set: &LeafSet,
        blocks: Vec<Block>,
        faces: Vec<FaceFluxes>,
    ) -> Result<(FluxFix, Vec<FluxCell>), Memory>
        requires workers { 1 ≤ workers }
        requires made { (n : ℕ) × (fields : ℕ) × (depth : ℕ) × (fluxes : Fluxes) × AreAdvancedBy set.now.grid set.now.places n fields depth blocks.items faces.items fluxes }
        ensures grid { IfOk result (λ r. (problem_of r.0 r.1.items).setting.grid ≡ set.now.grid) }
        ensures sizes { (n fields depth : ℕ) → AreBlocksOf set.now.places n fields depth blocks.items →
            IfOk result (λ r. r.0 ≡ record { grid = set.now.grid; edge = n; fields = fields }) }
        ensures state { (n fields depth : ℕ) → AreBlocksOf set.now.places n fields depth blocks.items →
            IfOk result (λ r. state_in (problem_of r.0 r.1.items) ≡ state_before set.now.grid n fields blocks.items) }
        ensures parts { IfOk result (λ r. map (λ k. k.before) (problem_of r.0 r.1.items).parts ≡ map unadvanced blocks.items) }
        ensures made { (n fields depth : ℕ) (fluxes : Fluxes) → AreAdvancedBy set.now.grid set.now.places n fields depth blocks.items faces.items fluxes →
            IfOk result (λ r. IsMadeBy (problem_of r.0 r.1.items) fluxes) }
        ensures begins { IfOk result (λ r. FluxFixBegins (problem_of r.0 r.1.items) r.1.items) }
    {
        let phase = FluxFix::over(*set.domain(), &blocks[0]);
        let cells = cells_in_threads(rt, alloc, workers, set, blocks, faces)?;
        Ok((phase, cells))
    }

    /// The phase over blocks of the size of this one.
    fn over(domain: Domain, block: &Block) -> FluxFix
        ensures { result ≡ record { grid = domain; edge = block.now.edge; fields = length block.now.amounts } }
    {
        FluxFix {
            domain,
            edge: block.edge(),
            fields: block.fields(),
        }
    }
}
