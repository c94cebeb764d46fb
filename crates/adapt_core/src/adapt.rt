//! The adapt phase as a phase over messages: its beginning, its handling, and the levels at its end.

ghost use Rattle.std.specs.Prelude.{◌≡◌, ℕ, ◌≤◌, IfOk, Some, length, map, slice_get};
ghost use Rattle.leaf_set.specs.LevelRules.{IsLeast};
ghost use Rattle.leaf_set.specs.TouchingLeaves.{AreTouching};
ghost use Rattle.adapt_core.specs.Problem.{mesh_of, wishes_of, problem_of, AdaptBegins};

use crate::adapt_msg::AdaptMsg;
use crate::cell::AdaptCell;
use crate::first_cells::first_cells;
use crate::making::cells_in_threads;
use crate::problem::Problem;
use block_index::{Domain, Wish};
use cello_num::Memory;
use leaf_set::LeafSet;
use phase_core::{Outbox, Phase, Quiet};
use std::alloc::Global;
use std::marker::Model;
use std::thread::Threads;

/// The adapt phase over a domain.
#[derive(Drop)]
pub struct Adapt {
    domain: Domain,
}

impl Model for Adapt {
    ghost use Rattle.block_index.specs.Places.{Grid};

    ghost Value = { Grid };

    ghost view = { λ a. a.domain };
}

impl Phase for Adapt {
    ghost use Rattle.adapt_core.specs.Problem.{problem_of, AdaptBegins};
    ghost use Rattle.adapt_core.specs.Holds.{AdaptHolds, adapt_weight, adapt_start_weight};
    ghost use Rattle.adapt_core.specs.React.{adapt_react, adapt_start};
    ghost use Rattle.adapt_core.specs.Lemmas.AdaptLaws as laws;

    type Cell = AdaptCell;

    type Msg = AdaptMsg;

    type Problem = Problem;

    ghost problem = { problem_of };

    ghost begins = { AdaptBegins };

    ghost holds = { AdaptHolds };

    ghost weight = { adapt_weight };

    ghost start_weight = { adapt_start_weight };

    ghost start = { adapt_start };

    ghost react = { adapt_react };

    ghost start_holds = { laws.start_holds };

    ghost start_weighs = { laws.start_weighs };

    ghost keeps = { laws.keeps };

    ghost lowers = { laws.lowers };

    ghost same_problem = { λ grid p cells at c msg. laws.same_problem grid cells p at c msg };

    ghost holds_in_any_order = { laws.holds_in_any_order };

    ghost weighs_in_any_order = { laws.weighs_in_any_order };

    ghost few_cells = { laws.few_cells };

    ghost addressed = { laws.addressed };

    ghost start_weight_fits = { laws.start_weight_fits };

    fn start(&self, _to: u32) -> AdaptMsg {
        AdaptMsg::Start
    }

    fn handle(
        &self,
        _alloc: Global,
        _at: u32,
        cell: &mut AdaptCell,
        msg: &AdaptMsg,
        out: &mut Outbox<AdaptMsg>,
    ) -> Result<(), Memory> {
        match *msg {
            AdaptMsg::Start => {
                let level = cell.level().max(cell.opening());
                cell.tell(level, out)?;
                cell.start(level);
            }
            AdaptMsg::Level { from, value } => {
                let level = cell.raised(from, value);
                if cell.started() && cell.level() < level {
                    cell.tell(level, out)?;
                }
                cell.set_level(level);
            }
        }
        Ok(())
    }
}

impl Adapt {
    /// The phase over a leaf set, with a wish for each leaf, and its cells in the order of the leaves.
    pub fn begin(
        alloc: Global,
        set: &LeafSet,
        wishes: &[Wish],
    ) -> Result<(Adapt, Vec<AdaptCell>), Memory>
        requires one_each { length wishes.now ≡ length set.now.places }
        ensures grid { IfOk result (λ r. (problem_of r.0 r.1.items).grid ≡ set.now.grid) }
        ensures places { IfOk result (λ r. mesh_of (problem_of r.0 r.1.items) ≡ set.now.places) }
        ensures wishes { IfOk result (λ r. wishes_of (problem_of r.0 r.1.items) ≡ wishes.now) }
        ensures begins { IfOk result (λ r. AdaptBegins (problem_of r.0 r.1.items) r.1.items) }
    {
        let cells = first_cells(alloc, set, wishes)?;
        let domain = *set.domain();
        Ok((Adapt { domain }, cells))
    }

    /// The phase and the cells of `begin`, which are made in at most as many threads as there are workers.
    pub fn begin_in_threads<R: Threads + Sync>(
        rt: &R,
        alloc: Global,
        workers: u32,
        set: &LeafSet,
        wishes: &[Wish],
    ) -> Result<(Adapt, Vec<AdaptCell>), Memory>
        requires workers { 1 ≤ workers }
        requires one_each { length wishes.now ≡ length set.now.places }
        ensures grid { IfOk result (λ r. (problem_of r.0 r.1.items).grid ≡ set.now.grid) }
        ensures places { IfOk result (λ r. mesh_of (problem_of r.0 r.1.items) ≡ set.now.places) }
        ensures wishes { IfOk result (λ r. wishes_of (problem_of r.0 r.1.items) ≡ wishes.now) }
        ensures begins { IfOk result (λ r. AdaptBegins (problem_of r.0 r.1.items) r.1.items) }
    {
        let cells = cells_in_threads(rt, alloc, workers, set, wishes)?;
        let domain = *set.domain();
        Ok((Adapt { domain }, cells))
    }
}

/// The levels of a phase at rest, in the order of the leaves: the least that meet the level rules.
pub fn levels(alloc: Global, quiet: &Quiet<Adapt>) -> Result<Vec<u8>, Memory>
    ensures least { IfOk result (λ levels. IsLeast quiet.now.problem.grid (mesh_of quiet.now.problem) (wishes_of quiet.now.problem) levels.items) }
{
    Ok(
        quiet
            .cells()
            .iter()
            .map(|cell| cell.level())
            .collect(alloc)?,
    )
}

/// The leaves that touch each leaf, in the order of the leaves, taken from the cells of a phase at rest.
pub fn touching_lists(alloc: Global, quiet: Quiet<Adapt>) -> Result<Vec<Vec<u32>>, Memory>
    ensures touching { IfOk result (λ lists. (i : ℕ) (list : _) → slice_get lists.items i ≡ Some list →
        AreTouching quiet.problem.grid (mesh_of quiet.problem) i list.items) }
{
    let lists = neighbours_of(alloc, quiet.into_cells())?;
    Ok(lists)
}

/// The leaves that touch the leaf of each cell.
fn neighbours_of(alloc: Global, cells: Vec<AdaptCell>) -> Result<Vec<Vec<u32>>, Memory>
    ensures { IfOk result (λ lists. map (λ list. list.items) lists.items ≡ map (λ cell. cell.part.neighbours) cells.items) }
{
    let mut lists = Vec::with_capacity(alloc, cells.len())?;
    for cell in cells {
        lists.push(cell.into_neighbours())?;
    }
    Ok(lists)
}
