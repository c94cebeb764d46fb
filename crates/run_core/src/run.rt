//! A run of parameters, work by work.
ghost use Rattle.std.specs.Prelude.{◌≡◌, ℕ, ◌+◌, ◌<◌, ◌≤◌, ◌⊎◌, [], IfOk, IfErr, List, Some, length, slice_index};
ghost use Rattle.block_fields.specs.States.{IsState, total};
ghost use Rattle.initial_fill.specs.RootBlocks.{initial_state};
ghost use Rattle.amount_ledger.specs.Ledgers.{restored_ledger};
ghost use Rattle.params_check.specs.Bounds.{most_cycles};
ghost use Rattle.run_core.specs.Courses.{Told, going_on, phases_of, run_state, totals_of, whole};
ghost use Rattle.run_core.specs.Runs.{AreBlocksFor, blocks_state};
ghost use Rattle.run_core.specs.Steps.{after_cycle_told, first_step};
ghost use Rattle.run_core.specs.Works.{IsCounted, IsTold, IsWork, LimitEnds, StandsAt, stage_out, works_left};
ghost use Rattle.run_core.specs.Lemmas.Bounds.{most_works};

use crate::fault::RunFault;
use crate::maker::Maker;
use crate::room::keep_freed_memory;
use crate::step::{Stage, Step, after_cycle_told, after_round};
use crate::totals::initial_totals;
use crate::work::Work;
use advect::FaceFluxes;
use amount_ledger::Ledger;
use block_fields::Block;
use block_index::Wish;
use cello_num::Memory;
use initial_fill::fill;
use leaf_set::LeafSet;
use params_check::Params;
use std::alloc::Global;
use std::marker::{Model, PhantomData};

/// Where a run starts: at its beginning, or in a state that contracts name.
pub trait Start {
    ghost use Rattle.std.specs.Prelude.{Option};
    ghost use Rattle.run_core.specs.Courses.{RunState};

    ghost start: { Option RunState };
}

/// A run from its beginning on.
#[derive(Debug, Clone, Copy, PartialEq, Eq)]
pub struct Whole;

impl Start for Whole {
    ghost use Rattle.std.specs.Prelude.{None};

    ghost start = { None };
}

/// A run of parameters. It gives out one work after another, and goes on with what comes back. Contracts see where it
/// stands; its state is always that of the defined run after as many phases.
#[derive(Drop)]
pub struct Run<S: Start = Whole> {
    pub(crate) params: Params,
    pub(crate) ended: u32,
    pub(crate) last: u32,
    pub(crate) set: LeafSet,
    pub(crate) ledger: Ledger,
    pub(crate) blocks: Vec<Block>,
    pub(crate) wishes: Vec<Wish>,
    pub(crate) faces: Vec<FaceFluxes>,
    pub(crate) phase: u32,
    pub(crate) step: Step,
    pub(crate) stage: Stage,
    pub(crate) of: PhantomData<S>,
}

impl<S: Start> Model for Run<S> {
    ghost use Rattle.run_core.specs.Courses.{course_of};
    ghost use Rattle.run_core.specs.Works.{Standing};
    ghost use Rattle.run_core.specs.Lemmas.Keeping.{KeepsRun};

    ghost Value = { Standing };

    ghost view = { λ r. record { course = course_of r.params r.ended r.last S.start; set = r.set; ledger = r.ledger; phase = r.phase; step = r.step; stage = r.stage } };

    ghost invariant = { λ r. KeepsRun (course_of r.params r.ended r.last S.start) r.set r.ledger r.phase r.step r.stage (record { blocks = r.blocks.items; wishes = r.wishes.items; faces = r.faces.items }) };
}

impl Run<Whole> {
    /// The whole run of parameters before its first phase, with the root blocks.
    pub fn begin(alloc: Global, params: Params) -> Result<Run, Memory>
        ensures course { IfOk result (λ run. run.course ≡ whole params) }
        ensures phase { IfOk result (λ run. run.phase ≡ 0) }
        ensures stands { IfOk result (λ run. StandsAt run.step run.course run.phase run.set.places) }
        ensures step { IfOk result (λ run. run.step ≡ first_step params.rounds) }
        ensures next { IfOk result (λ run. run.stage ≡ Stage.Next) }
        ensures told { IfOk result (λ run. IsTold run []) }
        ensures counted { IfOk result (λ run. IsCounted run 0) }
        ensures few { IfOk result (λ run. works_left run ≤ most_works) }
    {
        keep_freed_memory(alloc);
        let last = params.cycles();
        let set = LeafSet::roots(alloc, *params.domain())?;
        let blocks = fill(alloc, &params)?;
        let ledger = Ledger::new(initial_totals(&params));
        let step = after_round(params.rounds(), 0);
        Ok(Run {
            params,
            ended: 0,
            last,
            set,
            ledger,
            blocks,
            wishes: Vec::new(alloc),
            faces: Vec::new(alloc),
            phase: 0,
            step,
            stage: Stage::Next,
            of: PhantomData,
        })
    }
}

impl<S: Start> Run<S> {
    /// The run that goes on after a cycle up to cycle `until`, from blocks that hold its state, which is where the run
    /// starts, and with the ledger that is restored of it. It takes no memory but a room that it lets go.
    pub fn resume(
        alloc: Global,
        params: Params,
        cycle: u32,
        set: LeafSet,
        blocks: Vec<Block>,
        ledger: Ledger,
        until: u32,
    ) -> Run<S>
        requires grid { set.grid ≡ params.grid }
        requires blocks { AreBlocksFor params set.places blocks.items }
        requires state { IsState (blocks_state params blocks.items) }
        requires restored { ledger ≡ restored_ledger (totals_of (blocks_state params blocks.items)) ledger.gone }
        requires together { (f : ℕ) → f < length params.fields →
            slice_index ledger.total f + slice_index ledger.gone f ≡ total (initial_state params) f }
        requires cycle { cycle ≤ most_cycles }
        requires until { until ≤ most_cycles }
        requires start { S.start ≡ Some (run_state (blocks_state params blocks.items) ledger []) }
        ensures course { result.course ≡ going_on params cycle (blocks_state params blocks.items) ledger.gone until }
        ensures set { result.set ≡ set }
        ensures ledger { result.ledger ≡ ledger }
        ensures phase { result.phase ≡ 0 }
        ensures step { result.step ≡ after_cycle_told 0 (phases_of result.course) }
        ensures next { result.stage ≡ Stage.Next }
        ensures told { IsTold result [] }
        ensures counted { IsCounted result 0 }
        ensures few { works_left result ≤ most_works }
    {
        keep_freed_memory(alloc);
        let ended = params.rounds() + cycle;
        let all = (params.rounds() + until).saturating_sub(ended);
        Run {
            params,
            ended,
            last: until,
            set,
            ledger,
            blocks,
            wishes: Vec::new(alloc),
            faces: Vec::new(alloc),
            phase: 0,
            step: after_cycle_told(0, all),
            stage: Stage::Next,
            of: PhantomData,
        }
    }

    /// The next work. The cells of phases are made by `maker`. The run waits until the work comes back; at the end there is
    /// none to be done.
    pub fn work<M: Maker>(&mut self, alloc: Global, maker: &M) -> Result<Work, RunFault>
        requires ready { M.ready maker.now }
        requires next { self.old.stage ≡ Stage.Next }
        ensures work { IfOk result (λ work. IsWork self.new work) }
        ensures out { IfOk result (λ _. self.new ≡ record self.old { stage = stage_out self.old.step }) }
        ensures told { (told : List Told) → IsTold self.old told → IfOk result (λ _. IsTold self.new told) }
        ensures counted { (handled : ℕ) → IsCounted self.old handled → IfOk result (λ _. IsCounted self.new handled) }
        ensures limit { IfErr result (λ fault. (fault ≡ RunFault.Memory) ⊎ LimitEnds self.old fault) }
        ensures failed { IfErr result (λ _. self.new ≡ record self.old { stage = Stage.Failed }) }
    {
        match self.step {
            Step::Refresh | Step::RefreshAgain => {
                let (phase, cells) = self.give_refresh(alloc, maker)?;
                Ok(Work::Refresh(phase, cells))
            }
            Step::Wishes => Ok(Work::Wishes(self.give_wishes(alloc))),
            Step::Adapt => {
                let (phase, cells) = self.give_adapt(alloc, maker)?;
                Ok(Work::Adapt(phase, cells))
            }
            Step::Advance => Ok(Work::Advance(self.give_advance(alloc))),
            Step::Flux => {
                let (phase, cells) = self.give_flux(alloc, maker)?;
                Ok(Work::Flux(phase, cells))
            }
            Step::Emit => Ok(Work::Emit(self.give_emission())),
            Step::Ended => Ok(Work::Ended),
        }
    }
}
