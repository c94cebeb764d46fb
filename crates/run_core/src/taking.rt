//! A run takes works back.
ghost use Rattle.std.specs.Prelude.{◌≡◌, ℕ, ◌+◌, ◌<◌, ◌⊎◌, ◌++◌, ◌∷◌, [], IfOk, IfErr, List, length};
ghost use Rattle.block_fields.specs.Blocks.{BlockState};
ghost use Rattle.adapt_core.specs.Problem.{wishes_of};
ghost use Rattle.run_core.specs.Courses.{Told, cycle_ended, phase_ended};
ghost use Rattle.run_core.specs.PlainCounts.{IsPlainCount};
ghost use Rattle.run_core.specs.Runs.{blocks_state};
ghost use Rattle.run_core.specs.Steps.{phases_after, step_after};
ghost use Rattle.run_core.specs.Works.{
  AreNextAdvanced,
  AreNextWishes,
  HoldNext,
  IsCounted,
  IsNextFlux,
  IsNextProblem,
  IsNextRefresh,
  IsRefreshStep,
  IsTold,
  LimitEnds,
  cycle_of,
  phase_of,
  works_left,
};

use crate::fault::RunFault;
use crate::flux::{corrected, flux_out};
use crate::phase::{NextState, next_state};
use crate::refresh::refreshed;
use crate::run::{Run, Start};
use crate::step::{Stage, Step, after_adapt, after_cycle_told, after_refresh, phases_after_adapt};
use adapt_core::Adapt;
use advect::FaceFluxes;
use block_fields::Block;
use block_index::Wish;
use cello_num::Memory;
use flux_register::FluxFix;
use phase_core::Quiet;
use refresh_phase::Refresh;
use std::alloc::Global;
use std::mem;

impl<S: Start> Run<S> {
    /// Takes a refresh phase at rest, whose blocks hold samples around them.
    pub fn done_refresh(&mut self, alloc: Global, quiet: Quiet<Refresh>) -> Result<(), Memory>
        requires out { self.old.stage ≡ Stage.Out }
        requires step { IsRefreshStep self.old.step }
        requires problem { IsNextRefresh self.old quiet.problem }
        ensures next { IfOk result (λ _. self.new ≡ record self.old {
          step = step_after self.old.course self.old.phase self.old.step;
          stage = Stage.Next;
        }) }
        ensures told { (told : List Told) → IsTold self.old told → IfOk result (λ _. IsTold self.new told) }
        ensures counted { (handled : ℕ) → IsCounted self.old handled → IfOk result (λ _. IsCounted self.new handled) }
        ensures fewer { IfOk result (λ _. works_left self.new < works_left self.old) }
        ensures failed { IfErr result (λ _. self.new ≡ record self.old { stage = Stage.Failed }) }
    {
        self.stage = Stage::Failed;
        self.blocks = refreshed(alloc, &self.params, quiet)?;
        self.step = after_refresh(self.step);
        self.stage = Stage::Next;
        Ok(())
    }

    /// Takes the blocks back, with the wish of each leaf.
    pub fn done_wishes(&mut self, blocks: Vec<Block>, wishes: Vec<Wish>)
        requires out { self.old.stage ≡ Stage.Out }
        requires step { self.old.step ≡ Step.Wishes }
        requires blocks { HoldNext self.old blocks.items }
        requires wishes { AreNextWishes self.old wishes.items }
        ensures next { self.new ≡ record self.old { step = Step.Adapt; stage = Stage.Next } }
        ensures told { (told : List Told) → IsTold self.old told → IsTold self.new told }
        ensures counted { (handled : ℕ) → IsCounted self.old handled → IsCounted self.new handled }
        ensures fewer { works_left self.new < works_left self.old }
    {
        self.blocks = blocks;
        self.wishes = wishes;
        self.step = Step::Adapt;
        self.stage = Stage::Next;
    }

    /// Takes an adapt phase at rest, and goes over to the mesh that it decides on, unless that has too many leaves.
    pub fn done_adapt(&mut self, alloc: Global, quiet: Quiet<Adapt>) -> Result<(), RunFault>
        requires out { self.old.stage ≡ Stage.Out }
        requires step { self.old.step ≡ Step.Adapt }
        requires problem { IsNextProblem self.old quiet.problem }
        ensures next { IfOk result (λ _. self.new ≡ record self.old {
          set = self.new.set;
          phase = phases_after self.old.course self.old.phase Step.Adapt;
          step = step_after self.old.course self.old.phase Step.Adapt;
          stage = Stage.Next;
        }) }
        ensures told { (told : List Told) → IsTold self.old told →
            IfOk result (λ _. IsTold self.new (told ++ phase_ended (phase_of self.new) (length self.new.set.places) ∷ [])) }
        ensures counted { (handled count : ℕ) → IsCounted self.old handled →
            IsPlainCount self.old.course.parameters.grid self.old.set.places (wishes_of quiet.problem) count →
            IfOk result (λ _. IsCounted self.new (handled + count)) }
        ensures fewer { IfOk result (λ _. works_left self.new < works_left self.old) }
        ensures limit { IfErr result (λ fault. (fault ≡ RunFault.Memory) ⊎ LimitEnds self.old fault) }
        ensures failed { IfErr result (λ _. self.new ≡ record self.old { stage = Stage.Failed }) }
    {
        self.stage = Stage::Failed;
        let blocks = mem::replace(&mut self.blocks, Vec::new(alloc));
        let number = self.ended + self.phase + 1;
        match next_state(alloc, &self.params, number, &self.set, blocks, quiet) {
            Ok(NextState { set, blocks }) => {
                self.set = set;
                self.blocks = blocks;
                self.phase = phases_after_adapt(self.params.rounds(), number, self.phase);
                self.step = after_adapt(self.params.rounds(), number);
                self.stage = Stage::Next;
                Ok(())
            }
            Err(fault) => Err(fault),
        }
    }

    /// Takes the blocks back, each advanced by its own fluxes, with the fluxes of its faces.
    pub fn done_advance(
        &mut self,
        alloc: Global,
        blocks: Vec<Block>,
        faces: Vec<FaceFluxes>,
    ) -> Result<(), Memory>
        requires out { self.old.stage ≡ Stage.Out }
        requires step { self.old.step ≡ Step.Advance }
        requires advanced { AreNextAdvanced self.old blocks.items faces.items }
        ensures next { IfOk result (λ _. self.new ≡ record self.old { step = Step.Flux; stage = Stage.Next }) }
        ensures told { (told : List Told) → IsTold self.old told → IfOk result (λ _. IsTold self.new told) }
        ensures counted { (handled : ℕ) → IsCounted self.old handled → IfOk result (λ _. IsCounted self.new handled) }
        ensures fewer { IfOk result (λ _. works_left self.new < works_left self.old) }
        ensures failed { IfErr result (λ _. self.new ≡ record self.old { stage = Stage.Failed }) }
    {
        self.blocks = blocks;
        self.faces = faces;
        self.step = Step::Flux;
        self.stage = Stage::Next;
        Ok(())
    }

    /// Takes the flux correction at rest, whose blocks hold the advanced state. The cycle ends with it, and the ledger
    /// takes what left the domain.
    pub fn done_flux(&mut self, alloc: Global, quiet: Quiet<FluxFix>) -> Result<(), Memory>
        requires out { self.old.stage ≡ Stage.Out }
        requires step { self.old.step ≡ Step.Flux }
        requires problem { IsNextFlux self.old quiet.problem }
        ensures next { IfOk result (λ _. self.new ≡ record self.old {
          ledger = self.new.ledger;
          phase = self.old.phase + 1;
          step = Step.Emit;
          stage = Stage.Next;
        }) }
        ensures told { (told : List Told) → IsTold self.old told → IfOk result (λ _. IsTold self.new told) }
        ensures counted { (handled : ℕ) → IsCounted self.old handled → IfOk result (λ _. IsCounted self.new handled) }
        ensures fewer { IfOk result (λ _. works_left self.new < works_left self.old) }
        ensures failed { IfErr result (λ _. self.new ≡ record self.old { stage = Stage.Failed }) }
    {
        self.stage = Stage::Failed;
        let out = flux_out(&self.params, &quiet);
        self.blocks = corrected(alloc, &self.params, quiet)?;
        self.ledger.step(out);
        self.phase += 1;
        self.step = Step::Emit;
        self.stage = Stage::Next;
        Ok(())
    }

    /// The cycle was told, with the state that `blocks` lent and the ledger.
    pub fn done_emit(&mut self)
        requires out { self.old.stage ≡ Stage.Out }
        requires step { self.old.step ≡ Step.Emit }
        ensures next { self.new ≡ record self.old { step = step_after self.old.course self.old.phase Step.Emit; stage = Stage.Next } }
        ensures told { (told : List Told) (blocks : List BlockState) → IsTold self.old told → HoldNext self.old blocks →
            IsTold self.new (told ++ cycle_ended (cycle_of self.old) (blocks_state self.old.course.parameters blocks) self.old.ledger ∷ []) }
        ensures counted { (handled : ℕ) → IsCounted self.old handled → IsCounted self.new handled }
        ensures fewer { works_left self.new < works_left self.old }
    {
        self.step = after_cycle_told(
            self.phase,
            (self.params.rounds() + self.last).saturating_sub(self.ended),
        );
        self.stage = Stage::Next;
    }
}
