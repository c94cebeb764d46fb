//! A run gives works out.
ghost use Rattle.std.specs.Prelude.{◌≡◌, ℕ, ◌%◌, ◌==◌, ◌&&◌, ◌⊎◌, IfOk, IfErr, nat_lt};
ghost use Rattle.run_core.specs.Courses.{is_due};
ghost use Rattle.run_core.specs.Works.{
  IsAdapt,
  IsAdvance,
  IsEmission,
  IsFlux,
  IsRefresh,
  IsRefreshStep,
  IsWishes,
  LimitEnds,
};

use crate::fault::RunFault;
use crate::flux::begin_flux;
use crate::maker::Maker;
use crate::phase::begin_adapt;
use crate::refresh::begin_refresh;
use crate::run::{Run, Start};
use crate::step::{Stage, Step};
use crate::work::Emission;
use adapt_core::{Adapt, AdaptCell};
use block_fields::Block;
use cello_num::Memory;
use flux_register::{FluxCell, FluxFix};
use refresh_phase::{Refresh, RefreshCell};
use std::alloc::Global;
use std::mem;

/// Whether a file is due after a cycle.
fn is_due(every: u32, cycle: u32) -> bool
    ensures { result ≡ is_due every cycle }
{
    every > 0 && cycle % every == 0
}

impl<S: Start> Run<S> {
    /// Gives the blocks out as the cells of a refresh phase.
    pub(crate) fn give_refresh<M: Maker>(
        &mut self,
        alloc: Global,
        maker: &M,
    ) -> Result<(Refresh, Vec<RefreshCell>), Memory>
        requires ready { M.ready maker.now }
        requires next { self.old.stage ≡ Stage.Next }
        requires step { IsRefreshStep self.old.step }
        ensures begun { IfOk result (λ r. IsRefresh self.new r.0 r.1.items) }
        ensures out { IfOk result (λ _. self.new ≡ record self.old { stage = Stage.Out }) }
        ensures failed { IfErr result (λ _. self.new ≡ record self.old { stage = Stage.Failed }) }
    {
        self.stage = Stage::Failed;
        let blocks = mem::replace(&mut self.blocks, Vec::new(alloc));
        let begun = begin_refresh(alloc, maker, &self.params, &self.set, blocks)?;
        self.stage = Stage::Out;
        Ok(begun)
    }

    /// Gives the blocks out, for their wishes.
    pub(crate) fn give_wishes(&mut self, alloc: Global) -> Vec<Block>
        requires next { self.old.stage ≡ Stage.Next }
        requires step { self.old.step ≡ Step.Wishes }
        ensures blocks { IsWishes self.new result.items }
        ensures out { self.new ≡ record self.old { stage = Stage.Out } }
    {
        self.stage = Stage::Out;
        mem::replace(&mut self.blocks, Vec::new(alloc))
    }

    /// Gives the next adapt phase out, unless a leaf wishes past the level limit.
    pub(crate) fn give_adapt<M: Maker>(
        &mut self,
        alloc: Global,
        maker: &M,
    ) -> Result<(Adapt, Vec<AdaptCell>), RunFault>
        requires ready { M.ready maker.now }
        requires next { self.old.stage ≡ Stage.Next }
        requires step { self.old.step ≡ Step.Adapt }
        ensures begun { IfOk result (λ r. IsAdapt self.new r.0 r.1.items) }
        ensures out { IfOk result (λ _. self.new ≡ record self.old { stage = Stage.Out }) }
        ensures limit { IfErr result (λ fault. (fault ≡ RunFault.Memory) ⊎ LimitEnds self.old fault) }
        ensures failed { IfErr result (λ _. self.new ≡ record self.old { stage = Stage.Failed }) }
    {
        match begin_adapt(
            alloc,
            maker,
            &self.params,
            self.ended + self.phase + 1,
            &self.set,
            &self.wishes,
        ) {
            Ok(begun) => {
                self.stage = Stage::Out;
                Ok(begun)
            }
            Err(fault) => {
                self.stage = Stage::Failed;
                Err(fault)
            }
        }
    }

    /// Gives the blocks out, to be advanced.
    pub(crate) fn give_advance(&mut self, alloc: Global) -> Vec<Block>
        requires next { self.old.stage ≡ Stage.Next }
        requires step { self.old.step ≡ Step.Advance }
        ensures blocks { IsAdvance self.new result.items }
        ensures out { self.new ≡ record self.old { stage = Stage.Out } }
    {
        self.stage = Stage::Out;
        mem::replace(&mut self.blocks, Vec::new(alloc))
    }

    /// Gives the advanced blocks out as the cells of the flux correction.
    pub(crate) fn give_flux<M: Maker>(
        &mut self,
        alloc: Global,
        maker: &M,
    ) -> Result<(FluxFix, Vec<FluxCell>), Memory>
        requires ready { M.ready maker.now }
        requires next { self.old.stage ≡ Stage.Next }
        requires step { self.old.step ≡ Step.Flux }
        ensures begun { IfOk result (λ r. IsFlux self.new r.0 r.1.items) }
        ensures out { IfOk result (λ _. self.new ≡ record self.old { stage = Stage.Out }) }
        ensures failed { IfErr result (λ _. self.new ≡ record self.old { stage = Stage.Failed }) }
    {
        self.stage = Stage::Failed;
        let blocks = mem::replace(&mut self.blocks, Vec::new(alloc));
        let faces = mem::replace(&mut self.faces, Vec::new(alloc));
        let begun = begin_flux(alloc, maker, &self.params, &self.set, blocks, faces)?;
        self.stage = Stage::Out;
        Ok(begun)
    }

    /// Gives out what is to be told of a cycle.
    pub(crate) fn give_emission(&mut self) -> Emission
        requires next { self.old.stage ≡ Stage.Next }
        requires step { self.old.step ≡ Step.Emit }
        ensures emission { IsEmission self.new result }
        ensures out { self.new ≡ record self.old { stage = Stage.Out } }
    {
        self.stage = Stage::Out;
        let cycle = self.cycle();
        Emission {
            cycle,
            mesh: is_due(self.params.mesh_every(), cycle),
            fields: is_due(self.params.fields_every(), cycle),
            checkpoint: is_due(self.params.checkpoint_every(), cycle),
        }
    }
}
