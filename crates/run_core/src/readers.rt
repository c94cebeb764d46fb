//! What a run tells of itself.
ghost use Rattle.std.specs.Prelude.{◌≡◌, ℕ, ◌+◌, ◌^◌, ◌<◌, ◌≤◌, length, slice_index};
ghost use Rattle.block_fields.specs.States.{IsState, total};
ghost use Rattle.initial_fill.specs.RootBlocks.{initial_state};
ghost use Rattle.params_check.specs.Bounds.{most_cycles};
ghost use Rattle.run_core.specs.Courses.{totals_of};
ghost use Rattle.run_core.specs.Runs.{blocks_state, most_phases};
ghost use Rattle.run_core.specs.Works.{HoldNext, StandsAt, cycle_of, phase_of};

use crate::run::{Run, Start};
use crate::step::{Stage, Step};
use amount_ledger::Ledger;
use block_fields::Block;
use leaf_set::LeafSet;
use params_check::Params;

impl<S: Start> Run<S> {
    /// The parameters.
    pub fn params(&self) -> &Params
        ensures params { result.now ≡ self.now.course.parameters }
    {
        &self.params
    }

    /// The leaves after the last adapt phase that ended.
    pub fn set(&self) -> &LeafSet
        ensures set { result.now ≡ self.now.set }
        ensures grid { self.now.set.grid ≡ self.now.course.parameters.grid }
        ensures stands { StandsAt self.now.step self.now.course self.now.phase self.now.set.places }
    {
        &self.set
    }

    /// The totals, and what has left the domain, after the last cycle that ended.
    pub fn ledger(&self) -> &Ledger
        ensures ledger { result.now ≡ self.now.ledger }
        ensures initial { (f : ℕ) → f < length self.now.course.parameters.fields →
            slice_index self.now.ledger.total f + slice_index self.now.ledger.gone f ≡ total (initial_state self.now.course.parameters) f }
        ensures few { (f : ℕ) → f < length self.now.course.parameters.fields → total (initial_state self.now.course.parameters) f ≤ 2 ^ 40 }
    {
        &self.ledger
    }

    /// The number of the last adapt phase that ended: 0 before the first.
    pub fn phase(&self) -> u32
        ensures phase { result ≡ phase_of self.now }
        ensures few { phase_of self.now ≤ most_phases }
    {
        match self.step {
            Step::RefreshAgain | Step::Advance | Step::Flux => self.ended + self.phase + 1,
            Step::Refresh | Step::Wishes | Step::Adapt | Step::Emit | Step::Ended => self.ended
                + self.phase,
        }
    }

    /// The last cycle whose advance ended: 0 before the first.
    pub fn cycle(&self) -> u32
        ensures cycle { result ≡ cycle_of self.now }
        ensures few { cycle_of self.now ≤ most_cycles }
    {
        (self.ended + self.phase).saturating_sub(self.params.rounds())
    }

    /// The blocks of the state, while an emission is out.
    pub fn blocks(&self) -> &[Block]
        requires out { self.now.stage ≡ Stage.Out }
        requires step { self.now.step ≡ Step.Emit }
        ensures holds { HoldNext self.now result.now }
        ensures state { IsState (blocks_state self.now.course.parameters result.now) }
        ensures totals { self.now.ledger.total ≡ totals_of (blocks_state self.now.course.parameters result.now) }
        ensures few { (f : ℕ) → f < length self.now.course.parameters.fields → total (blocks_state self.now.course.parameters result.now) f ≤ 2 ^ 40 }
    {
        self.blocks.as_slice()
    }
}
