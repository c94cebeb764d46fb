//! The works of a run that write nothing, each done by a crew.
ghost use Rattle.std.specs.Prelude.{◌≡◌, ℕ, ◌+◌, ◌<◌, ◌≤◌, ◌⊎◌, ◌∷◌, [], ◌++◌, IfOk, IfErr, List, OnOk, length};
ghost use Rattle.run_core.specs.CourseLimits.{IsCourse};
ghost use Rattle.run_core.specs.Courses.{Told, phase_ended};
ghost use Rattle.run_core.specs.Lemmas.Bounds.{many_messages};
ghost use Rattle.run_core.specs.Works.{IsAdapt, IsAdvance, IsFlux, IsRefresh, IsTold, IsWishes, LimitEnds, phase_of, works_left};
ghost use Rattle.cello_top.specs.Counts.{IsCountedBy};

use adapt_core::{Adapt, AdaptCell, few_messages};
use block_fields::Block;
use cello_num::Memory;
use crew::Crew;
use flux_register::{FluxCell, FluxFix};
use refresh_phase::{Refresh, RefreshCell};
use run_core::{Run, RunFault, Stage, Start, Step};
use std::alloc::Global;

/// Has the crew bring the refresh of the blocks to its rest, and hands it back. Its messages aren't counted.
pub(crate) fn refresh_blocks<S: Start, C: Crew>(
    alloc: Global,
    crew: &C,
    run: &mut Run<S>,
    phase: Refresh,
    cells: Vec<RefreshCell>,
) -> Result<(), Memory>
    requires ready { C.ready crew.now }
    requires out { run.old.stage ≡ Stage.Out }
    requires work { IsRefresh run.old phase cells.items }
    ensures same { OnOk result (run.new.course ≡ run.old.course) }
    ensures next { OnOk result (run.new.stage ≡ Stage.Next) }
    ensures goes_on { OnOk result (run.new.step ≡ Step.Ended → ⊥) }
    ensures told { (told : List Told) → IsTold run.old told → OnOk result (IsTold run.new told) }
    ensures counted { (handled : ℕ) → IsCountedBy C.counts run.old handled → OnOk result (IsCountedBy C.counts run.new handled) }
    ensures fewer { OnOk result (works_left run.new < works_left run.old) }
{
    let quiet = crew.refresh(alloc, phase, cells)?;
    run.done_refresh(alloc, quiet)?;
    Ok(())
}

/// Gives the run the wish of each leaf by the criteria.
pub(crate) fn give_wishes<S: Start, C: Crew>(
    alloc: Global,
    crew: &C,
    run: &mut Run<S>,
    blocks: Vec<Block>,
) -> Result<(), Memory>
    requires ready { C.ready crew.now }
    requires out { run.old.stage ≡ Stage.Out }
    requires limits { IsCourse run.old.course }
    requires work { IsWishes run.old blocks.items }
    ensures same { OnOk result (run.new.course ≡ run.old.course) }
    ensures next { OnOk result (run.new.stage ≡ Stage.Next) }
    ensures goes_on { OnOk result (run.new.step ≡ Step.Ended → ⊥) }
    ensures told { (told : List Told) → IsTold run.old told → OnOk result (IsTold run.new told) }
    ensures counted { (handled : ℕ) → IsCountedBy C.counts run.old handled → OnOk result (IsCountedBy C.counts run.new handled) }
    ensures fewer { OnOk result (works_left run.new < works_left run.old) }
{
    let criteria = run.params().criteria().items();
    let wishes = crew.wishes(alloc, criteria, run.phase() + 1, &blocks)?;
    run.done_wishes(blocks, wishes);
    Ok(())
}

/// Has the crew bring the adapt phase to its rest, hands it back, and answers how many messages were handled.
pub(crate) fn drive_phase<S: Start, C: Crew>(
    alloc: Global,
    crew: &C,
    run: &mut Run<S>,
    phase: Adapt,
    cells: Vec<AdaptCell>,
) -> Result<u64, RunFault>
    requires ready { C.ready crew.now }
    requires out { run.old.stage ≡ Stage.Out }
    requires work { IsAdapt run.old phase cells.items }
    ensures same { IfOk result (λ _. run.new.course ≡ run.old.course) }
    ensures next { IfOk result (λ _. run.new.stage ≡ Stage.Next) }
    ensures goes_on { IfOk result (λ _. run.new.step ≡ Step.Ended → ⊥) }
    ensures told { (told : List Told) → IsTold run.old told →
        IfOk result (λ _. IsTold run.new (told ++ phase_ended (phase_of run.new) (length run.new.set.places) ∷ [])) }
    ensures counted { (handled : ℕ) → IsCountedBy C.counts run.old handled → IfOk result (λ count. IsCountedBy C.counts run.new (handled + count)) }
    ensures fewer { IfOk result (λ _. works_left run.new < works_left run.old) }
    ensures few { IfOk result (λ count. count ≤ many_messages) }
    ensures limit { IfErr result (λ fault. (fault ≡ RunFault.Memory) ⊎ LimitEnds run.old fault) }
{
    let _set = run.set();
    let quiet = crew.adapt(alloc, phase, cells)?;
    let handled = quiet.handled();
    few_messages();
    run.done_adapt(alloc, quiet)?;
    Ok(handled)
}

/// Advances the blocks by their own fluxes, in place, and gives them back with the fluxes of their faces.
pub(crate) fn give_advanced<S: Start, C: Crew>(
    alloc: Global,
    crew: &C,
    run: &mut Run<S>,
    mut blocks: Vec<Block>,
) -> Result<(), Memory>
    requires ready { C.ready crew.now }
    requires out { run.old.stage ≡ Stage.Out }
    requires work { IsAdvance run.old blocks.items }
    ensures same { OnOk result (run.new.course ≡ run.old.course) }
    ensures next { OnOk result (run.new.stage ≡ Stage.Next) }
    ensures goes_on { OnOk result (run.new.step ≡ Step.Ended → ⊥) }
    ensures told { (told : List Told) → IsTold run.old told → OnOk result (IsTold run.new told) }
    ensures counted { (handled : ℕ) → IsCountedBy C.counts run.old handled → OnOk result (IsCountedBy C.counts run.new handled) }
    ensures fewer { OnOk result (works_left run.new < works_left run.old) }
{
    let faces = crew.advance(alloc, run.params(), &mut blocks)?;
    run.done_advance(alloc, blocks, faces)?;
    Ok(())
}

/// Has the crew bring the flux correction of the advanced blocks to its rest, and hands it back. Its messages aren't counted.
pub(crate) fn fix_fluxes<S: Start, C: Crew>(
    alloc: Global,
    crew: &C,
    run: &mut Run<S>,
    phase: FluxFix,
    cells: Vec<FluxCell>,
) -> Result<(), Memory>
    requires ready { C.ready crew.now }
    requires out { run.old.stage ≡ Stage.Out }
    requires work { IsFlux run.old phase cells.items }
    ensures same { OnOk result (run.new.course ≡ run.old.course) }
    ensures next { OnOk result (run.new.stage ≡ Stage.Next) }
    ensures goes_on { OnOk result (run.new.step ≡ Step.Ended → ⊥) }
    ensures told { (told : List Told) → IsTold run.old told → OnOk result (IsTold run.new told) }
    ensures counted { (handled : ℕ) → IsCountedBy C.counts run.old handled → OnOk result (IsCountedBy C.counts run.new handled) }
    ensures fewer { OnOk result (works_left run.new < works_left run.old) }
{
    let quiet = crew.correct(alloc, phase, cells)?;
    run.done_flux(alloc, quiet)?;
    Ok(())
}
