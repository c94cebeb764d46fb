//! A run by a crew of which nothing is written.
ghost use Rattle.std.specs.Prelude.{◌≡◌, ℕ, ◌<◌, ◌≤◌, IfOk, IfErr, IfSome, []};
ghost use Rattle.run_core.specs.CourseLimits.{IsCourse};
ghost use Rattle.run_core.specs.Lemmas.Bounds.{many_messages, most_works};
ghost use Rattle.run_core.specs.Steps.{adapts_at};
ghost use Rattle.run_core.specs.Works.{IsEmission, IsTold, IsWork, stage_out, works_left};
ghost use Rattle.cello_top.specs.Lemmas.Demonstrating.{EndsCounted, IsCutBy, Keeps, KeepsOn};
ghost use Rattle.cello_top.specs.Lemmas.Engine.{Stands};

use crate::works::{drive_phase, fix_fluxes, give_advanced, give_wishes, refresh_blocks};
use cello_num::Memory;
use crew::Crew;
use run_core::{Emission, Run, RunFault, Stage, Start, Step, Work};
use std::alloc::Global;

/// Does all works of a run that begins, and writes nothing of it. It answers how many messages were handled.
pub(crate) fn run_quietly<S: Start, C: Crew>(
    alloc: Global,
    crew: &C,
    run: &mut Run<S>,
) -> Result<u64, RunFault>
    requires ready { C.ready crew.now }
    requires limits { IsCourse run.old.course }
    requires told { IsTold run.old [] }
    requires none { adapts_at run.old.step run.old.phase ≡ 0 }
    requires next { run.old.stage ≡ Stage.Next }
    requires begins { run.old.step ≡ Step.Ended → ⊥ }
    requires few { works_left run.old ≤ most_works }
    ensures ended { IfOk result (EndsCounted C.counts run.new) }
    ensures same { IfOk result (λ _. run.new.course ≡ run.old.course) }
    ensures cut { IfErr result (IsCutBy run.old.course) }
{
    let mut handled = 0;
    loop {
        match work_quietly(alloc, crew, run) {
            Ok(Some(count)) => handled += count,
            Ok(None) => return Ok(handled),
            Err(fault) => return Err(fault),
        }
    }
}

/// Does the next work. It answers how many messages were handled, or none where there was no more work.
fn work_quietly<S: Start, C: Crew>(
    alloc: Global,
    crew: &C,
    run: &mut Run<S>,
) -> Result<Option<u64>, RunFault>
    requires ready { C.ready crew.now }
    requires limits { IsCourse run.old.course }
    requires next { run.old.stage ≡ Stage.Next }
    ensures goes { (handled : ℕ) → Keeps C.counts run.old handled → IfOk result (KeepsOn C.counts run.new handled) }
    ensures cut { (handled : ℕ) → Keeps C.counts run.old handled → IfErr result (IsCutBy run.old.course) }
    ensures same { IfOk result (λ _. run.new.course ≡ run.old.course) }
    ensures next { IfOk result (λ _. run.new.stage ≡ Stage.Next) }
    ensures fewer { IfOk result (λ went. IfSome went (λ _. works_left run.new < works_left run.old)) }
    ensures few { IfOk result (λ went. IfSome went (λ count. count ≤ many_messages)) }
{
    let _set = run.set();
    match run.work(alloc, crew) {
        Ok(work) => do_quietly(alloc, crew, run, work),
        Err(fault) => Err(fault),
    }
}

/// Does a work that is out.
fn do_quietly<S: Start, C: Crew>(
    alloc: Global,
    crew: &C,
    run: &mut Run<S>,
    work: Work,
) -> Result<Option<u64>, RunFault>
    requires ready { C.ready crew.now }
    requires limits { IsCourse run.old.course }
    requires out { run.old.stage ≡ stage_out run.old.step }
    requires work { IsWork run.old work }
    requires stands { Stands run.old }
    ensures goes { (handled : ℕ) → Keeps C.counts run.old handled → IfOk result (KeepsOn C.counts run.new handled) }
    ensures cut { (handled : ℕ) → Keeps C.counts run.old handled → IfErr result (IsCutBy run.old.course) }
    ensures same { IfOk result (λ _. run.new.course ≡ run.old.course) }
    ensures next { IfOk result (λ _. run.new.stage ≡ Stage.Next) }
    ensures fewer { IfOk result (λ went. IfSome went (λ _. works_left run.new < works_left run.old)) }
    ensures few { IfOk result (λ went. IfSome went (λ count. count ≤ many_messages)) }
{
    match work {
        Work::Refresh(phase, cells) => match refresh_blocks(alloc, crew, run, phase, cells) {
            Ok(()) => Ok(Some(0)),
            Err(Memory) => Err(RunFault::Memory),
        },
        Work::Wishes(blocks) => match give_wishes(alloc, crew, run, blocks) {
            Ok(()) => Ok(Some(0)),
            Err(Memory) => Err(RunFault::Memory),
        },
        Work::Adapt(phase, cells) => match drive_phase(alloc, crew, run, phase, cells) {
            Ok(count) => Ok(Some(count)),
            Err(fault) => Err(fault),
        },
        Work::Advance(blocks) => match give_advanced(alloc, crew, run, blocks) {
            Ok(()) => Ok(Some(0)),
            Err(Memory) => Err(RunFault::Memory),
        },
        Work::Flux(phase, cells) => match fix_fluxes(alloc, crew, run, phase, cells) {
            Ok(()) => Ok(Some(0)),
            Err(Memory) => Err(RunFault::Memory),
        },
        Work::Emit(emission) => {
            pass_cycle::<S, C>(run, emission);
            Ok(Some(0))
        }
        Work::Ended => Ok(None),
    }
}

/// Goes past a cycle, of which nothing is written.
fn pass_cycle<S: Start, C: Crew>(run: &mut Run<S>, _emission: Emission)
    requires out { run.old.stage ≡ Stage.Out }
    requires work { IsEmission run.old _emission }
    ensures keeps { (handled : ℕ) → Keeps C.counts run.old handled → Keeps C.counts run.new handled }
    ensures same { run.new.course ≡ run.old.course }
    ensures next { run.new.stage ≡ Stage.Next }
    ensures fewer { works_left run.new < works_left run.old }
{
    let _blocks = run.blocks();
    run.done_emit();
}
