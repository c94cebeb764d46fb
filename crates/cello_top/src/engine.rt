//! The run by a crew: each work of the run in its turn, and what is told of it written as soon as it is known.
ghost use Rattle.std.specs.Prelude.{◌≡◌, ℕ, ◌+◌, ◌<◌, ◌≤◌, IfOk, IfErr, IfSome, IsErr, IsErrOf, IsFalse, List, [], ◌∷◌, OnErr, OnOk, Option};
ghost use Rattle.cello_io.specs.Counts.{Rose};
ghost use Rattle.cello_io.specs.Files.{MadeFile};
ghost use Rattle.run_core.specs.CourseLimits.{IsCourse};
ghost use Rattle.run_core.specs.Courses.{whole};
ghost use Rattle.run_core.specs.Lemmas.Bounds.{many_messages, most_works};
ghost use Rattle.run_core.specs.Steps.{adapts_at};
ghost use Rattle.run_core.specs.Works.{IsAdapt, IsEmission, IsTold, IsWork, stage_out, works_left};
ghost use Rattle.mesh_output.specs.Lines.{header_line};
ghost use Rattle.run_report.specs.Actions.{piece, restart_pieces};
ghost use Rattle.run_report.specs.Outputs.{Output, output};
ghost use Rattle.cello_top.specs.Lemmas.CommandSteps.{RanInPart, RanWhole, RunningEnds, TreatsDevices};
ghost use Rattle.cello_top.specs.Lemmas.Engine.{Goes, Stands, Tells};

use crate::fault::Fault;
use crate::opening::write_first_lines;
use crate::works::{drive_phase, fix_fluxes, give_advanced, give_wishes, refresh_blocks};
use adapt_core::{Adapt, AdaptCell};
use cello_io::{Failed, Shelf, Sink};
use cello_num::Memory;
use crew::Crew;
use params_check::Params;
use run_core::{Emission, Run, Stage, Start, Work};
use run_report::{Due, emit, write_end_list, write_first_line, write_told_phase};
use std::alloc::Global;

/// Runs the parameters, and writes what is told of the run as soon as it is known. It answers how many messages were
/// handled.
pub(crate) fn run_parameters<C: Crew, K: Sink, H: Shelf>(
    alloc: Global,
    crew: &C,
    params: Params,
    sink: &mut K,
    shelf: &mut H,
) -> Result<u64, Fault>
    requires ready { C.ready crew.now }
    requires idle { IsFalse (H.tells shelf.old).is_writing }
    ensures whole { IfOk result (λ handled. RanWhole C.counts (piece header_line ∷ []) (whole params) handled
        (output (K.written sink.old) (H.tells shelf.old).written) (output (K.written sink.new) (H.tells shelf.new).written)) }
    ensures ended { IfErr result (RunningEnds (piece header_line ∷ []) (whole params)
        (output (K.written sink.old) (H.tells shelf.old).written) (output (K.written sink.new) (H.tells shelf.new).written)) }
    ensures devices { TreatsDevices (K.write_faults sink.old) (K.write_faults sink.new) (H.tells shelf.old) (H.tells shelf.new) (IsErrOf result Fault.WriteFault) }
    ensures same_rest { K.rest sink.new ≡ K.rest sink.old }
{
    let _limits = params.domain();
    match Run::begin(alloc, params) {
        Ok(run) => report_whole(alloc, crew, run, sink, shelf),
        Err(Memory) => Err(Fault::Memory),
    }
}

/// Does all works of a run that begins, and writes what is told of it behind the first line.
fn report_whole<C: Crew, K: Sink, H: Shelf>(
    alloc: Global,
    crew: &C,
    mut run: Run,
    sink: &mut K,
    shelf: &mut H,
) -> Result<u64, Fault>
    requires ready { C.ready crew.now }
    requires limits { IsCourse run.course }
    requires told { IsTold run [] }
    requires none { adapts_at run.step run.phase ≡ 0 }
    requires next { run.stage ≡ Stage.Next }
    requires few { works_left run ≤ most_works }
    requires idle { IsFalse (H.tells shelf.old).is_writing }
    ensures whole { IfOk result (λ handled. RanWhole C.counts (piece header_line ∷ []) run.course handled
        (output (K.written sink.old) (H.tells shelf.old).written) (output (K.written sink.new) (H.tells shelf.new).written)) }
    ensures ended { IfErr result (RunningEnds (piece header_line ∷ []) run.course
        (output (K.written sink.old) (H.tells shelf.old).written) (output (K.written sink.new) (H.tells shelf.new).written)) }
    ensures devices { TreatsDevices (K.write_faults sink.old) (K.write_faults sink.new) (H.tells shelf.old) (H.tells shelf.new) (IsErrOf result Fault.WriteFault) }
    ensures same_rest { K.rest sink.new ≡ K.rest sink.old }
{
    match write_first_line(sink) {
        Ok(()) => do_works(alloc, crew, &mut run, sink, shelf),
        Err(Failed) => Err(Fault::WriteFault),
    }
}

/// Does all works of a run that goes on after this cycle from so many leaves, and writes what is told of it
/// behind the first two lines.
pub(crate) fn report_rest<S: Start, C: Crew, K: Sink, H: Shelf>(
    alloc: Global,
    crew: &C,
    mut run: Run<S>,
    cycle: u32,
    leaves: u32,
    sink: &mut K,
    shelf: &mut H,
) -> Result<u64, Fault>
    requires ready { C.ready crew.now }
    requires limits { IsCourse run.course }
    requires told { IsTold run [] }
    requires none { adapts_at run.step run.phase ≡ 0 }
    requires next { run.stage ≡ Stage.Next }
    requires few { works_left run ≤ most_works }
    requires idle { IsFalse (H.tells shelf.old).is_writing }
    ensures whole { IfOk result (λ handled. RanWhole C.counts (restart_pieces cycle leaves) run.course handled
        (output (K.written sink.old) (H.tells shelf.old).written) (output (K.written sink.new) (H.tells shelf.new).written)) }
    ensures ended { IfErr result (RunningEnds (restart_pieces cycle leaves) run.course
        (output (K.written sink.old) (H.tells shelf.old).written) (output (K.written sink.new) (H.tells shelf.new).written)) }
    ensures devices { TreatsDevices (K.write_faults sink.old) (K.write_faults sink.new) (H.tells shelf.old) (H.tells shelf.new) (IsErrOf result Fault.WriteFault) }
    ensures same_rest { K.rest sink.new ≡ K.rest sink.old }
{
    match write_first_lines(cycle, leaves, sink) {
        Ok(()) => do_works(alloc, crew, &mut run, sink, shelf),
        Err(Failed) => Err(Fault::WriteFault),
    }
}

/// Does all works from the next one on.
fn do_works<S: Start, C: Crew, K: Sink, H: Shelf>(
    alloc: Global,
    crew: &C,
    run: &mut Run<S>,
    sink: &mut K,
    shelf: &mut H,
) -> Result<u64, Fault>
    requires ready { C.ready crew.now }
    requires limits { IsCourse run.old.course }
    requires next { run.old.stage ≡ Stage.Next }
    requires few { works_left run.old ≤ most_works }
    requires idle { IsFalse (H.tells shelf.old).is_writing }
    ensures whole { (before : Output) → Tells C.counts run.old 0 before (output (K.written sink.old) (H.tells shelf.old).written) →
        IfOk result (λ handled. RanWhole C.counts [] run.old.course handled before (output (K.written sink.new) (H.tells shelf.new).written)) }
    ensures ended { (before : Output) → Tells C.counts run.old 0 before (output (K.written sink.old) (H.tells shelf.old).written) →
        IfErr result (RunningEnds [] run.old.course before (output (K.written sink.new) (H.tells shelf.new).written)) }
    ensures devices { TreatsDevices (K.write_faults sink.old) (K.write_faults sink.new) (H.tells shelf.old) (H.tells shelf.new) (IsErrOf result Fault.WriteFault) }
    ensures same_rest { K.rest sink.new ≡ K.rest sink.old }
{
    let mut handled = 0;
    loop {
        match do_next(alloc, crew, run, sink, shelf) {
            Ok(Some(count)) => handled += count,
            Ok(None) => return Ok(handled),
            Err(fault) => return Err(fault),
        }
    }
}

/// Does the next work. It answers how many messages were handled, or none where there was no more work.
fn do_next<S: Start, C: Crew, K: Sink, H: Shelf>(
    alloc: Global,
    crew: &C,
    run: &mut Run<S>,
    sink: &mut K,
    shelf: &mut H,
) -> Result<Option<u64>, Fault>
    requires ready { C.ready crew.now }
    requires limits { IsCourse run.old.course }
    requires next { run.old.stage ≡ Stage.Next }
    requires idle { IsFalse (H.tells shelf.old).is_writing }
    ensures goes { (handled : ℕ) (before : Output) → Tells C.counts run.old handled before (output (K.written sink.old) (H.tells shelf.old).written) →
        IfOk result (Goes C.counts run.new handled before (output (K.written sink.new) (H.tells shelf.new).written)) }
    ensures ended { (handled : ℕ) (before : Output) → Tells C.counts run.old handled before (output (K.written sink.old) (H.tells shelf.old).written) →
        IfErr result (RunningEnds [] run.old.course before (output (K.written sink.new) (H.tells shelf.new).written)) }
    ensures same { IfOk result (λ _. run.new.course ≡ run.old.course) }
    ensures next { IfOk result (λ _. run.new.stage ≡ Stage.Next) }
    ensures fewer { IfOk result (λ went. IfSome went (λ _. works_left run.new < works_left run.old)) }
    ensures few { IfOk result (λ went. IfSome went (λ count. count ≤ many_messages)) }
    ensures devices { TreatsDevices (K.write_faults sink.old) (K.write_faults sink.new) (H.tells shelf.old) (H.tells shelf.new) (IsErrOf result Fault.WriteFault) }
    ensures same_rest { K.rest sink.new ≡ K.rest sink.old }
{
    let _set = run.set();
    match run.work(alloc, crew) {
        Ok(work) => do_work(alloc, crew, run, work, sink, shelf),
        Err(fault) => Err(Fault::from(fault)),
    }
}

/// Does a work that is out.
fn do_work<S: Start, C: Crew, K: Sink, H: Shelf>(
    alloc: Global,
    crew: &C,
    run: &mut Run<S>,
    work: Work,
    sink: &mut K,
    shelf: &mut H,
) -> Result<Option<u64>, Fault>
    requires ready { C.ready crew.now }
    requires limits { IsCourse run.old.course }
    requires out { run.old.stage ≡ stage_out run.old.step }
    requires work { IsWork run.old work }
    requires stands { Stands run.old }
    requires idle { IsFalse (H.tells shelf.old).is_writing }
    ensures goes { (handled : ℕ) (before : Output) → Tells C.counts run.old handled before (output (K.written sink.old) (H.tells shelf.old).written) →
        IfOk result (Goes C.counts run.new handled before (output (K.written sink.new) (H.tells shelf.new).written)) }
    ensures ended { (handled : ℕ) (before : Output) → Tells C.counts run.old handled before (output (K.written sink.old) (H.tells shelf.old).written) →
        IfErr result (RunningEnds [] run.old.course before (output (K.written sink.new) (H.tells shelf.new).written)) }
    ensures same { IfOk result (λ _. run.new.course ≡ run.old.course) }
    ensures next { IfOk result (λ _. run.new.stage ≡ Stage.Next) }
    ensures fewer { IfOk result (λ went. IfSome went (λ _. works_left run.new < works_left run.old)) }
    ensures few { IfOk result (λ went. IfSome went (λ count. count ≤ many_messages)) }
    ensures devices { TreatsDevices (K.write_faults sink.old) (K.write_faults sink.new) (H.tells shelf.old) (H.tells shelf.new) (IsErrOf result Fault.WriteFault) }
    ensures same_rest { K.rest sink.new ≡ K.rest sink.old }
{
    match work {
        Work::Refresh(phase, cells) => match refresh_blocks(alloc, crew, run, phase, cells) {
            Ok(()) => Ok(Some(0)),
            Err(Memory) => Err(Fault::Memory),
        },
        Work::Wishes(blocks) => match give_wishes(alloc, crew, run, blocks) {
            Ok(()) => Ok(Some(0)),
            Err(Memory) => Err(Fault::Memory),
        },
        Work::Adapt(phase, cells) => match run_phase(alloc, crew, run, phase, cells, sink) {
            Ok(count) => Ok(Some(count)),
            Err(fault) => Err(fault),
        },
        Work::Advance(blocks) => match give_advanced(alloc, crew, run, blocks) {
            Ok(()) => Ok(Some(0)),
            Err(Memory) => Err(Fault::Memory),
        },
        Work::Flux(phase, cells) => match fix_fluxes(alloc, crew, run, phase, cells) {
            Ok(()) => Ok(Some(0)),
            Err(Memory) => Err(Fault::Memory),
        },
        Work::Emit(emission) => match tell_cycle::<S, C, K, H>(run, emission, sink, shelf) {
            Ok(()) => Ok(Some(0)),
            Err(Failed) => Err(Fault::WriteFault),
        },
        Work::Ended => match write_end_list(run.set(), sink) {
            Ok(()) => Ok(None),
            Err(Failed) => Err(Fault::WriteFault),
        },
    }
}

/// Runs an adapt phase, and writes its line.
fn run_phase<S: Start, C: Crew, K: Sink>(
    alloc: Global,
    crew: &C,
    run: &mut Run<S>,
    phase: Adapt,
    cells: Vec<AdaptCell>,
    sink: &mut K,
) -> Result<u64, Fault>
    requires ready { C.ready crew.now }
    requires limits { IsCourse run.old.course }
    requires out { run.old.stage ≡ Stage.Out }
    requires work { IsAdapt run.old phase cells.items }
    requires stands { Stands run.old }
    ensures told { (handled : ℕ) (before : Output) (files : Option (List MadeFile)) → Tells C.counts run.old handled before (output (K.written sink.old) files) →
        IfOk result (λ count. Tells C.counts run.new (handled + count) before (output (K.written sink.new) files)) }
    ensures ended { (handled : ℕ) (before : Output) (files : Option (List MadeFile)) → Tells C.counts run.old handled before (output (K.written sink.old) files) →
        IfErr result (RunningEnds [] run.old.course before (output (K.written sink.new) files)) }
    ensures same { IfOk result (λ _. run.new.course ≡ run.old.course) }
    ensures next { IfOk result (λ _. run.new.stage ≡ Stage.Next) }
    ensures fewer { IfOk result (λ _. works_left run.new < works_left run.old) }
    ensures few { IfOk result (λ count. count ≤ many_messages) }
    ensures write_cause { IsErrOf result Fault.WriteFault → Rose (K.write_faults sink.old) (K.write_faults sink.new) }
    ensures same_rest { K.rest sink.new ≡ K.rest sink.old }
    ensures write_faults { K.write_faults sink.old ≤ K.write_faults sink.new }
{
    let handled = match drive_phase(alloc, crew, run, phase, cells) {
        Ok(handled) => handled,
        Err(fault) => return Err(Fault::from(fault)),
    };
    match write_told_phase(run.phase(), run.set().len() as u32, sink) {
        Ok(()) => Ok(handled),
        Err(Failed) => Err(Fault::WriteFault),
    }
}

/// Writes the lines of a cycle, and makes the files that are due after it.
fn tell_cycle<S: Start, C: Crew, K: Sink, H: Shelf>(
    run: &mut Run<S>,
    emission: Emission,
    sink: &mut K,
    shelf: &mut H,
) -> Result<(), Failed>
    requires limits { IsCourse run.old.course }
    requires out { run.old.stage ≡ Stage.Out }
    requires work { IsEmission run.old emission }
    requires stands { Stands run.old }
    requires idle { IsFalse (H.tells shelf.old).is_writing }
    ensures told { (handled : ℕ) (before : Output) → Tells C.counts run.old handled before (output (K.written sink.old) (H.tells shelf.old).written) →
        OnOk result (Tells C.counts run.new handled before (output (K.written sink.new) (H.tells shelf.new).written)) }
    ensures part { (handled : ℕ) (before : Output) → Tells C.counts run.old handled before (output (K.written sink.old) (H.tells shelf.old).written) →
        OnErr result (RanInPart [] run.old.course before (output (K.written sink.new) (H.tells shelf.new).written)) }
    ensures same { OnOk result (run.new.course ≡ run.old.course) }
    ensures next { OnOk result (run.new.stage ≡ Stage.Next) }
    ensures fewer { OnOk result (works_left run.new < works_left run.old) }
    ensures devices { TreatsDevices (K.write_faults sink.old) (K.write_faults sink.new) (H.tells shelf.old) (H.tells shelf.new) (IsErr result) }
    ensures same_rest { K.rest sink.new ≡ K.rest sink.old }
{
    let due = Due {
        mesh: emission.mesh,
        fields: emission.fields,
        checkpoint: emission.checkpoint,
    };
    let told = emit(
        due,
        run.params(),
        run.cycle(),
        run.set(),
        run.blocks(),
        run.ledger(),
        sink,
        shelf,
    );
    run.done_emit();
    let _set = run.set();
    told
}
