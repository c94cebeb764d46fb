//! The run that goes on from a checkpoint.
ghost use Rattle.std.specs.Prelude.{◌≡◌, ◌≤◌, ℕ, [], IfOk, IfErr, IsErrOf, IsFalse, List, None, Ok, Some, length};
ghost use Rattle.cello_io.specs.Counts.{Rose};
ghost use Rattle.checkpoint.specs.Reading.{ReadsAs};
ghost use Rattle.checkpoint.specs.SavedStates.{SavedState};
ghost use Rattle.params_check.specs.Bounds.{most_cycles};
ghost use Rattle.run_core.specs.Courses.{going_on, run_state};
ghost use Rattle.run_core.specs.Runs.{blocks_state};
ghost use Rattle.run_report.specs.Actions.{restart_pieces};
ghost use Rattle.run_report.specs.Outputs.{output};
ghost use Rattle.restart_laws.specs.Resumes.{fetch_limit, resumed};
ghost use Rattle.cello_top.specs.Faults.{CameToWrite};
ghost use Rattle.cello_io.specs.Fetching.{HasFetched, OnlyFetched};
ghost use Rattle.cello_top.specs.Lemmas.CommandSteps.{KeepsDevices, RanWhole, RunningEnds, TreatsDevices};
ghost use Rattle.cello_top.specs.Lemmas.Resuming.{FetchingEnds, GoesOnFrom, ResumeDone, ResumeEnds, ResumingEnds};

use crate::engine::report_rest;
use crate::fault::Fault;
use amount_ledger::Ledger;
use cello_io::{FetchError, Shelf, Sink, fetch_all};
use cello_num::Name;
use checkpoint::{CheckFault, State, read};
use crew::Crew;
use run_core::{Run, Start};
use std::alloc::Global;
use std::marker::{Brand, PhantomData};

/// How many bytes of a file are fetched at most.
const FETCH_LIMIT: usize = 1 << 30;

/// A state from which a run goes on, which contracts name.
pub(crate) trait Restart {
    ghost use Rattle.run_core.specs.Courses.{RunState};

    ghost from: { RunState };
}

impl Restart for Brand {
    ghost use Rattle.cello_top.specs.Lemmas.Resuming.{nowhere};

    ghost from = { nowhere };
}

/// Where a run starts that goes on from such a state.
pub(crate) struct GoesOn<R: Restart> {
    of: PhantomData<R>,
}

impl<R: Restart> Start for GoesOn<R> {
    ghost use Rattle.std.specs.Prelude.{Some};

    ghost start = { Some R.from };
}

/// Goes on from the checkpoint in the past file of this name, up to cycle `until`, and writes what is told of the run as
/// soon as it is known. It answers how many messages were handled.
pub(crate) fn resume<C: Crew, K: Sink, H: Shelf>(
    alloc: Global,
    crew: &C,
    name: &Name,
    until: u32,
    sink: &mut K,
    shelf: &mut H,
) -> Result<u64, Fault>
    requires ready { C.ready crew.now }
    requires until { until ≤ most_cycles }
    requires idle { IsFalse (H.tells shelf.old).is_writing }
    ensures done { IfOk result (ResumeDone C.counts name.now until (H.tells shelf.old)
        (output (K.written sink.old) (H.tells shelf.old).written) (output (K.written sink.new) (H.tells shelf.new).written)) }
    ensures ended { IfErr result (ResumeEnds name.now until (H.tells shelf.old)
        (output (K.written sink.old) (H.tells shelf.old).written) (output (K.written sink.new) (H.tells shelf.new).written)) }
    ensures unwritten { IfErr result (λ fault. (CameToWrite (Some fault) → ⊥) → sink.new ≡ sink.old) }
    ensures unmade { IfErr result (λ fault. (CameToWrite (Some fault) → ⊥) → OnlyFetched (H.tells shelf.old) (H.tells shelf.new)) }
    ensures fetch_cause { IsErrOf result Fault.ReadFault → Rose (H.tells shelf.old).fetch_faults (H.tells shelf.new).fetch_faults }
    ensures absent_cause { (absent : List ℕ) → IsErrOf result (Fault.Absent absent) → Rose (H.tells shelf.old).absences (H.tells shelf.new).absences }
    ensures devices { KeepsDevices (K.write_faults sink.old) (K.write_faults sink.new) (H.tells shelf.old) (H.tells shelf.new) (IsErrOf result Fault.WriteFault) }
    ensures same_rest { K.rest sink.new ≡ K.rest sink.old }
{
    match fetch_file(alloc, name, shelf) {
        Ok(bytes) => resume_bytes(alloc, crew, &bytes, until, sink, shelf),
        Err(fault) => Err(fault),
    }
}

/// Fetches the past file of this name, or as many bytes of it as the limit.
fn fetch_file<H: Shelf>(alloc: Global, name: &Name, shelf: &mut H) -> Result<Vec<u8>, Fault>
    ensures fetched { IfOk result (λ bytes. HasFetched name.now fetch_limit bytes.items (H.tells shelf.old)) }
    ensures ended { IfErr result (FetchingEnds name.now (H.tells shelf.old)) }
    ensures only { OnlyFetched (H.tells shelf.old) (H.tells shelf.new) }
    ensures fetch_cause { IsErrOf result Fault.ReadFault → Rose (H.tells shelf.old).fetch_faults (H.tells shelf.new).fetch_faults }
    ensures absent_cause { (absent : List ℕ) → IsErrOf result (Fault.Absent absent) → Rose (H.tells shelf.old).absences (H.tells shelf.new).absences }
{
    match fetch_all(alloc, shelf, *name, FETCH_LIMIT) {
        Ok(bytes) => Ok(bytes),
        Err(FetchError::Failed) => Err(Fault::ReadFault),
        Err(FetchError::Absent) => Err(Fault::Absent { name: *name }),
        Err(FetchError::Memory) => Err(Fault::Memory),
    }
}

/// Goes on from the state of which the bytes are the checkpoint.
fn resume_bytes<C: Crew, K: Sink, H: Shelf>(
    alloc: Global,
    crew: &C,
    bytes: &[u8],
    until: u32,
    sink: &mut K,
    shelf: &mut H,
) -> Result<u64, Fault>
    requires ready { C.ready crew.now }
    requires until { until ≤ most_cycles }
    requires idle { IsFalse (H.tells shelf.old).is_writing }
    ensures whole { IfOk result (λ handled. (s : SavedState) × ReadsAs bytes.now (Ok s) ×
        RanWhole C.counts (restart_pieces s.cycle (length s.places)) (resumed s until) handled
        (output (K.written sink.old) (H.tells shelf.old).written) (output (K.written sink.new) (H.tells shelf.new).written)) }
    ensures ended { IfErr result (ResumingEnds bytes.now until
        (output (K.written sink.old) (H.tells shelf.old).written) (output (K.written sink.new) (H.tells shelf.new).written)) }
    ensures unwritten { IfErr result (λ fault. (CameToWrite (Some fault) → ⊥) → sink.new ≡ sink.old) }
    ensures unmade { IfErr result (λ fault. (CameToWrite (Some fault) → ⊥) → H.tells shelf.new ≡ H.tells shelf.old) }
    ensures devices { TreatsDevices (K.write_faults sink.old) (K.write_faults sink.new) (H.tells shelf.old) (H.tells shelf.new) (IsErrOf result Fault.WriteFault) }
    ensures same_rest { K.rest sink.new ≡ K.rest sink.old }
{
    match read(alloc, bytes) {
        Ok(state) => {
            four_each(&state.ledger);
            resume_state(alloc, crew, state, until, sink, shelf)
        }
        Err(fault) => Err(fault_of_file(fault)),
    }
}

/// A ledger has four numbers of what is there, and four of what is gone.
fn four_each(ledger: &Ledger)
    ensures total { length ledger.now.total ≡ 4 }
    ensures gone { length ledger.now.gone ≡ 4 }
{
    let _total = ledger.total();
    let _gone = ledger.gone();
}

/// The fault of a call that was answered so when it read a file.
fn fault_of_file(fault: CheckFault) -> Fault
    ensures memory { fault ≡ CheckFault.Memory → result ≡ Fault.Memory }
    ensures other { (fault ≡ CheckFault.Memory → ⊥) → result ≡ Fault.Checkpoint fault }
{
    match fault {
        CheckFault::Memory => Fault::Memory,
        _ => Fault::Checkpoint(fault),
    }
}

/// Goes on from a state.
fn resume_state<C: Crew, K: Sink, H: Shelf>(
    alloc: Global,
    crew: &C,
    state: State,
    until: u32,
    sink: &mut K,
    shelf: &mut H,
) -> Result<u64, Fault>
    requires ready { C.ready crew.now }
    requires from { GoesOnFrom state.params state.cycle state.set state.blocks.items state.ledger }
    requires until { until ≤ most_cycles }
    requires idle { IsFalse (H.tells shelf.old).is_writing }
    ensures whole { IfOk result (λ handled. RanWhole C.counts (restart_pieces state.cycle (length state.set.places))
        (going_on state.params state.cycle (blocks_state state.params state.blocks.items) state.ledger.gone until) handled
        (output (K.written sink.old) (H.tells shelf.old).written) (output (K.written sink.new) (H.tells shelf.new).written)) }
    ensures ended { IfErr result (RunningEnds (restart_pieces state.cycle (length state.set.places))
        (going_on state.params state.cycle (blocks_state state.params state.blocks.items) state.ledger.gone until)
        (output (K.written sink.old) (H.tells shelf.old).written) (output (K.written sink.new) (H.tells shelf.new).written)) }
    ensures devices { TreatsDevices (K.write_faults sink.old) (K.write_faults sink.new) (H.tells shelf.old) (H.tells shelf.new) (IsErrOf result Fault.WriteFault) }
    ensures same_rest { K.rest sink.new ≡ K.rest sink.old }
{
    go_on::<Brand, C, K, H>(alloc, crew, state, until, sink, shelf)
}

/// Goes on from a state, which the type `R` names.
fn go_on<R: Restart, C: Crew, K: Sink, H: Shelf>(
    alloc: Global,
    crew: &C,
    state: State,
    until: u32,
    sink: &mut K,
    shelf: &mut H,
) -> Result<u64, Fault>
    requires ready { C.ready crew.now }
    requires start { R.from ≡ run_state (blocks_state state.params state.blocks.items) state.ledger [] }
    requires from { GoesOnFrom state.params state.cycle state.set state.blocks.items state.ledger }
    requires until { until ≤ most_cycles }
    requires idle { IsFalse (H.tells shelf.old).is_writing }
    ensures whole { IfOk result (λ handled. RanWhole C.counts (restart_pieces state.cycle (length state.set.places))
        (going_on state.params state.cycle (blocks_state state.params state.blocks.items) state.ledger.gone until) handled
        (output (K.written sink.old) (H.tells shelf.old).written) (output (K.written sink.new) (H.tells shelf.new).written)) }
    ensures ended { IfErr result (RunningEnds (restart_pieces state.cycle (length state.set.places))
        (going_on state.params state.cycle (blocks_state state.params state.blocks.items) state.ledger.gone until)
        (output (K.written sink.old) (H.tells shelf.old).written) (output (K.written sink.new) (H.tells shelf.new).written)) }
    ensures devices { TreatsDevices (K.write_faults sink.old) (K.write_faults sink.new) (H.tells shelf.old) (H.tells shelf.new) (IsErrOf result Fault.WriteFault) }
    ensures same_rest { K.rest sink.new ≡ K.rest sink.old }
{
    let _limits = state.params.domain();
    let State {
        params,
        cycle,
        set,
        blocks,
        ledger,
    } = state;
    let leaves = set.len() as u32;
    let run = Run::<GoesOn<R>>::resume(alloc, params, cycle, set, blocks, ledger, until);
    report_rest(alloc, crew, run, cycle, leaves, sink, shelf)
}
