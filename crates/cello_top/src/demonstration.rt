//! The demonstration: a run of which a summary alone is written.
ghost use Rattle.std.specs.Prelude.{◌≡◌, ℕ, ◌≤◌, IfOk, IfErr, IsErrOf, List, Option};
ghost use Rattle.cello_io.specs.Counts.{Rose};
ghost use Rattle.cello_io.specs.Files.{MadeFile};
ghost use Rattle.demo_params.specs.DemoTexts.{demo_text, most_seed, most_size};
ghost use Rattle.run_report.specs.Outputs.{output};
ghost use Rattle.cello_top.specs.Lemmas.Demonstrating.{DemoDone, DemoEnds};
ghost use Rattle.cello_top.specs.Texts.{HasParameters};

use crate::fault::Fault;
use crate::parameters::parameters_of;
use crate::quiet_run::run_quietly;
use crate::summary::summary;
use cello_io::{Failed, Sink, write_all};
use cello_num::Memory;
use crew::Crew;
use demo_params::demo_params;
use params_check::Params;
use roomy_runs::demo_runs_meet_no_limit;
use run_core::Run;
use std::alloc::Global;

/// Runs the parameters of the demonstration of a seed and a size, and writes the summary of that run. It answers how many
/// messages were handled.
pub(crate) fn demonstrate<C: Crew, K: Sink>(
    alloc: Global,
    crew: &C,
    seed: u32,
    size: u32,
    sink: &mut K,
) -> Result<u64, Fault>
    requires ready { C.ready crew.now }
    requires seed { seed ≤ most_seed }
    requires some { 1 ≤ size }
    requires few { size ≤ most_size }
    ensures done { (files : Option (List MadeFile)) →
        IfOk result (DemoDone C.counts seed size (output (K.written sink.old) files) (output (K.written sink.new) files)) }
    ensures ended { (files : Option (List MadeFile)) →
        IfErr result (DemoEnds seed size (output (K.written sink.old) files) (output (K.written sink.new) files)) }
    ensures write_cause { IsErrOf result Fault.WriteFault → Rose (K.write_faults sink.old) (K.write_faults sink.new) }
    ensures same_rest { K.rest sink.new ≡ K.rest sink.old }
    ensures write_faults { K.write_faults sink.old ≤ K.write_faults sink.new }
{
    match demo_parameters(alloc, seed, size) {
        Ok(params) => demonstrate_run(alloc, crew, seed, size, params, sink),
        Err(fault) => Err(fault),
    }
}

/// The parameters of a demonstration. Its text has no fault.
fn demo_parameters(alloc: Global, seed: u32, size: u32) -> Result<Params, Fault>
    requires seed { seed ≤ most_seed }
    requires some { 1 ≤ size }
    requires few { size ≤ most_size }
    ensures found { IfOk result (λ p. HasParameters (demo_text seed size) p) }
    ensures ended { IfErr result (λ fault. fault ≡ Fault.Memory) }
{
    demo_runs_meet_no_limit();
    match demo_params(alloc, seed, size) {
        Ok(text) => parameters_of(alloc, &text),
        Err(Memory) => Err(Fault::Memory),
    }
}

/// Runs the parameters of a demonstration, and writes the summary of that run.
fn demonstrate_run<C: Crew, K: Sink>(
    alloc: Global,
    crew: &C,
    seed: u32,
    size: u32,
    params: Params,
    sink: &mut K,
) -> Result<u64, Fault>
    requires ready { C.ready crew.now }
    requires seed { seed ≤ most_seed }
    requires some { 1 ≤ size }
    requires few { size ≤ most_size }
    requires has { HasParameters (demo_text seed size) params }
    ensures done { (files : Option (List MadeFile)) →
        IfOk result (DemoDone C.counts seed size (output (K.written sink.old) files) (output (K.written sink.new) files)) }
    ensures ended { (files : Option (List MadeFile)) →
        IfErr result (DemoEnds seed size (output (K.written sink.old) files) (output (K.written sink.new) files)) }
    ensures write_cause { IsErrOf result Fault.WriteFault → Rose (K.write_faults sink.old) (K.write_faults sink.new) }
    ensures same_rest { K.rest sink.new ≡ K.rest sink.old }
    ensures write_faults { K.write_faults sink.old ≤ K.write_faults sink.new }
{
    demo_runs_meet_no_limit();
    let _limits = params.domain();
    let mut run = match Run::begin(alloc, params) {
        Ok(run) => run,
        Err(Memory) => return Err(Fault::Memory),
    };
    let handled = match run_quietly(alloc, crew, &mut run) {
        Ok(handled) => handled,
        Err(fault) => return Err(Fault::from(fault)),
    };
    let leaves = run.set().len() as u32;
    let text = summary(seed, size, run.params(), leaves, run.ledger());
    match write_all(sink, text.bytes()) {
        Ok(()) => Ok(handled),
        Err(Failed) => Err(Fault::WriteFault),
    }
}
