//! What each command does.
ghost use Rattle.std.specs.Prelude.{◌≡◌, ℕ, ◌≤◌, ◌∷◌, [], List, None, Option, Some, IfOk, IfErr, IsErrOf, IsFalse};
ghost use Rattle.cello_io.specs.Counts.{Rose};
ghost use Rattle.cello_io.specs.Files.{MadeFile};
ghost use Rattle.cello_io.specs.Reads.{LostAtMost};
ghost use Rattle.run_report.specs.Actions.{piece};
ghost use Rattle.run_report.specs.Outputs.{Acted, output};
ghost use Rattle.cello_top.specs.Faults.{CameToWrite};
ghost use Rattle.cello_top.specs.Solo.{read_limit};
ghost use Rattle.cello_top.specs.Lemmas.CommandSteps.{IsOf, call_saw, AnswersRead, CommandEnds, CommandHandles, TreatsDevices};

use crate::engine::run_parameters;
use crate::fault::Fault;
use crate::parameters::read_parameters;
use crate::words::TextCommand;
use cello_io::{Failed, Shelf, Sink, Source, write_all};
use crew::Crew;
use params_check::Params;
use std::alloc::Global;

/// Carries a command out, a run by this crew. It answers how many messages were handled.
pub fn carry_out<C: Crew, S: Source, K: Sink, H: Shelf>(
    alloc: Global,
    crew: &C,
    command: TextCommand,
    source: &mut S,
    sink: &mut K,
    shelf: &mut H,
) -> Result<u64, Fault>
    requires ready { C.ready crew.now }
    requires idle { IsFalse (H.tells shelf.old).is_writing }
    ensures done { (words : List (List ℕ)) → IsOf command words → IfOk result (λ _. AnswersRead words None
        (call_saw (S.left source.old) (S.left source.new) (S.has_ended source.new)
        (output (K.written sink.old) (H.tells shelf.old).written) (output (K.written sink.new) (H.tells shelf.new).written))) }
    ensures ended { (words : List (List ℕ)) → IsOf command words → IfErr result (λ fault. CommandEnds words fault
        (call_saw (S.left source.old) (S.left source.new) (S.has_ended source.new)
        (output (K.written sink.old) (H.tells shelf.old).written) (output (K.written sink.new) (H.tells shelf.new).written))) }
    ensures handled { IfOk result (λ handled.
        CommandHandles C.counts command (S.left source.old) (S.left source.new) (S.has_ended source.new) handled) }
    ensures unwritten { IfErr result (λ fault. (CameToWrite (Some fault) → ⊥) → sink.new ≡ sink.old) }
    ensures unfiled { IfErr result (λ fault. (CameToWrite (Some fault) → ⊥) → shelf.new ≡ shelf.old) }
    ensures check_files { command ≡ TextCommand.Check → shelf.new ≡ shelf.old }
    ensures check_cause { command ≡ TextCommand.Check → IsErrOf result Fault.WriteFault → Rose (K.write_faults sink.old) (K.write_faults sink.new) }
    ensures read_most { LostAtMost read_limit (S.left source.old) (S.left source.new) }
    ensures read_cause { IsErrOf result Fault.ReadFault → Rose (S.read_faults source.old) (S.read_faults source.new) }
    ensures devices { TreatsDevices (K.write_faults sink.old) (K.write_faults sink.new) (H.tells shelf.old) (H.tells shelf.new) (IsErrOf result Fault.WriteFault) }
    ensures same_rest { K.rest sink.new ≡ K.rest sink.old }
    ensures read_faults { S.read_faults source.old ≤ S.read_faults source.new }
{
    let params = read_parameters(alloc, source)?;
    match command {
        TextCommand::Check => write_text(&params, sink),
        TextCommand::Solo => run_parameters(alloc, crew, params, sink, shelf),
    }
}

/// Writes the canonical text. It handles no message.
fn write_text<K: Sink>(params: &Params, sink: &mut K) -> Result<u64, Fault>
    ensures acted { (files : Option (List MadeFile)) →
        Acted (piece params.now.text ∷ []) (output (K.written sink.old) files) (output (K.written sink.new) files) result }
    ensures handled { IfOk result (λ handled. handled ≡ 0) }
    ensures ended { IfErr result (λ fault. fault ≡ Fault.WriteFault) }
    ensures write_cause { IfErr result (λ _. Rose (K.write_faults sink.old) (K.write_faults sink.new)) }
    ensures same_rest { K.rest sink.new ≡ K.rest sink.old }
    ensures write_faults { K.write_faults sink.old ≤ K.write_faults sink.new }
{
    match write_all(sink, params.text()) {
        Ok(()) => Ok(0),
        Err(Failed) => Err(Fault::WriteFault),
    }
}
