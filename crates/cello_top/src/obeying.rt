//! A command that was asked for, by any crew.
ghost use Rattle.std.specs.Prelude.{◌≡◌, ◌⊎◌, ℕ, ◌≤◌, ◌↔◌, List, None, Ok, Some, IsFalse, IfSome};
ghost use Rattle.cello_io.specs.Counts.{Rose};
ghost use Rattle.cello_io.specs.Files.{PastFiles, SamePast};
ghost use Rattle.cello_io.specs.Reads.{LostAtMost};
ghost use Rattle.checkpoint.specs.declared.fault.CheckFault.{CheckFault};
ghost use Rattle.checkpoint.specs.SavedStates.{SavedState};
ghost use Rattle.demo_params.specs.DemoTexts.{demo_text};
ghost use Rattle.params_check.specs.Parameters.{Parameters};
ghost use Rattle.restart_laws.specs.Resumes.{StandsFor, resumed};
ghost use Rattle.run_core.specs.Courses.{whole};
ghost use Rattle.run_core.specs.Runs.{MeetsNoLimit};
ghost use Rattle.run_report.specs.Outputs.{output};
ghost use Rattle.cello_io.specs.Fetching.{OnlyFetched};
ghost use Rattle.cello_top.specs.Words.{IsSolo, IsCheck, IsCommand, IsDemo, IsResume, IsSomeDemo, IsSomeResume, ReadsSource};
ghost use Rattle.cello_top.specs.Texts.{HasParameters};
ghost use Rattle.cello_top.specs.Faults.{IsAnswered, SawText, CameToWrite, status_of};
ghost use Rattle.cello_top.specs.Solo.{ReadOut, Answers, AnswersInPart, HoldBytes, IsFileAtFault, IsInput, IsWithoutFile, KeepsPast, read_limit};
ghost use Rattle.cello_top.specs.Counts.{HandlesBy};
ghost use Rattle.cello_top.specs.Lemmas.CommandSteps.{IsOfCommand};

use crate::commands::carry_out;
use crate::demonstration::demonstrate;
use crate::fault::Fault;
use crate::laws::answer_exists;
use crate::outcome::Outcome;
use crate::resumption::resume;
use crate::words::Command;
use cello_io::{Shelf, Sink, Source};
use checkpoint::one_reading;
use crew::Crew;
use roomy_runs::each_demo_has_a_summary;
use std::alloc::Global;
use std::marker::Brand;

/// The words that a command was asked for by, which contracts name.
pub(crate) trait AskedWords {
    ghost use Rattle.std.specs.Prelude.{ℕ, List};

    ghost words: { List (List ℕ) };
}

impl AskedWords for Brand {
    ghost use Rattle.std.specs.Prelude.{[]};

    ghost words = { [] };
}

/// Does a command, a run by this crew. The type `W` names the words that ask for it; a caller picks them by the words of
/// the call, which are handed in for that alone. The clauses are those of `solo`, but for how many messages were handled:
/// of that they say what the crew knows.
pub(crate) fn obey<W: AskedWords, C: Crew, S: Source, K: Sink, H: Shelf>(
    alloc: Global,
    crew: &C,
    _words: &[String],
    command: Command,
    source: &mut S,
    sink: &mut K,
    shelf: &mut H,
) -> Outcome
    requires ready { C.ready crew.now }
    requires of { IsOfCommand command W.words }
    requires idle { IsFalse (H.tells shelf.old).is_writing }
    ensures answer { (bytes : List ℕ) (past : PastFiles) →
        IsInput W.words (S.left source.old) (H.tells shelf.old).past bytes past → IsAnswered result.fault →
        Answers W.words bytes past result
        (output (K.written sink.old) (H.tells shelf.old).written) (output (K.written sink.new) (H.tells shelf.new).written) }
    ensures part { (bytes : List ℕ) (past : PastFiles) →
        IsInput W.words (S.left source.old) (H.tells shelf.old).past bytes past →
        (IsSomeResume W.words → HoldBytes past) →
        (result.fault ≡ Some Fault.WriteFault) ⊎ (result.fault ≡ Some Fault.Memory) →
        AnswersInPart W.words bytes past
        (output (K.written sink.old) (H.tells shelf.old).written) (output (K.written sink.new) (H.tells shelf.new).written) }
    ensures usage { (result.fault ≡ Some Fault.Usage) ↔ (IsCommand W.words → ⊥) }
    ensures unread { (ReadsSource W.words → ⊥) → source.new ≡ source.old }
    ensures unwritten { (CameToWrite result.fault → ⊥) → sink.new ≡ sink.old }
    ensures unfiled { (IsSomeResume W.words → ⊥) → (CameToWrite result.fault → ⊥) → shelf.new ≡ shelf.old }
    ensures unmade { (CameToWrite result.fault → ⊥) → OnlyFetched (H.tells shelf.old) (H.tells shelf.new) }
    ensures check_files { IsCheck W.words → shelf.new ≡ shelf.old }
    ensures demo_files { IsSomeDemo W.words → shelf.new ≡ shelf.old }
    ensures read_out { ReadsSource W.words → SawText result.fault →
        (bytes : List ℕ) × ReadOut (S.left source.old) (S.left source.new) (S.has_ended source.new) bytes }
    ensures read_most { LostAtMost read_limit (S.left source.old) (S.left source.new) }
    ensures read_cause { (IsSomeResume W.words → ⊥) → result.fault ≡ Some Fault.ReadFault →
        Rose (S.read_faults source.old) (S.read_faults source.new) }
    ensures fetch_cause { IsSomeResume W.words → result.fault ≡ Some Fault.ReadFault →
        Rose (H.tells shelf.old).fetch_faults (H.tells shelf.new).fetch_faults }
    ensures write_cause { result.fault ≡ Some Fault.WriteFault →
        Rose (K.write_faults sink.old) (K.write_faults sink.new) ⊎ Rose (H.tells shelf.old).write_faults (H.tells shelf.new).write_faults }
    ensures check_cause { IsCheck W.words → result.fault ≡ Some Fault.WriteFault →
        Rose (K.write_faults sink.old) (K.write_faults sink.new) }
    ensures demo_cause { IsSomeDemo W.words → result.fault ≡ Some Fault.WriteFault →
        Rose (K.write_faults sink.old) (K.write_faults sink.new) }
    ensures absent_cause { (name : List ℕ) → result.fault ≡ Some (Fault.Absent name) → Rose (H.tells shelf.old).absences (H.tells shelf.new).absences }
    ensures absent_name { (name : List ℕ) → result.fault ≡ Some (Fault.Absent name) → IsWithoutFile W.words (H.tells shelf.old) name }
    ensures file_fault { (fault : CheckFault) → result.fault ≡ Some (Fault.Checkpoint fault) →
        IsFileAtFault W.words (H.tells shelf.old) fault }
    ensures complete { IfSome (S.left source.old) (λ bytes. (p : Parameters) → IsSolo W.words →
        HasParameters bytes p → MeetsNoLimit (whole p) →
        (Rose (S.read_faults source.old) (S.read_faults source.new) → ⊥) →
        (Rose (K.write_faults sink.old) (K.write_faults sink.new) → ⊥) →
        (Rose (H.tells shelf.old).write_faults (H.tells shelf.new).write_faults → ⊥) →
        (result.fault ≡ None) ⊎ (result.fault ≡ Some Fault.Memory)) }
    ensures complete_check { IfSome (S.left source.old) (λ bytes. (p : Parameters) → IsCheck W.words →
        HasParameters bytes p →
        (Rose (S.read_faults source.old) (S.read_faults source.new) → ⊥) →
        (Rose (K.write_faults sink.old) (K.write_faults sink.new) → ⊥) →
        (result.fault ≡ None) ⊎ (result.fault ≡ Some Fault.Memory)) }
    ensures complete_resume { (past : PastFiles) (name file : List ℕ) (until : ℕ) (s : SavedState) → (H.tells shelf.old).past ≡ Some past →
        IsResume W.words name until → past name ≡ Some file → StandsFor file (Ok s) → MeetsNoLimit (resumed s until) →
        (Rose (H.tells shelf.old).fetch_faults (H.tells shelf.new).fetch_faults → ⊥) →
        (Rose (K.write_faults sink.old) (K.write_faults sink.new) → ⊥) →
        (Rose (H.tells shelf.old).write_faults (H.tells shelf.new).write_faults → ⊥) →
        (result.fault ≡ None) ⊎ (result.fault ≡ Some Fault.Memory) }
    ensures complete_demo { IsSomeDemo W.words → (Rose (K.write_faults sink.old) (K.write_faults sink.new) → ⊥) →
        (result.fault ≡ None) ⊎ (result.fault ≡ Some Fault.Memory) }
    ensures status { result.status ≡ status_of result.fault }
    ensures handled { IfSome (S.left source.old) (λ bytes. (p : Parameters) → IsSolo W.words →
        HasParameters bytes p → result.fault ≡ None → HandlesBy C.counts (whole p) result.handled) }
    ensures handled_check { IsCheck W.words → result.handled ≡ 0 }
    ensures handled_resume { (past : PastFiles) (name file : List ℕ) (until : ℕ) (s : SavedState) → (H.tells shelf.old).past ≡ Some past →
        IsResume W.words name until → past name ≡ Some file → StandsFor file (Ok s) → result.fault ≡ None →
        HandlesBy C.counts (resumed s until) result.handled }
    ensures handled_demo { (seed size : ℕ) (p : Parameters) → IsDemo W.words seed size → HasParameters (demo_text seed size) p → result.fault ≡ None →
        HandlesBy C.counts (whole p) result.handled }
    ensures none_handled { (result.fault ≡ None → ⊥) → result.handled ≡ 0 }
    ensures idle { (result.fault ≡ Some Fault.WriteFault → ⊥) → IsFalse (H.tells shelf.new).is_writing }
    ensures past { KeepsPast (H.tells shelf.old) (H.tells shelf.new) }
    ensures same_past { (IsSomeResume W.words → ⊥) → SamePast (H.tells shelf.old) (H.tells shelf.new) }
    ensures same_rest { K.rest sink.new ≡ K.rest sink.old }
    ensures read_faults { S.read_faults source.old ≤ S.read_faults source.new }
    ensures write_faults { K.write_faults sink.old ≤ K.write_faults sink.new }
    ensures shelf_faults { (H.tells shelf.old).write_faults ≤ (H.tells shelf.new).write_faults }
{
    match &command {
        Command::Text(text) => match carry_out(alloc, crew, *text, source, sink, shelf) {
            Ok(handled) => Outcome::done(handled),
            Err(fault) => Outcome::refused(fault),
        },
        Command::Resume { name, until } => {
            one_reading();
            answer_exists();
            match resume(alloc, crew, name, *until, sink, shelf) {
                Ok(handled) => Outcome::done(handled),
                Err(fault) => Outcome::refused(fault),
            }
        }
        Command::Demo { seed, size } => {
            each_demo_has_a_summary();
            match demonstrate(alloc, crew, *seed, *size, sink) {
                Ok(handled) => Outcome::done(handled),
                Err(fault) => Outcome::refused(fault),
            }
        }
    }
}
