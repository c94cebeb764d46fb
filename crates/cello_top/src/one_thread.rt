//! The commands on one thread.
ghost use Rattle.std.specs.Prelude.{◌≡◌, ◌⊎◌, ℕ, ◌≤◌, ◌↔◌, List, map, None, Ok, Some, IsFalse, IfSome};
ghost use Rattle.std.specs.String.{string_bytes};
ghost use Rattle.cello_io.specs.Counts.{Rose};
ghost use Rattle.cello_io.specs.Files.{PastFiles, SamePast};
ghost use Rattle.cello_io.specs.Reads.{LostAtMost};
ghost use Rattle.checkpoint.specs.declared.fault.CheckFault.{CheckFault};
ghost use Rattle.checkpoint.specs.SavedStates.{SavedState};
ghost use Rattle.demo_params.specs.DemoTexts.{demo_text};
ghost use Rattle.params_check.specs.Parameters.{Parameters};
ghost use Rattle.restart_laws.specs.Resumes.{StandsFor, resumed};
ghost use Rattle.run_core.specs.Courses.{whole};
ghost use Rattle.run_core.specs.PlainCounts.{HandlesPlainly};
ghost use Rattle.run_core.specs.Runs.{MeetsNoLimit};
ghost use Rattle.run_report.specs.Outputs.{output};
ghost use Rattle.cello_io.specs.Fetching.{OnlyFetched};
ghost use Rattle.cello_top.specs.Words.{IsSolo, IsCheck, IsCommand, IsDemo, IsResume, IsSomeDemo, IsSomeResume, ReadsSource};
ghost use Rattle.cello_top.specs.Texts.{HasParameters};
ghost use Rattle.cello_top.specs.Faults.{IsAnswered, SawText, CameToWrite, status_of};
ghost use Rattle.cello_top.specs.Solo.{ReadOut, Answers, AnswersInPart, HoldBytes, IsFileAtFault, IsInput, IsWithoutFile, KeepsPast, read_limit};

use crate::fault::Fault;
use crate::obeying::obey;
use crate::outcome::Outcome;
use crate::words::command_of;
use cello_io::{Shelf, Sink, Source};
use crew::Alone;
use std::alloc::Global;
use std::marker::Brand;

/// Runs the command of these words on one thread. `solo` reads a parameter text from the source, writes the report of
/// its run to the sink, and makes its files on the shelf. `check` writes the canonical text of the parameters. `resume`
/// fetches a checkpoint from the shelf, and runs on from there as `solo` does. `demo` reads nothing, runs the
/// parameters of a demonstration, and writes the summary of that run.
pub fn solo<S: Source, K: Sink, H: Shelf>(
    alloc: Global,
    words: &[String],
    source: &mut S,
    sink: &mut K,
    shelf: &mut H,
) -> Outcome
    requires idle { IsFalse (H.tells shelf.old).is_writing }
    // The outcome, the new bytes and the new files are those of the answer to the words and to what they ask for, the
    // bytes of the source or the past files, unless a device failed or memory was refused.
    ensures answer { (bytes : List ℕ) (past : PastFiles) →
        IsInput (map string_bytes words.now) (S.left source.old) (H.tells shelf.old).past bytes past → IsAnswered result.fault →
        Answers (map string_bytes words.now) bytes past result
        (output (K.written sink.old) (H.tells shelf.old).written) (output (K.written sink.new) (H.tells shelf.new).written) }
    // Where the sink or the shelf failed or memory was refused, a beginning of what the answer writes is new, or
    // nothing.
    ensures part { (bytes : List ℕ) (past : PastFiles) →
        IsInput (map string_bytes words.now) (S.left source.old) (H.tells shelf.old).past bytes past →
        (IsSomeResume (map string_bytes words.now) → HoldBytes past) →
        (result.fault ≡ Some Fault.WriteFault) ⊎ (result.fault ≡ Some Fault.Memory) →
        AnswersInPart (map string_bytes words.now) bytes past
        (output (K.written sink.old) (H.tells shelf.old).written) (output (K.written sink.new) (H.tells shelf.new).written) }
    // Words outside the set are refused, and then nothing is read or written. `resume` and `demo` don't read the source either.
    ensures usage { (result.fault ≡ Some Fault.Usage) ↔ (IsCommand (map string_bytes words.now) → ⊥) }
    ensures unread { (ReadsSource (map string_bytes words.now) → ⊥) → source.new ≡ source.old }
    // A call that ends before its first piece writes nothing, and makes no file. `check` and `demo` make none at all.
    ensures unwritten { (CameToWrite result.fault → ⊥) → sink.new ≡ sink.old }
    ensures unfiled { (IsSomeResume (map string_bytes words.now) → ⊥) → (CameToWrite result.fault → ⊥) → shelf.new ≡ shelf.old }
    ensures unmade { (CameToWrite result.fault → ⊥) → OnlyFetched (H.tells shelf.old) (H.tells shelf.new) }
    ensures check_files { IsCheck (map string_bytes words.now) → shelf.new ≡ shelf.old }
    ensures demo_files { IsSomeDemo (map string_bytes words.now) → shelf.new ≡ shelf.old }
    // The source was read to its end, or as many bytes as the limit were.
    ensures read_out { ReadsSource (map string_bytes words.now) → SawText result.fault →
        (bytes : List ℕ) × ReadOut (S.left source.old) (S.left source.new) (S.has_ended source.new) bytes }
    // However the call ended, no more bytes of the source than the limit are gone.
    ensures read_most { LostAtMost read_limit (S.left source.old) (S.left source.new) }
    // A device is named only where a count of its faults rose: that of reading for the source, or for `resume` that of
    // fetching, and that of writing for the sink or the shelf.
    ensures read_cause { (IsSomeResume (map string_bytes words.now) → ⊥) → result.fault ≡ Some Fault.ReadFault →
        Rose (S.read_faults source.old) (S.read_faults source.new) }
    ensures fetch_cause { IsSomeResume (map string_bytes words.now) → result.fault ≡ Some Fault.ReadFault →
        Rose (H.tells shelf.old).fetch_faults (H.tells shelf.new).fetch_faults }
    ensures write_cause { result.fault ≡ Some Fault.WriteFault →
        Rose (K.write_faults sink.old) (K.write_faults sink.new) ⊎ Rose (H.tells shelf.old).write_faults (H.tells shelf.new).write_faults }
    ensures check_cause { IsCheck (map string_bytes words.now) → result.fault ≡ Some Fault.WriteFault →
        Rose (K.write_faults sink.old) (K.write_faults sink.new) }
    ensures demo_cause { IsSomeDemo (map string_bytes words.now) → result.fault ≡ Some Fault.WriteFault →
        Rose (K.write_faults sink.old) (K.write_faults sink.new) }
    // A name is absent only where the shelf's count of absences rose and no past file is known by it. A file is at fault
    // only by its first fault.
    ensures absent_cause { (name : List ℕ) → result.fault ≡ Some (Fault.Absent name) → Rose (H.tells shelf.old).absences (H.tells shelf.new).absences }
    ensures absent_name { (name : List ℕ) → result.fault ≡ Some (Fault.Absent name) → IsWithoutFile (map string_bytes words.now) (H.tells shelf.old) name }
    ensures file_fault { (fault : CheckFault) → result.fault ≡ Some (Fault.Checkpoint fault) →
        IsFileAtFault (map string_bytes words.now) (H.tells shelf.old) fault }
    // Where the text has parameters, their run meets no limit, and no device failed, `solo` ends well, or memory was
    // refused. So does `check` for all parameters, and `resume` where the file is a checkpoint and the run that goes on
    // meets no limit. The run of a demonstration never does.
    ensures complete { IfSome (S.left source.old) (λ bytes. (p : Parameters) → IsSolo (map string_bytes words.now) →
        HasParameters bytes p → MeetsNoLimit (whole p) →
        (Rose (S.read_faults source.old) (S.read_faults source.new) → ⊥) →
        (Rose (K.write_faults sink.old) (K.write_faults sink.new) → ⊥) →
        (Rose (H.tells shelf.old).write_faults (H.tells shelf.new).write_faults → ⊥) →
        (result.fault ≡ None) ⊎ (result.fault ≡ Some Fault.Memory)) }
    ensures complete_check { IfSome (S.left source.old) (λ bytes. (p : Parameters) → IsCheck (map string_bytes words.now) →
        HasParameters bytes p →
        (Rose (S.read_faults source.old) (S.read_faults source.new) → ⊥) →
        (Rose (K.write_faults sink.old) (K.write_faults sink.new) → ⊥) →
        (result.fault ≡ None) ⊎ (result.fault ≡ Some Fault.Memory)) }
    ensures complete_resume { (past : PastFiles) (name file : List ℕ) (until : ℕ) (s : SavedState) → (H.tells shelf.old).past ≡ Some past →
        IsResume (map string_bytes words.now) name until → past name ≡ Some file → StandsFor file (Ok s) → MeetsNoLimit (resumed s until) →
        (Rose (H.tells shelf.old).fetch_faults (H.tells shelf.new).fetch_faults → ⊥) →
        (Rose (K.write_faults sink.old) (K.write_faults sink.new) → ⊥) →
        (Rose (H.tells shelf.old).write_faults (H.tells shelf.new).write_faults → ⊥) →
        (result.fault ≡ None) ⊎ (result.fault ≡ Some Fault.Memory) }
    ensures complete_demo { IsSomeDemo (map string_bytes words.now) → (Rose (K.write_faults sink.old) (K.write_faults sink.new) → ⊥) →
        (result.fault ≡ None) ⊎ (result.fault ≡ Some Fault.Memory) }
    ensures status { result.status ≡ status_of result.fault }
    // Where `solo` ends well, it handled as many messages as the phases of the text's run, each where they are
    // delivered first in, first out, and `resume` as those of the run that goes on. `check` handles none, and a call
    // that ends with a fault tells none.
    ensures handled { IfSome (S.left source.old) (λ bytes. (p : Parameters) → IsSolo (map string_bytes words.now) →
        HasParameters bytes p → result.fault ≡ None → HandlesPlainly (whole p) result.handled) }
    ensures handled_check { IsCheck (map string_bytes words.now) → result.handled ≡ 0 }
    ensures handled_resume { (past : PastFiles) (name file : List ℕ) (until : ℕ) (s : SavedState) → (H.tells shelf.old).past ≡ Some past →
        IsResume (map string_bytes words.now) name until → past name ≡ Some file → StandsFor file (Ok s) → result.fault ≡ None →
        HandlesPlainly (resumed s until) result.handled }
    ensures handled_demo { (seed size : ℕ) (p : Parameters) → IsDemo (map string_bytes words.now) seed size → HasParameters (demo_text seed size) p → result.fault ≡ None →
        HandlesPlainly (whole p) result.handled }
    ensures none_handled { (result.fault ≡ None → ⊥) → result.handled ≡ 0 }
    // No file is left open, unless the sink or the shelf failed.
    ensures idle { (result.fault ≡ Some Fault.WriteFault → ⊥) → IsFalse (H.tells shelf.new).is_writing }
    // The files that the shelf was handed in with stay, and none of them is fetched but by `resume`.
    ensures past { KeepsPast (H.tells shelf.old) (H.tells shelf.new) }
    ensures same_past { (IsSomeResume (map string_bytes words.now) → ⊥) → SamePast (H.tells shelf.old) (H.tells shelf.new) }
    ensures same_rest { K.rest sink.new ≡ K.rest sink.old }
    ensures read_faults { S.read_faults source.old ≤ S.read_faults source.new }
    ensures write_faults { K.write_faults sink.old ≤ K.write_faults sink.new }
    ensures shelf_faults { (H.tells shelf.old).write_faults ≤ (H.tells shelf.new).write_faults }
{
    match command_of(words) {
        None => Outcome::refused(Fault::Usage),
        Some(command) => obey::<Brand, Alone, S, K, H>(
            alloc, &Alone, words, command, source, sink, shelf,
        ),
    }
}
