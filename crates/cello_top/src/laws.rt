//! What holds of every answer, and of every report.
ghost use Rattle.std.specs.Prelude.{◌≡◌, ℕ, ◌≤◌, ◌∷◌, ◌++◌, All, List, Some};
ghost use Rattle.std.specs.declared.option.Option.{Option};
ghost use Rattle.cello_io.specs.Files.{PastFiles};
ghost use Rattle.checkpoint.specs.Reading.{AreAccepted};
ghost use Rattle.params_check.specs.Parameters.{IsParameters, Parameters};
ghost use Rattle.run_core.specs.declared.fault.RunFault.{RunFault};
ghost use Rattle.run_core.specs.Courses.{RunState, whole};
ghost use Rattle.run_core.specs.Runs.{RunEnds};
ghost use Rattle.run_report.specs.Actions.{Action, file};
ghost use Rattle.run_report.specs.FileNames.{state_name};
ghost use Rattle.cello_top.specs.Answers.{Answer, IsAnswer, run_answer};
ghost use Rattle.cello_top.specs.Balances.{TellsBalance};
ghost use Rattle.cello_top.specs.GoneOn.{GoesOnAs};
ghost use Rattle.cello_top.specs.Solo.{HoldBytes};
ghost use Rattle.cello_top.specs.Words.{IsResume, IsSomeResume};

use checkpoint::{each_file_reads, one_reading};
use restart_laws::written_checkpoints_resume;
use roomy_runs::each_demo_has_a_summary;

/// The answer to the same words, bytes and past files is one.
pub fn one_answer()
    ensures one { (words : List (List ℕ)) (bytes : List ℕ) (past : PastFiles) (a b : Answer) → IsAnswer words bytes past a → IsAnswer words bytes past b → a ≡ b }
{
    one_reading();
    each_demo_has_a_summary();
}

/// There is an answer to all words, bytes and past files, where for `resume` the files are lists of bytes.
pub fn answer_exists()
    ensures exists { (words : List (List ℕ)) (bytes : List ℕ) (past : PastFiles) → (IsSomeResume words → HoldBytes past) → (a : Answer) × IsAnswer words bytes past a }
{
    each_file_reads();
    each_demo_has_a_summary();
}

/// In the report of a run, whether a limit ends it or not, each cycle balances: what is there and what is gone of a
/// field are its initial total.
pub fn every_cycle_balances()
    ensures balances { (p : Parameters) (run : RunState) (limit : Option RunFault) → IsParameters p → RunEnds (whole p) run limit → All (TellsBalance p) run.told }
{}

/// Where the answer of a whole run has a checkpoint among its files, and that file is handed to `resume` with the whole
/// run's last cycle, the answer ends as the whole run's does. It writes its first two lines, and then exactly what the
/// whole run's answer has behind that file.
pub fn checkpoints_are_gone_on_from()
    ensures goes_on { (p : Parameters) (all : RunState) (limit : Option RunFault) (cycle : ℕ) (file_bytes : List ℕ) (before later : List Action) →
        AreAccepted p → RunEnds (whole p) all limit → cycle ≤ 9999 →
        (run_answer p all limit).actions ≡ before ++ file (state_name cycle) file_bytes ∷ later →
        (words : List (List ℕ)) (name bytes : List ℕ) (past : PastFiles) (answer : Answer) → IsResume words name p.cycles →
        past name ≡ Some file_bytes → IsAnswer words bytes past answer → GoesOnAs cycle limit later answer }
{
    one_reading();
    each_demo_has_a_summary();
    written_checkpoints_resume();
}
