//! What a run writes that goes on from a checkpoint, by what the whole run writes.
ghost use Rattle.std.specs.Prelude.{◌≡◌, ℕ, ◌+◌, ◌≤◌, true, List, ◌∷◌, ◌++◌, Ok, length};
ghost use Rattle.std.specs.declared.option.Option.{Option};
ghost use Rattle.checkpoint.specs.Reading.{AreAccepted, IsCheckpoint};
ghost use Rattle.checkpoint.specs.SavedStates.{SavedState};
ghost use Rattle.checkpoint.specs.Spelling.{bytes_of};
ghost use Rattle.params_check.specs.Parameters.{IsParameters, Parameters};
ghost use Rattle.run_core.specs.declared.fault.RunFault.{RunFault};
ghost use Rattle.run_core.specs.Courses.{RunState, is_due, whole};
ghost use Rattle.run_core.specs.Runs.{RunEnds, Runs};
ghost use Rattle.run_report.specs.Actions.{Action, file, kept_state, run_actions};
ghost use Rattle.run_report.specs.FileNames.{state_name};
ghost use Rattle.restart_laws.specs.Restarts.{GoesOnAlike, rest_of_run};
ghost use Rattle.restart_laws.specs.ResumedRuns.{GoesOnFrom, ResumesAt, WritesBeginning, WritesOnAlike};
ghost use Rattle.restart_laws.specs.Resumes.{StandsFor, fetch_limit, resumed};

use run_report::names_of_their_own;

/// Where the whole run stands after a cycle, another can go on: it ends where the whole run ends, by the same limit or by
/// none, and behind its first lines it writes exactly what the whole run writes after that cycle.
pub fn resumed_runs_agree()
    ensures alike { (p : Parameters) (cycle : ℕ) (here all : RunState) (limit : Option RunFault) → IsParameters p → cycle ≤ p.cycles →
        Runs (whole p) (p.rounds + cycle) here → RunEnds (whole p) all limit → GoesOnAlike p cycle here all limit }
{}

/// What the checkpoint of a cycle keeps of the whole run is where its rest begins.
pub fn checkpoints_go_on()
    ensures rest { (p : Parameters) (cycle : ℕ) (here : RunState) → IsParameters p → Runs (whole p) (p.rounds + cycle) here →
        resumed (kept_state p cycle here.state here.ledger) p.cycles ≡ rest_of_run p cycle here }
{}

/// The bytes of a state that a file may keep are few enough to be fetched whole, so they stand for that state.
pub fn files_are_short()
    ensures short { (s : SavedState) → IsCheckpoint s → length (bytes_of s) ≤ fetch_limit }
    ensures stands { (s : SavedState) → IsCheckpoint s → StandsFor (bytes_of s) (Ok s) }
{}

/// What is kept of the whole run after each cycle is a state that a file may keep, and its bytes stand for it.
pub fn kept_states_read()
    ensures kept { (p : Parameters) (cycle : ℕ) (here : RunState) → AreAccepted p → cycle ≤ p.cycles →
        Runs (whole p) (p.rounds + cycle) here → IsCheckpoint (kept_state p cycle here.state here.ledger) }
    ensures reads { (p : Parameters) (cycle : ℕ) (here : RunState) → AreAccepted p → cycle ≤ p.cycles →
        Runs (whole p) (p.rounds + cycle) here →
        StandsFor (bytes_of (kept_state p cycle here.state here.ledger)) (Ok (kept_state p cycle here.state here.ledger)) }
{}

/// A run that goes on from what is kept of a cycle ends where the whole run ends, by the same limit or by none. Behind its
/// first lines it writes exactly what the whole run writes after that cycle.
pub fn resumed_runs_write_the_rest()
    ensures rest { (p : Parameters) (cycle : ℕ) (here all : RunState) (limit : Option RunFault) → IsParameters p → cycle ≤ p.cycles →
        Runs (whole p) (p.rounds + cycle) here → RunEnds (whole p) all limit → WritesOnAlike p cycle here all limit }
{}

/// Where a checkpoint is due, it is the last that the whole run writes of its cycle. Its bytes stand for a state from which
/// another run writes, behind its first lines, exactly what the whole run writes after them.
pub fn checkpoints_resume()
    ensures resumes { (p : Parameters) (cycle : ℕ) (here all : RunState) (limit : Option RunFault) → AreAccepted p → cycle ≤ p.cycles →
        is_due p.checkpoint_every cycle ≡ true → Runs (whole p) (p.rounds + cycle) here → RunEnds (whole p) all limit →
        ResumesAt p cycle all limit }
{}

/// From the bytes of each checkpoint that the whole run writes another run goes on: it ends where the whole run ends, by the
/// same limit or by none, and behind its first lines it writes exactly what the whole run writes after that file.
pub fn written_checkpoints_resume()
    ensures goes_on { (p : Parameters) (all : RunState) (limit : Option RunFault) (cycle : ℕ) (bytes : List ℕ) (before later : List Action) →
        AreAccepted p → RunEnds (whole p) all limit → cycle ≤ 9999 →
        run_actions p all.told all.state.leaves limit ≡ before ++ file (state_name cycle) bytes ∷ later →
        GoesOnFrom p cycle bytes all limit later }
{
    names_of_their_own();
}

/// Of two runs that go on from one saved state the one that is to end with an earlier cycle writes a beginning of what is
/// told of the other.
pub fn earlier_ends_write_a_beginning()
    ensures begins { (s : SavedState) (until last : ℕ) (part rest : RunState) (stop limit : Option RunFault) → until ≤ last →
        RunEnds (resumed s until) part stop → RunEnds (resumed s last) rest limit → WritesBeginning s.params part rest }
{}
