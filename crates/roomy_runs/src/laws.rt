//! What holds of runs with room for as many leaves as there can be.
ghost use Rattle.std.specs.Prelude.{◌≡◌, ℕ, ◌≤◌, false, List, None, Ok};
ghost use Rattle.std.specs.declared.option.Option.{Option};
ghost use Rattle.demo_params.specs.DemoTexts.{demo_text, most_seed, most_size};
ghost use Rattle.params_syntax.specs.declared.tree.Group.{Group};
ghost use Rattle.params_syntax.specs.Reading.{Spells};
ghost use Rattle.params_check.specs.Parameters.{IsParameters, Parameters};
ghost use Rattle.params_check.specs.Walks.{parameters_of};
ghost use Rattle.run_core.specs.declared.fault.RunFault.{RunFault};
ghost use Rattle.run_core.specs.Courses.{RunState, whole};
ghost use Rattle.run_core.specs.Runs.{MeetsNoLimit, RunEnds};
ghost use Rattle.roomy_runs.specs.RoomyRuns.{HasRoom};
ghost use Rattle.roomy_runs.specs.Summaries.{IsSummary};

use demo_params::demo_texts_are_accepted;
use leaf_set::{leaves_of_a_mesh, next_mesh_is_a_mesh};
use params_check::accepted_parameters;
use params_syntax::one_reading;
use run_core::{every_phase_keeps_a_mesh, one_run, run_exists, whole_runs};

/// Where a wish past the finest level ends no run, and there may be as many blocks as there are places of the finest level,
/// no phase of the run passes a limit. There is such a run, and it ends after its last phase.
pub fn roomy_runs_meet_no_limit()
    ensures no_limit { (p : Parameters) → IsParameters p → p.strict ≡ false → HasRoom p → MeetsNoLimit (whole p) }
    ensures ends { (p : Parameters) → IsParameters p → p.strict ≡ false → HasRoom p → (s : RunState) × RunEnds (whole p) s None }
    ensures no_other_end { (p : Parameters) (s : RunState) (limit : Option RunFault) → IsParameters p → p.strict ≡ false → HasRoom p →
        RunEnds (whole p) s limit → limit ≡ None }
{
    every_phase_keeps_a_mesh();
    leaves_of_a_mesh();
    next_mesh_is_a_mesh();
    run_exists();
    whole_runs();
}

/// Each text of the demonstration spells a tree that is accepted. No phase of the run of its parameters passes a limit; there
/// is such a run, and it ends after its last phase.
pub fn demo_runs_meet_no_limit()
    ensures ends { (seed size : ℕ) → seed ≤ most_seed → 1 ≤ size → size ≤ most_size →
        (groups : List Group) × (p : Parameters) × Spells (demo_text seed size) groups × (parameters_of groups ≡ Ok p)
        × MeetsNoLimit (whole p) × ((s : RunState) × RunEnds (whole p) s None) }
    ensures no_limit { (seed size : ℕ) (groups : List Group) (p : Parameters) → seed ≤ most_seed → 1 ≤ size → size ≤ most_size →
        Spells (demo_text seed size) groups → parameters_of groups ≡ Ok p → MeetsNoLimit (whole p) }
    ensures no_other_end { (seed size : ℕ) (groups : List Group) (p : Parameters) (s : RunState) (limit : Option RunFault) →
        seed ≤ most_seed → 1 ≤ size → size ≤ most_size → Spells (demo_text seed size) groups → parameters_of groups ≡ Ok p →
        RunEnds (whole p) s limit → limit ≡ None }
{
    accepted_parameters();
    demo_texts_are_accepted();
    one_reading();
    roomy_runs_meet_no_limit();
}

/// Each demonstration has a summary, and no other.
pub fn each_demo_has_a_summary()
    ensures exists { (seed size : ℕ) → seed ≤ most_seed → 1 ≤ size → size ≤ most_size → (bytes : List ℕ) × IsSummary seed size bytes }
    ensures one { (seed size : ℕ) (bytes others : List ℕ) → IsSummary seed size bytes → IsSummary seed size others → bytes ≡ others }
{
    demo_runs_meet_no_limit();
    one_reading();
    one_run();
}
