//! What holds of the meshes and of the amounts of every run.
ghost use Rattle.std.specs.Prelude.{◌≡◌, ℕ, ◌+◌, ◌^◌, ◌<◌, ◌≤◌, length, slice_index};
ghost use Rattle.block_index.specs.Places.{Cube, IsDomain};
ghost use Rattle.leaf_set.specs.LevelChanges.{Overlap, DifferByAtMostOne};
ghost use Rattle.leaf_set.specs.Meshes.{IsLeaf};
ghost use Rattle.leaf_set.specs.Tiling.{IsTiling};
ghost use Rattle.block_fields.specs.States.{IsState, State, total};
ghost use Rattle.initial_fill.specs.RootBlocks.{initial_state};
ghost use Rattle.params_check.specs.Parameters.{IsParameters, Parameters};
ghost use Rattle.run_core.specs.Courses.{Course, RunState, whole};
ghost use Rattle.run_core.specs.CourseLimits.{IsCourse, KeepsTotals};
ghost use Rattle.run_core.specs.Runs.{Adapts, Runs};

/// After each phase the mesh is a balanced mesh of the parameters' domain, and an adapt phase changes no level by more than
/// one: of a leaf before and a leaf after it, one of which covers the other, the levels differ by at most one.
pub fn every_phase_keeps_a_mesh()
    ensures mesh { (c : Course) (phases : ℕ) (run : RunState) → IsTiling (record { grid = c.parameters.grid; places = c.start.state.leaves }) →
        Runs c phases run → IsTiling (record { grid = c.parameters.grid; places = run.state.leaves }) }
    ensures whole { (p : Parameters) (phases : ℕ) (run : RunState) → IsDomain p.grid → Runs (whole p) phases run →
        IsTiling (record { grid = p.grid; places = run.state.leaves }) }
    ensures levels { (p : Parameters) (phase : ℕ) (before after : State) (a c : Cube) → IsDomain p.grid →
        IsTiling (record { grid = p.grid; places = before.leaves }) → Adapts p phase before after →
        IsLeaf before.leaves a → IsLeaf after.leaves c → Overlap a c → DifferByAtMostOne a c }
{}

/// After each phase the run is in a state of the parameters' domain and sizes. The ledger has its totals, and with what
/// is gone they are those of the initial state, at most 2^40.
pub fn totals_stay()
    ensures keeps { (c : Course) (phases : ℕ) (run : RunState) → IsCourse c → Runs c phases run → KeepsTotals c.parameters run }
    ensures state { (p : Parameters) (phases : ℕ) (run : RunState) → IsParameters p → Runs (whole p) phases run → IsState run.state }
    ensures totals { (p : Parameters) (phases f : ℕ) (run : RunState) → IsParameters p → Runs (whole p) phases run → f < length p.fields →
        slice_index run.ledger.total f ≡ total run.state f }
    ensures together { (p : Parameters) (phases f : ℕ) (run : RunState) → IsParameters p → Runs (whole p) phases run → f < length p.fields →
        total run.state f + slice_index run.ledger.gone f ≡ total (initial_state p) f }
    ensures most { (p : Parameters) (f : ℕ) → IsParameters p → f < length p.fields → total (initial_state p) f ≤ 2 ^ 40 }
{}
