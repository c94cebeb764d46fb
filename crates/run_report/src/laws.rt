//! Laws of names, and of how far writing came.
ghost use Rattle.std.specs.Prelude.{◌≡◌, ◌≤◌, ℕ, List};
ghost use Rattle.cello_io.specs.Writes.{GrewByPart};
ghost use Rattle.run_report.specs.Actions.{Action};
ghost use Rattle.run_report.specs.FileNames.{fields_name, mesh_name, state_name};
ghost use Rattle.run_report.specs.Outputs.{Output, StandsWithin, pieces_bytes};

/// No two files of a run have the same name: neither those of one kind at different cycles, nor those of two kinds.
pub fn names_of_their_own()
    ensures mesh { (a b : ℕ) → a ≤ 9999 → b ≤ 9999 → mesh_name a ≡ mesh_name b → a ≡ b }
    ensures fields { (a b : ℕ) → a ≤ 9999 → b ≤ 9999 → fields_name a ≡ fields_name b → a ≡ b }
    ensures state { (a b : ℕ) → a ≤ 9999 → b ≤ 9999 → state_name a ≡ state_name b → a ≡ b }
    ensures kinds { (a b : ℕ) → (mesh_name a ≡ fields_name b → ⊥) × (fields_name a ≡ state_name b → ⊥) × (state_name a ≡ mesh_name b → ⊥) }
{}

/// However far actions came, the bytes of the sink grew by a beginning of those of all pieces.
pub fn pieces_begin()
    ensures { (actions : List Action) (old new : Output) → StandsWithin actions old new → GrewByPart old.bytes new.bytes (pieces_bytes actions) }
{}
