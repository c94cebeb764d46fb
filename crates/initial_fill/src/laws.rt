//! Laws about the state that a run begins with.

ghost use Rattle.std.specs.Prelude.{◌≡◌, ℕ, ◌*◌, ◌^◌, ◌<◌, ◌≤◌, length};
ghost use Rattle.block_fields.specs.States.{IsState, total};
ghost use Rattle.params_check.specs.Amounts.{root_amount};
ghost use Rattle.params_check.specs.Parameters.{IsParameters, Parameters, total_of};
ghost use Rattle.initial_fill.specs.RootBlocks.{initial_state};

/// The total of the first state in each field is what the parameters' shapes put into the domain, at most 2^40, and no
/// cell has more.
pub fn initial_totals()
    ensures state { (p : Parameters) → IsParameters p → IsState (initial_state p) }
    ensures total { (p : Parameters) (f : ℕ) → f < length p.fields → total (initial_state p) f ≡ total_of p f }
    ensures most { (p : Parameters) (f : ℕ) → IsParameters p → f < length p.fields → total (initial_state p) f ≤ 2 ^ 40 }
    ensures cell { (p : Parameters) (f x y z : ℕ) → IsParameters p → f < length p.fields → x < p.grid.trees_x * p.block →
        y < p.grid.trees_y * p.block → z < p.grid.trees_z * p.block → root_amount p.shapes f x y z ≤ 2 ^ 40 }
{}
