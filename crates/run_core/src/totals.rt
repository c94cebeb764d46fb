//! The initial totals of a run.
ghost use Rattle.std.specs.Prelude.{◌≡◌, cond, length, nat_lt};
ghost use Rattle.block_fields.specs.States.{total};
ghost use Rattle.initial_fill.specs.RootBlocks.{initial_state};
ghost use Rattle.run_core.specs.Courses.{totals_of};

use params_check::Params;

/// The totals of the initial state, for each of four fields.
pub(crate) fn initial_totals(params: &Params) -> [u64; 4]
    ensures { result ≡ totals_of (initial_state params.now) }
{
    [
        initial_total(params, 0),
        initial_total(params, 1),
        initial_total(params, 2),
        initial_total(params, 3),
    ]
}

/// The initial total of a field, and 0 where there is no such field.
fn initial_total(params: &Params, field: u8) -> u64
    ensures { result ≡ cond (nat_lt field (length params.now.fields)) (total (initial_state params.now) field) 0 }
{
    if (field as usize) < params.fields().items().len() {
        params.initial_total(field)
    } else {
        0
    }
}
