//! The third walk: what several values must meet together.
ghost use Rattle.std.specs.Prelude.{◌≡◌, ◌+◌, ◌*◌, ◌^◌, ◌≤◌, ◌||◌, pos, [], length, nat_abs, nat_lt, slice_index_or};
ghost use Rattle.std.specs.List.{flat_map, range_with_len};
ghost use Rattle.std.specs.Result.{result_err};
ghost use Rattle.params_check.specs.Lemmas.Firsts.{first_fault};
ghost use Rattle.params_check.specs.Bounds.{greatest_edge, most_blocks, most_cells, most_fields};
ghost use Rattle.params_check.specs.Parameters.{most_amounts, speed, trees};
ghost use Rattle.params_check.specs.Walks.{third_walk, total_faults};

use crate::bounds::{GREATEST_AMOUNT, MOST_CELLS};
use crate::fault::{ParamFault, ParamKind};
use crate::params::Values;
use crate::place::{Place, name};
use crate::totals::initial_total;
use block_index::Domain;
use cello_num::Name;

/// The third walk over the values of a text.
#[tactic(auto, unfolding(crate::specs::Walks::third_walk))]
pub(crate) fn walk_together(values: &Values) -> Result<(), ParamFault>
    requires block { values.now.block ≤ greatest_edge }
    requires few_blocks { values.now.max_blocks ≤ most_blocks }
    ensures fault { first_fault (third_walk values.now) ≡ result_err result }
{
    if is_too_large(values) {
        return Err(Place::of_group(b"Mesh").fault(name(b"max_blocks"), ParamKind::Size));
    }
    if is_too_fast(values) {
        return Err(Place::of_group(b"Method").fault(name(b"velocity"), ParamKind::Courant));
    }
    walk_totals(values)
}

/// Whether there are more trees than blocks, or the blocks hold too many amounts.
fn is_too_large(values: &Values) -> bool
    requires block { values.now.block ≤ greatest_edge }
    requires few_blocks { values.now.max_blocks ≤ most_blocks }
    ensures large { result ≡ (nat_lt values.now.max_blocks (trees values.now) || nat_lt most_cells (most_amounts values.now)) }
{
    let fields = values.fields.items().len() as u64;
    let amounts = values.max_blocks * cell_count(values.block) * 1u64.max(fields);
    tree_count(&values.domain) > values.max_blocks || amounts > MOST_CELLS
}

/// How many trees a domain has.
fn tree_count(domain: &Domain) -> u64
    ensures trees { result ≡ domain.now.trees_x * domain.now.trees_y * domain.now.trees_z }
{
    let [trees_x, trees_y, trees_z] = domain.array();
    u64::from(trees_x) * u64::from(trees_y) * u64::from(trees_z)
}

/// How many cells a block has.
fn cell_count(block: u64) -> u64
    requires small { block ≤ greatest_edge }
    ensures cells { result ≡ block * block * block }
    ensures few { result ≤ 4096 }
{
    block * block * block
}

/// Whether a cell of the finest level could give out more than it has.
fn is_too_fast(values: &Values) -> bool
    ensures fast { result ≡ nat_lt values.now.den (speed values.now * 2 ^ values.now.grid.finest) }
{
    let times = 2u128.pow(u32::from(values.domain.max_level()));
    speed(values.velocity) * times > u128::from(values.den)
}

/// How fast amounts move, all axes together.
fn speed(velocity: [i64; 3]) -> u128
    ensures speed { result ≡ nat_abs (slice_index_or velocity 0 (pos 0)) + nat_abs (slice_index_or velocity 1 (pos 0)) + nat_abs (slice_index_or velocity 2 (pos 0)) }
    ensures low { result ≤ 2 ^ 65 }
{
    let [x, y, z] = velocity;
    u128::from(x.unsigned_abs()) + u128::from(y.unsigned_abs()) + u128::from(z.unsigned_abs())
}

/// The third walk over the totals of all fields.
fn walk_totals(values: &Values) -> Result<(), ParamFault>
    requires block { values.now.block ≤ greatest_edge }
    ensures fault { first_fault (flat_map (total_faults values.now) (range_with_len 0 (length values.now.fields))) ≡ result_err result }
{
    for (i, field_name) in values.fields.items().iter().enumerate() {
        walk_total(values, i as u8, field_name)?;
    }
    Ok(())
}

/// The third walk over the total of a field.
fn walk_total(values: &Values, field: u8, field_name: &Name) -> Result<(), ParamFault>
    requires block { values.now.block ≤ greatest_edge }
    requires name { field_name.now ≡ slice_index_or values.now.fields field [] }
    ensures fault { first_fault (total_faults values.now field) ≡ result_err result }
{
    let shapes = values.shapes.items();
    if initial_total(&values.domain, values.block as u16, shapes, field)
        > u128::from(GREATEST_AMOUNT)
    {
        return Err(Place::of_group(b"Initial").fault(*field_name, ParamKind::TotalTooLarge));
    }
    Ok(())
}
