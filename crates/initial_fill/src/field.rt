//! The amounts of one field of a root block. Each shape adds its amount to the cells that it holds: within the bounds
//! of its form along z and y, to a stretch of each row along x.
ghost use Rattle.std.specs.Prelude.{◌≡◌, ℕ, ◌+◌, ◌*◌, ◌^◌, ◌<◌, ◌≤◌, length, map, replicate, slice_index};
ghost use Rattle.block_fields.specs.Cells.{cells_of};
ghost use Rattle.params_check.specs.Amounts.{lies_between};
ghost use Rattle.initial_fill.specs.Lemmas.Adding.{Adds, HasRoom, holds_in_rows, holds_number};
ghost use Rattle.initial_fill.specs.RootBlocks.{given_by};

use crate::stretch::{bounds, line_of, part_in};
use block_index::Place;
use params_check::{Params, Shape};

/// Fills a field of the root block at a place, whose amounts are 0.
pub(crate) fn fill_field(params: &Params, field: u8, place: Place, amounts: &mut [u64])
    requires zeros { amounts.old ≡ replicate (params.now.block * params.now.block * params.now.block) 0 }
    ensures { amounts.new ≡ map (given_by params.now field) (cells_of params.now.block place) }
{
    let n = u32::from(params.block());
    for shape in params.shapes().items() {
        if shape.field == field {
            add_shape(*shape, place, n, amounts);
        }
    }
}

/// Adds a shape's amount to the cells of a block of edge `n` that it holds.
fn add_shape(shape: Shape, place: Place, n: u32, amounts: &mut [u64])
    requires some { 4 ≤ n }
    requires most { n ≤ 16 }
    requires cells { length amounts.old ≡ n * n * n }
    requires room { HasRoom n 0 shape.amount amounts.old }
    ensures { Adds (holds_number shape.form n place) shape.amount amounts.old amounts.new }
{
    let planes = part_in(bounds(shape.form, 2), u32::from(place.z()) * n, n);
    for z in planes.low..planes.high {
        add_plane(shape, place, n, z, amounts);
    }
}

/// The same in one plane of the block.
fn add_plane(shape: Shape, place: Place, n: u32, z: u32, amounts: &mut [u64])
    requires some { 4 ≤ n }
    requires most { n ≤ 16 }
    requires z { z < n }
    requires cells { length amounts.old ≡ n * n * n }
    requires room { HasRoom n (z * n) shape.amount amounts.old }
    ensures { Adds (holds_in_rows shape.form n place (z * n) (z * n + n)) shape.amount amounts.old amounts.new }
{
    let rows = part_in(bounds(shape.form, 1), u32::from(place.y()) * n, n);
    for y in rows.low..rows.high {
        add_row(shape, place, n, y, z, amounts);
    }
}

/// The same in one row of a plane.
fn add_row(shape: Shape, place: Place, n: u32, y: u32, z: u32, amounts: &mut [u64])
    requires some { 4 ≤ n }
    requires most { n ≤ 16 }
    requires y { y < n }
    requires z { z < n }
    requires cells { length amounts.old ≡ n * n * n }
    requires room { HasRoom n (z * n + y) shape.amount amounts.old }
    ensures { Adds (holds_in_rows shape.form n place (z * n + y) (z * n + y + 1)) shape.amount amounts.old amounts.new }
{
    let line = line_of(
        shape.form,
        u32::from(place.y()) * n + y,
        u32::from(place.z()) * n + z,
    );
    let cells = part_in(line, u32::from(place.x()) * n, n);
    let start = (z * n + y) * n;
    add_between(
        (start + cells.low) as usize,
        (start + cells.high) as usize,
        shape.amount,
        amounts,
    );
}

/// Adds an amount to the cells from `low` on and below `high`.
fn add_between(low: usize, high: usize, amount: u64, amounts: &mut [u64])
    requires within { high ≤ length amounts.old }
    requires room { (j : ℕ) → low ≤ j → j < high → slice_index amounts.old j + amount < 2 ^ 64 }
    ensures { Adds (lies_between low high) amount amounts.old amounts.new }
{
    for j in low..high {
        amounts[j] += amount;
    }
}
