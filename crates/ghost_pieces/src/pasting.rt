//! Writing a box of a list of ghosts, row by row along x.
ghost use Rattle.std.specs.Prelude.{◌≡◌, ℕ, ◌+◌, ◌*◌, ◌<◌, ◌≤◌, ◌⊎◌, ◌==◌, ◌&&◌, length, slice_index};
ghost use Rattle.ghost_pieces.specs.Filing.{pasted};
ghost use Rattle.ghost_pieces.specs.Lemmas.Rows.{IsPasted, IsPlane, box_of_runs};

use crate::spots::Spot;

/// Writes a row.
fn paste_row(list: &mut [u64], at: usize, amounts: &[u64], from: usize, count: usize)
    requires at { at + count ≤ length list.old }
    requires from { from + count ≤ length amounts.now }
    ensures row { (i : ℕ) → i < count → slice_index list.new (at + i) ≡ slice_index amounts.now (from + i) }
    ensures kept { (i : ℕ) → (i < at) ⊎ (at + count ≤ i) → slice_index list.new i ≡ slice_index list.old i }
    ensures long { length list.new ≡ length list.old }
{
    for i in 0..count {
        list[at + i] = amounts[from + i];
    }
}

/// Writes so many rows of a plane, whose rows begin `wide` apart.
fn paste_plane(
    list: &mut [u64],
    at: usize,
    wide: usize,
    amounts: &[u64],
    from: usize,
    rows: usize,
    count: usize,
)
    requires narrow { count ≤ wide }
    requires wide { wide ≤ 16 }
    requires rows { rows ≤ 16 }
    requires limit { at ≤ 65536 }
    requires limit_from { from ≤ 65536 }
    requires at { (y : ℕ) → y < rows → at + y * wide + count ≤ length list.old }
    requires from { (y : ℕ) → y < rows → from + y * count + count ≤ length amounts.now }
    ensures plane { IsPlane at wide from rows count amounts.now list.old list.new }
{
    for y in 0..rows {
        paste_row(list, at + y * wide, amounts, from + y * count, count);
    }
}

/// Whether a box is all of its list.
fn is_whole(spot: &Spot) -> bool
    ensures whole { result ≡ ((spot.now.x.count == spot.now.x.length) && (spot.now.y.count == spot.now.y.length) && (spot.now.z.count == spot.now.z.length)) }
{
    spot.x.count == spot.x.length && spot.y.count == spot.y.length && spot.z.count == spot.z.length
}

/// Writes a box of a list: its cells become the amounts in order.
pub(crate) fn paste(list: &mut [u64], spot: &Spot, amounts: &[u64])
    requires x { spot.now.x.first + spot.now.x.count ≤ spot.now.x.length }
    requires y { spot.now.y.first + spot.now.y.count ≤ spot.now.y.length }
    requires z { spot.now.z.first + spot.now.z.count ≤ spot.now.z.length }
    requires some_x { 0 < spot.now.x.count }
    requires some_y { 0 < spot.now.y.count }
    requires short_x { spot.now.x.length ≤ 16 }
    requires short_y { spot.now.y.length ≤ 16 }
    requires short_z { spot.now.z.length ≤ 16 }
    requires list { length list.old ≡ spot.now.z.length * spot.now.y.length * spot.now.x.length }
    requires amounts { length amounts.now ≡ spot.now.z.count * spot.now.y.count * spot.now.x.count }
    ensures pasted { list.new ≡ pasted spot.now.x.length spot.now.y.length (box_of_runs spot.now.x.first spot.now.x.count spot.now.y.first spot.now.y.count spot.now.z.first spot.now.z.count) amounts.now list.old }
{
    if is_whole(spot) {
        list.copy_from_slice(amounts);
    } else {
        paste_planes(list, spot, amounts);
    }
}

/// Writes a box of a list plane by plane.
fn paste_planes(list: &mut [u64], spot: &Spot, amounts: &[u64])
    requires x { spot.now.x.first + spot.now.x.count ≤ spot.now.x.length }
    requires y { spot.now.y.first + spot.now.y.count ≤ spot.now.y.length }
    requires z { spot.now.z.first + spot.now.z.count ≤ spot.now.z.length }
    requires some_x { 0 < spot.now.x.count }
    requires some_y { 0 < spot.now.y.count }
    requires short_x { spot.now.x.length ≤ 16 }
    requires short_y { spot.now.y.length ≤ 16 }
    requires short_z { spot.now.z.length ≤ 16 }
    requires list { length list.old ≡ spot.now.z.length * spot.now.y.length * spot.now.x.length }
    requires amounts { length amounts.now ≡ spot.now.z.count * spot.now.y.count * spot.now.x.count }
    ensures pasted { IsPasted spot.now.x.length spot.now.y.length (box_of_runs spot.now.x.first spot.now.x.count spot.now.y.first spot.now.y.count spot.now.z.first spot.now.z.count) amounts.now list.old list.new }
{
    let Spot { x, y, z } = *spot;
    for k in 0..z.count {
        let at = ((z.first + k) * y.length + y.first) * x.length + x.first;
        paste_plane(
            list,
            at,
            x.length,
            amounts,
            k * y.count * x.count,
            y.count,
            x.count,
        );
    }
}
