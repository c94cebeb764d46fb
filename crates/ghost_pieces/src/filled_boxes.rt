//! Filling the box of a piece: cells of the same level are copied, others are worked out row by row.
ghost use Rattle.std.specs.Prelude.{◌≡◌, ℕ, ◌+◌, ◌*◌, ◌%◌, ◌^◌, ◌<◌, ◌≤◌, length, slice_index};
ghost use Rattle.ghost_pieces.specs.Boxes.{span};
ghost use Rattle.ghost_pieces.specs.Sent.{sent};
ghost use Rattle.ghost_pieces.specs.Lemmas.Fills.{FillsPlane};
ghost use Rattle.ghost_pieces.specs.Lemmas.Parts.{FitsIn, box_amounts, further};

use crate::axis_parts::Part;
use crate::copied_boxes::copy_box;
use crate::filled_rows::{fill_row, offset_at};
use crate::parts::Parts;

/// Fills the plane at `z` in the sender's block.
fn fill_plane(
    q: &[u64],
    n: usize,
    level: u8,
    from: u8,
    x: Part,
    y: Part,
    z: usize,
    out: &mut [u64],
    at: usize,
)
    requires least { 4 ≤ n }
    requires most { n ≤ 16 }
    requires even { n % 2 ≡ 0 }
    requires all { length q.now ≡ n * n * n }
    requires small { (i : ℕ) → slice_index q.now i ≤ 2 ^ 42 }
    requires near { level ≤ from + 1 }
    requires far { from ≤ level + 1 }
    requires some_x { 0 < x.count }
    requires some_y { 0 < y.count }
    requires x { FitsIn (span n level from) x.start x.runs x.count }
    requires y { FitsIn (span n level from) y.start y.runs y.count }
    requires z { z < span n level from }
    requires at { at ≤ 262144 }
    requires room { (j : ℕ) → j < y.count → at + j * x.count + x.count ≤ length out.old }
    ensures plane { FillsPlane (λ i j. sent n level from q.now (record { x = further x.start x.runs i; y = further y.start y.runs j; z = z })) at x.count y.count out.old out.new }
{
    for j in 0..y.count {
        fill_row(
            q,
            n,
            level,
            from,
            x,
            offset_at(y, j),
            z,
            out,
            at + j * x.count,
        );
    }
}

/// Fills the box of a region from the sender's amounts.
pub(crate) fn fill_box(q: &[u64], n: usize, level: u8, from: u8, parts: &Parts, out: &mut [u64])
    requires least { 4 ≤ n }
    requires most { n ≤ 16 }
    requires even { n % 2 ≡ 0 }
    requires all { length q.now ≡ n * n * n }
    requires small { (i : ℕ) → slice_index q.now i ≤ 2 ^ 42 }
    requires near { level ≤ from + 1 }
    requires far { from ≤ level + 1 }
    requires some_x { 0 < parts.now.x.count }
    requires some_y { 0 < parts.now.y.count }
    requires some_z { 0 < parts.now.z.count }
    requires x { FitsIn (span n level from) parts.now.x.start parts.now.x.runs parts.now.x.count }
    requires y { FitsIn (span n level from) parts.now.y.start parts.now.y.runs parts.now.y.count }
    requires z { FitsIn (span n level from) parts.now.z.start parts.now.z.runs parts.now.z.count }
    requires size { length out.old ≡ parts.now.z.count * parts.now.y.count * parts.now.x.count }
    ensures box_amounts { out.new ≡ box_amounts n level from q.now parts.now.x.start parts.now.x.runs parts.now.x.count parts.now.y.start parts.now.y.runs parts.now.y.count parts.now.z.start parts.now.z.runs parts.now.z.count }
{
    if level == from {
        copy_box(q, n, level, from, parts, out);
    } else {
        fill_planes(q, n, level, from, parts, out);
    }
}

/// Fills the box of a region plane by plane.
pub(crate) fn fill_planes(q: &[u64], n: usize, level: u8, from: u8, parts: &Parts, out: &mut [u64])
    requires least { 4 ≤ n }
    requires most { n ≤ 16 }
    requires even { n % 2 ≡ 0 }
    requires all { length q.now ≡ n * n * n }
    requires small { (i : ℕ) → slice_index q.now i ≤ 2 ^ 42 }
    requires near { level ≤ from + 1 }
    requires far { from ≤ level + 1 }
    requires some_x { 0 < parts.now.x.count }
    requires some_y { 0 < parts.now.y.count }
    requires some_z { 0 < parts.now.z.count }
    requires x { FitsIn (span n level from) parts.now.x.start parts.now.x.runs parts.now.x.count }
    requires y { FitsIn (span n level from) parts.now.y.start parts.now.y.runs parts.now.y.count }
    requires z { FitsIn (span n level from) parts.now.z.start parts.now.z.runs parts.now.z.count }
    requires size { length out.old ≡ parts.now.z.count * parts.now.y.count * parts.now.x.count }
    ensures box_amounts { out.new ≡ box_amounts n level from q.now parts.now.x.start parts.now.x.runs parts.now.x.count parts.now.y.start parts.now.y.runs parts.now.y.count parts.now.z.start parts.now.z.runs parts.now.z.count }
{
    let Parts { x, y, z } = *parts;
    for k in 0..z.count {
        fill_plane(
            q,
            n,
            level,
            from,
            x,
            y,
            offset_at(z, k),
            out,
            k * y.count * x.count,
        );
    }
}
