//! Filling the box of a piece of the same level: its cells are copied, in lines as long as can be.
ghost use Rattle.std.specs.Prelude.{◌≡◌, ℕ, ◌+◌, ◌*◌, ◌%◌, ◌^◌, ◌<◌, ◌≤◌, ◌==◌, ◌&&◌, ◌||◌, cond, length, slice_index};
ghost use Rattle.ghost_pieces.specs.Boxes.{span};
ghost use Rattle.ghost_pieces.specs.Lemmas.Fills.{FillsPlane};
ghost use Rattle.ghost_pieces.specs.Lemmas.Parts.{FitsIn, box_amounts};

use crate::axis_parts::Part;
use crate::filled_boxes::fill_planes;
use crate::parts::Parts;

/// How far apart the cells of a part lie in a list where neighbours along its axis lie `apart`.
fn step_along(part: Part, apart: usize) -> usize
    requires apart { apart ≤ 256 }
    ensures step { result ≡ cond part.runs 1 0 * apart }
    ensures short { result ≤ 256 }
{
    if part.runs { apart } else { 0 }
}

/// Copies a line of cells that lie `step` apart.
fn copy_line(q: &[u64], first: usize, step: usize, count: usize, out: &mut [u64], at: usize)
    requires first { first ≤ 1048576 }
    requires step { step ≤ 256 }
    requires few { count ≤ 4096 }
    requires room { at + count ≤ length out.old }
    requires cells { (i : ℕ) → i < count → first + i * step < length q.now }
    ensures line { (i : ℕ) → i < count → slice_index out.new (at + i) ≡ slice_index q.now (first + i * step) }
    ensures earlier { (j : ℕ) → j < at → slice_index out.new j ≡ slice_index out.old j }
    ensures long { length out.new ≡ length out.old }
{
    for i in 0..count {
        out[at + i] = q[first + i * step];
    }
}

/// Copies cells that follow one another.
fn copy_run(q: &[u64], first: usize, count: usize, out: &mut [u64], at: usize)
    requires room { at + count ≤ length out.old }
    requires cells { first + count ≤ length q.now }
    ensures run { (i : ℕ) → i < count → slice_index out.new (at + i) ≡ slice_index q.now (first + i) }
    ensures earlier { (j : ℕ) → j < at → slice_index out.new j ≡ slice_index out.old j }
    ensures long { length out.new ≡ length out.old }
{
    out[at..at + count].copy_from_slice(&q[first..first + count]);
}

/// Copies lines of cells that follow one another. The lines begin `step` apart.
fn copy_lines(q: &[u64], first: usize, step: usize, count: usize, lines: usize, out: &mut [u64])
    requires first { first ≤ 65536 }
    requires step { step ≤ 256 }
    requires some { 0 < count }
    requires few { count ≤ 4096 }
    requires lines { lines ≤ 64 }
    requires room { length out.old ≡ lines * count }
    requires cells { (i j : ℕ) → i < count → j < lines → first + j * step + i < length q.now }
    ensures lines { FillsPlane (λ i j. slice_index q.now (first + j * step + i)) 0 count lines out.old out.new }
{
    for j in 0..lines {
        copy_run(q, first + j * step, count, out, j * count);
    }
}

/// Whether a box is one line of cells along z.
fn is_deep_line(parts: &Parts) -> bool
    ensures line { result ≡ ((parts.now.x.count == 1) && (parts.now.y.count == 1)) }
{
    parts.x.count == 1 && parts.y.count == 1
}

/// Whether the cells of a box are one line along y, in one plane or on through all planes.
fn is_high_line(n: usize, parts: &Parts) -> bool
    ensures line { result ≡ ((parts.now.x.count == 1) && parts.now.y.runs && ((parts.now.z.count == 1) || ((parts.now.y.count == n) && parts.now.z.runs))) }
{
    parts.x.count == 1
        && parts.y.runs
        && (parts.z.count == 1 || (parts.y.count == n && parts.z.runs))
}

/// Whether the rows of a box follow one another in each plane.
fn has_whole_rows(n: usize, parts: &Parts) -> bool
    ensures rows { result ≡ ((parts.now.x.count == n) && parts.now.x.runs && parts.now.y.runs) }
{
    parts.x.count == n && parts.x.runs && parts.y.runs
}

/// Fills the box of a region from the amounts of a sender of the same level.
pub(crate) fn copy_box(q: &[u64], n: usize, level: u8, from: u8, parts: &Parts, out: &mut [u64])
    requires same { level ≡ from }
    requires least { 4 ≤ n }
    requires most { n ≤ 16 }
    requires even { n % 2 ≡ 0 }
    requires all { length q.now ≡ n * n * n }
    requires small { (i : ℕ) → slice_index q.now i ≤ 2 ^ 42 }
    requires some_x { 0 < parts.now.x.count }
    requires some_y { 0 < parts.now.y.count }
    requires some_z { 0 < parts.now.z.count }
    requires x { FitsIn (span n level from) parts.now.x.start parts.now.x.runs parts.now.x.count }
    requires y { FitsIn (span n level from) parts.now.y.start parts.now.y.runs parts.now.y.count }
    requires z { FitsIn (span n level from) parts.now.z.start parts.now.z.runs parts.now.z.count }
    requires size { length out.old ≡ parts.now.z.count * parts.now.y.count * parts.now.x.count }
    ensures box_amounts { out.new ≡ box_amounts n level from q.now parts.now.x.start parts.now.x.runs parts.now.x.count parts.now.y.start parts.now.y.runs parts.now.y.count parts.now.z.start parts.now.z.runs parts.now.z.count }
{
    let Parts { x, y, z } = *parts;
    let first = (z.start * n + y.start) * n + x.start;
    if is_deep_line(parts) {
        copy_line(q, first, step_along(z, n * n), z.count, out, 0);
    } else if is_high_line(n, parts) {
        copy_line(q, first, n, z.count * y.count, out, 0);
    } else if has_whole_rows(n, parts) {
        copy_lines(q, first, step_along(z, n * n), n * y.count, z.count, out);
    } else {
        fill_planes(q, n, level, from, parts, out);
    }
}
