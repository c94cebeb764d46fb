//! Filling a row of a piece along x from the sender's amounts.
ghost use Rattle.std.specs.Prelude.{◌≡◌, ℕ, ◌+◌, ◌*◌, ◌/◌, ◌%◌, ◌^◌, ◌<◌, ◌≤◌, length, slice_index};
ghost use Rattle.cello_num.specs.Parts.{part};
ghost use Rattle.ghost_pieces.specs.Boxes.{span};
ghost use Rattle.ghost_pieces.specs.Sent.{sent};
ghost use Rattle.ghost_pieces.specs.Lemmas.Parts.{FitsIn, further};
ghost use Rattle.ghost_pieces.specs.Lemmas.Rows.{eight_from};

use crate::axis_parts::Part;
use cello_num::part;

/// Where the coordinate `i` after the first of a part lies in the sender's block.
pub(crate) fn offset_at(part: Part, i: usize) -> usize
    requires start { part.start ≤ 64 }
    requires i { i ≤ 64 }
    ensures offset { result ≡ further part.start part.runs i }
{
    if part.runs {
        part.start + i
    } else {
        part.start
    }
}

/// Copies the amounts of cells of the same level.
fn copy_cells(q: &[u64], first: usize, x: Part, out: &mut [u64], at: usize)
    requires first { first ≤ 65536 }
    requires start { x.start ≤ 64 }
    requires few { x.count ≤ 64 }
    requires room { at + x.count ≤ length out.old }
    requires cells { (i : ℕ) → i < x.count → first + further x.start x.runs i < length q.now }
    ensures row { (i : ℕ) → i < x.count → slice_index out.new (at + i) ≡ slice_index q.now (first + further x.start x.runs i) }
    ensures earlier { (j : ℕ) → j < at → slice_index out.new j ≡ slice_index out.old j }
    ensures long { length out.new ≡ length out.old }
{
    for i in 0..x.count {
        out[at + i] = q[first + offset_at(x, i)];
    }
}

/// Takes parts of the amounts of cells one level coarser. Of a cell's parts the row has that of a number and the next.
fn part_cells(q: &[u64], first: usize, number: u8, x: Part, out: &mut [u64], at: usize)
    requires first { first ≤ 65536 }
    requires number { number ≤ 6 }
    requires start { x.start ≤ 64 }
    requires few { x.count ≤ 64 }
    requires room { at + x.count ≤ length out.old }
    requires cells { (i : ℕ) → i < x.count → first + further x.start x.runs i / 2 < length q.now }
    ensures row { (i : ℕ) → i < x.count → slice_index out.new (at + i) ≡ part (slice_index q.now (first + further x.start x.runs i / 2)) (further x.start x.runs i % 2 + number) }
    ensures earlier { (j : ℕ) → j < at → slice_index out.new j ≡ slice_index out.old j }
    ensures long { length out.new ≡ length out.old }
{
    for i in 0..x.count {
        let offset = offset_at(x, i);
        out[at + i] = part(q[first + offset / 2], (offset % 2) as u8 + number);
    }
}

/// The sum of the eight cells of which the first has a number.
fn eight_from(q: &[u64], n: usize, at: usize) -> u64
    requires n { n ≤ 16 }
    requires within { at + n * n + n + 1 < length q.now }
    requires limit { length q.now ≤ 4096 }
    requires small { (i : ℕ) → slice_index q.now i ≤ 2 ^ 42 }
    ensures sum { result ≡ eight_from n q.now at }
{
    let above = at + n * n;
    let low = q[at] + q[at + 1] + q[at + n] + q[at + n + 1];
    let high = q[above] + q[above + 1] + q[above + n] + q[above + n + 1];
    low + high
}

/// Adds up the amounts of cells one level finer, eight by eight.
fn sum_cells(q: &[u64], n: usize, first: usize, x: Part, out: &mut [u64], at: usize)
    requires n { n ≤ 16 }
    requires first { first ≤ 65536 }
    requires start { x.start ≤ 64 }
    requires few { x.count ≤ 64 }
    requires limit { length q.now ≤ 4096 }
    requires small { (i : ℕ) → slice_index q.now i ≤ 2 ^ 42 }
    requires room { at + x.count ≤ length out.old }
    requires cells { (i : ℕ) → i < x.count → first + 2 * further x.start x.runs i + n * n + n + 1 < length q.now }
    ensures row { (i : ℕ) → i < x.count → slice_index out.new (at + i) ≡ eight_from n q.now (first + 2 * further x.start x.runs i) }
    ensures earlier { (j : ℕ) → j < at → slice_index out.new j ≡ slice_index out.old j }
    ensures long { length out.new ≡ length out.old }
{
    for i in 0..x.count {
        out[at + i] = eight_from(q, n, first + 2 * offset_at(x, i));
    }
}

/// Fills the row at `y` and `z` in the sender's block.
pub(crate) fn fill_row(
    q: &[u64],
    n: usize,
    level: u8,
    from: u8,
    x: Part,
    y: usize,
    z: usize,
    out: &mut [u64],
    at: usize,
)
    requires least { 4 ≤ n }
    requires most { n ≤ 16 }
    requires even { n % 2 ≡ 0 }
    requires all { length q.now ≡ n * n * n }
    requires small { (i : ℕ) → slice_index q.now i ≤ 2 ^ 42 }
    requires near { level ≤ from + 1 }
    requires far { from ≤ level + 1 }
    requires some { 0 < x.count }
    requires x { FitsIn (span n level from) x.start x.runs x.count }
    requires y { y < span n level from }
    requires z { z < span n level from }
    requires room { at + x.count ≤ length out.old }
    ensures row { (i : ℕ) → i < x.count → slice_index out.new (at + i) ≡ sent n level from q.now (record { x = further x.start x.runs i; y = y; z = z }) }
    ensures earlier { (j : ℕ) → j < at → slice_index out.new j ≡ slice_index out.old j }
    ensures long { length out.new ≡ length out.old }
{
    if level == from {
        copy_cells(q, (z * n + y) * n, x, out, at);
    } else if from < level {
        let number = (2 * (y % 2) + 4 * (z % 2)) as u8;
        part_cells(q, (z / 2 * n + y / 2) * n, number, x, out, at);
    } else {
        sum_cells(q, n, (2 * z * n + 2 * y) * n, x, out, at);
    }
}
