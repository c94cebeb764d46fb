//! Rows of cells of which each gives a share to the next row.
ghost use Rattle.std.specs.Prelude.{◌≡◌, ℕ, ◌+◌, ◌-◌, ◌*◌, ◌^◌, ◌<◌, ◌≤◌, length, slice_index, cond};
ghost use Rattle.advect.specs.Lemmas.Shares.{carried};
ghost use Rattle.advect.specs.Lemmas.Passes.{base};

use crate::share::Share;

/// What a cell has from which a pass takes: its amount, or what earlier passes left.
#[inline(always)]
pub(crate) fn base(first: bool, q: u64, left: u64) -> u64
    ensures base { result ≡ cond first q left }
{
    if first { q } else { left }
}

/// Moves a share of each amount of a row to the next row. `faces` holds what comes in, and then what leaves.
pub(crate) fn across_row(
    amounts: &[u64],
    next: &mut [u64],
    faces: &mut [u64],
    at: usize,
    face: usize,
    wide: usize,
    first: bool,
    share: Share,
)
    requires cells { at + wide ≤ length amounts.now }
    requires same { length next.old ≡ length amounts.now }
    requires most { length amounts.now ≤ 4096 }
    requires faces { face + wide ≤ length faces.old }
    requires few { length faces.old ≤ 4096 }
    requires small { (i : ℕ) → i < wide → slice_index amounts.now (at + i) ≤ 2 ^ 42 }
    requires entry { (i : ℕ) → i < wide → slice_index faces.old (face + i) ≤ 2 ^ 42 }
    requires held { (i : ℕ) → i < wide → carried share (slice_index amounts.now (at + i)) ≤ base first amounts.now next.old (at + i) }
    requires fits { (i : ℕ) → i < wide → base first amounts.now next.old (at + i) ≤ 2 ^ 44 }
    ensures moved { (i : ℕ) → i < wide → slice_index next.new (at + i) ≡ base first amounts.now next.old (at + i) - carried share (slice_index amounts.now (at + i)) + slice_index faces.old (face + i) }
    ensures leaves { (i : ℕ) → i < wide → slice_index faces.new (face + i) ≡ carried share (slice_index amounts.now (at + i)) }
    ensures cells_before { (k : ℕ) → k < at → slice_index next.new k ≡ slice_index next.old k }
    ensures cells_after { (k : ℕ) → at + wide ≤ k → slice_index next.new k ≡ slice_index next.old k }
    ensures faces_before { (k : ℕ) → k < face → slice_index faces.new k ≡ slice_index faces.old k }
    ensures faces_after { (k : ℕ) → face + wide ≤ k → slice_index faces.new k ≡ slice_index faces.old k }
{
    for i in 0..wide {
        let q = amounts[at + i];
        let gone = share.of(q);
        next[at + i] = base(first, q, next[at + i]) - gone + faces[face + i];
        faces[face + i] = gone;
    }
}

/// The same for one cell, with what comes in and what leaves as numbers.
#[inline(always)]
pub(crate) fn along_cell(
    amounts: &[u64],
    next: &mut [u64],
    at: usize,
    came: u64,
    first: bool,
    share: Share,
) -> u64
    requires cell { at < length amounts.now }
    requires same { length next.old ≡ length amounts.now }
    requires small { slice_index amounts.now at ≤ 2 ^ 42 }
    requires entry { came ≤ 2 ^ 42 }
    requires held { carried share (slice_index amounts.now at) ≤ base first amounts.now next.old at }
    requires fits { base first amounts.now next.old at ≤ 2 ^ 44 }
    ensures moved { slice_index next.new at ≡ base first amounts.now next.old at - carried share (slice_index amounts.now at) + came }
    ensures leaves { result ≡ carried share (slice_index amounts.now at) }
    ensures small { result ≤ 2 ^ 42 }
    ensures cells_before { (k : ℕ) → k < at → slice_index next.new k ≡ slice_index next.old k }
    ensures cells_after { (k : ℕ) → at + 1 ≤ k → slice_index next.new k ≡ slice_index next.old k }
{
    let q = amounts[at];
    let gone = share.of(q);
    next[at] = base(first, q, next[at]) - gone + came;
    gone
}
