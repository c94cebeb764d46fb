//! The greatest and the least of three, along rows.
ghost use Rattle.std.specs.Prelude.{◌≡◌, ℕ, ◌<◌, ◌≤◌, max, min, slice_index};

use crate::row::LONGEST;

/// Position by position the greatest of three rows of a width.
pub(crate) fn greatest_of(
    a: &[u64; LONGEST],
    b: &[u64; LONGEST],
    c: &[u64; LONGEST],
    width: usize,
) -> [u64; LONGEST]
    requires most { width ≤ 18 }
    ensures greatest { (x : ℕ) → x < width → slice_index result x ≡ max (slice_index a.now x) (max (slice_index b.now x) (slice_index c.now x)) }
{
    let mut all = [0; LONGEST];
    for x in 0..width {
        all[x] = a[x].max(b[x].max(c[x]));
    }
    all
}

/// Position by position the least of three rows of a width.
pub(crate) fn least_of(
    a: &[u64; LONGEST],
    b: &[u64; LONGEST],
    c: &[u64; LONGEST],
    width: usize,
) -> [u64; LONGEST]
    requires most { width ≤ 18 }
    ensures least { (x : ℕ) → x < width → slice_index result x ≡ min (slice_index a.now x) (min (slice_index b.now x) (slice_index c.now x)) }
{
    let mut all = [0; LONGEST];
    for x in 0..width {
        all[x] = a[x].min(b[x].min(c[x]));
    }
    all
}
