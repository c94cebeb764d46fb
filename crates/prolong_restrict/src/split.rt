//! The parts that the cells of a child get of its parent's.
ghost use Rattle.std.specs.Prelude.{◌≡◌, ℕ, ◌+◌, ◌*◌, ◌/◌, ◌%◌, ◌<◌, ◌≤◌, length, slice_index};
ghost use Rattle.cello_num.specs.Parts.{part};
ghost use Rattle.prolong_restrict.specs.Lemmas.SplitNumbers.{row_above, row_part, split_list};

use cello_num::part;

/// Fills a field of child `k`, row by row along x.
pub(crate) fn split_field(parent: &[u64], k: u8, n: usize, child: &mut [u64])
    requires even { n % 2 ≡ 0 }
    requires least { 4 ≤ n }
    requires most { n ≤ 16 }
    requires k { k < 8 }
    requires parent { length parent.now ≡ n * n * n }
    requires child { length child.old ≡ n * n * n }
    ensures { child.new ≡ split_list n k parent.now }
{
    for r in 0..n * n {
        let above = row_above(n, k, r);
        let first = row_part(n, r);
        split_row(parent, above, first, child, r * n, n / 2);
    }
}

/// The number of the parent's cell that holds the first cells of row `r` of child `k`.
fn row_above(n: usize, k: u8, r: usize) -> usize
    requires even { n % 2 ≡ 0 }
    requires least { 4 ≤ n }
    requires most { n ≤ 16 }
    requires k { k < 8 }
    requires r { r < n * n }
    ensures number { result ≡ row_above n k r }
    ensures within { result + n / 2 ≤ n * n * n }
{
    let k = k as usize;
    let y = (k / 2 % 2 * n + r % n) / 2;
    let z = (k / 4 * n + r / n) / 2;
    (z * n + y) * n + k % 2 * (n / 2)
}

/// Which part of the parent's cell the first cell of row `r` is.
fn row_part(n: usize, r: usize) -> u8
    requires some { 4 ≤ n }
    ensures number { result ≡ row_part n r }
    ensures below { result < 7 }
{
    (2 * (r % n % 2) + 4 * (r / n % 2)) as u8
}

/// Fills a row of a child from half a row of its parent. Each of the parent's cells gives two parts of it, the first
/// of them with the number `first`.
fn split_row(parent: &[u64], from: usize, first: u8, child: &mut [u64], start: usize, half: usize)
    requires first { first < 7 }
    requires parent { from + half ≤ length parent.now }
    requires child { start + 2 * half ≤ length child.old }
    requires limit { length child.old ≤ 4096 }
    ensures row { (x : ℕ) → x < 2 * half → slice_index child.new (start + x) ≡ part (slice_index parent.now (from + x / 2)) (first + x % 2) }
    ensures earlier { (j : ℕ) → j < start → slice_index child.new j ≡ slice_index child.old j }
    ensures length { length child.new ≡ length child.old }
{
    for h in 0..half {
        let q = parent[from + h];
        child[start + 2 * h] = part(q, first);
        child[start + 2 * h + 1] = part(q, first + 1);
    }
}
