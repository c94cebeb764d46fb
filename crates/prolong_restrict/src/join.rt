//! The sums that the cells of a parent get of its eight children's.
ghost use Rattle.std.specs.Prelude.{◌≡◌, ℕ, ◌+◌, ◌-◌, ◌*◌, ◌/◌, ◌%◌, ◌<◌, ◌≤◌, [], Some, length, slice_get, slice_index, slice_index_or};
ghost use Rattle.block_fields.specs.Blocks.{BlockState};
ghost use Rattle.prolong_restrict.specs.Families.{most_in_field};
ghost use Rattle.prolong_restrict.specs.Lemmas.JoinNumbers.{AreJoinable, eight_from, fields_of, join_list, joined_sum, octant_of_row, row_below};

use block_fields::Block;

/// Fills a field of a parent, row by row along x. Each half of a row comes from one child.
pub(crate) fn join_field(children: &[Block], field: u8, n: usize, parent: &mut [u64])
    requires even { n % 2 ≡ 0 }
    requires least { 4 ≤ n }
    requires most { n ≤ 16 }
    requires children { AreJoinable children.now field n }
    requires parent { length parent.old ≡ n * n * n }
    ensures { parent.new ≡ join_list n field children.now }
{
    for r in 0..n * n {
        join_row(children, field, n, r, parent);
    }
}

/// Fills row `r` of a parent from the two children that it lies in.
fn join_row(children: &[Block], field: u8, n: usize, r: usize, parent: &mut [u64])
    requires even { n % 2 ≡ 0 }
    requires least { 4 ≤ n }
    requires most { n ≤ 16 }
    requires children { AreJoinable children.now field n }
    requires r { r < n * n }
    requires parent { length parent.old ≡ n * n * n }
    ensures row { (x : ℕ) → x < n → slice_index parent.new (r * n + x) ≡ joined_sum n field children.now (r * n + x) }
    ensures earlier { (j : ℕ) → j < r * n → slice_index parent.new j ≡ slice_index parent.old j }
    ensures length { length parent.new ≡ length parent.old }
{
    let first = octant_of_row(n, r);
    let from = row_below(n, r);
    let left = child_field(children, first, field);
    let right = child_field(children, first + 1, field);
    join_half(left, from, n, parent, r * n);
    join_half(right, from, n, parent, r * n + n / 2);
}

/// A field of one of the eight children.
fn child_field(children: &[Block], k: usize, field: u8) -> &[u64]
    requires k { k < length children.now }
    requires field { (k : ℕ) (b : BlockState) → slice_get children.now k ≡ Some b → field < length b.amounts }
    ensures field { result.now ≡ slice_index_or (fields_of field children.now) k [] }
    ensures child { (n : ℕ) → AreJoinable children.now field n → length result.now ≡ n * n * n }
    ensures small { (n i : ℕ) → AreJoinable children.now field n → slice_index result.now i ≤ most_in_field }
{
    children[k].field(field)
}

/// The number of the child in which the first half of row `r` lies.
fn octant_of_row(n: usize, r: usize) -> usize
    requires even { n % 2 ≡ 0 }
    requires least { 4 ≤ n }
    requires r { r < n * n }
    ensures number { result ≡ octant_of_row n r }
    ensures below { result < 7 }
{
    let half = n / 2;
    2 * (r % n / half) + 4 * (r / n / half)
}

/// The number in its child of the first of the eight cells in the first cell of row `r`.
fn row_below(n: usize, r: usize) -> usize
    requires even { n % 2 ≡ 0 }
    requires least { 4 ≤ n }
    requires most { n ≤ 16 }
    requires r { r < n * n }
    ensures number { result ≡ row_below n r }
    ensures within { result + n * n + n + n ≤ n * n * n }
{
    let half = n / 2;
    (2 * (r / n % half) * n + 2 * (r % n % half)) * n
}

/// Fills half a row of a parent from the cells of one child.
fn join_half(child: &[u64], from: usize, n: usize, parent: &mut [u64], start: usize)
    requires even { n % 2 ≡ 0 }
    requires most { n ≤ 16 }
    requires child { length child.now ≡ n * n * n }
    requires within { from + n * n + n + n ≤ n * n * n }
    requires small { (i : ℕ) → slice_index child.now i ≤ most_in_field }
    requires parent { start + n / 2 ≤ length parent.old }
    requires limit { length parent.old ≤ 4096 }
    ensures row { (x : ℕ) → x < n / 2 → slice_index parent.new (start + x) ≡ eight_from n child.now (from + 2 * x) }
    ensures earlier { (j : ℕ) → j < start → slice_index parent.new j ≡ slice_index parent.old j }
    ensures length { length parent.new ≡ length parent.old }
{
    for h in 0..n / 2 {
        parent[start + h] = eight_from(child, from + 2 * h, n);
    }
}

/// The sum of the eight cells of a child of which the first has a number.
fn eight_from(child: &[u64], at: usize, n: usize) -> u64
    requires most { n ≤ 16 }
    requires within { at + n * n + n + 1 < length child.now }
    requires limit { length child.now ≤ 4096 }
    requires small { (i : ℕ) → slice_index child.now i ≤ most_in_field }
    ensures sum { result ≡ eight_from n child.now at }
{
    let above = at + n * n;
    let low = child[at] + child[at + 1] + child[at + n] + child[at + n + 1];
    let high = child[above] + child[above + 1] + child[above + n] + child[above + n + 1];
    low + high
}
