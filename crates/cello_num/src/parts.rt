//! The eight parts of an amount.
ghost use Rattle.std.specs.Prelude.{◌≡◌, ℕ, ◌+◌, ◌<◌, ◌≤◌};
ghost use Rattle.cello_num.specs.Parts.{part};

/// Part `k` of the eight parts of an amount: an eighth, and one unit of what is left over for the first parts.
pub fn part(q: u64, k: u8) -> u64
    requires number { k < 8 }
    ensures part { result ≡ part q k }
{
    if u64::from(k) < q % 8 {
        q / 8 + 1
    } else {
        q / 8
    }
}

/// The eight parts add up to the amount, and none is above it.
pub fn parts_add_up()
    ensures adds { (q : ℕ) → part q 0 + part q 1 + part q 2 + part q 3 + part q 4 + part q 5 + part q 6 + part q 7 ≡ q }
    ensures none { (k : ℕ) → part 0 k ≡ 0 }
    ensures most { (q k : ℕ) → part q k ≤ q }
{}
