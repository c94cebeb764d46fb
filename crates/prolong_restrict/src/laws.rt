//! What joining makes of split amounts.
ghost use Rattle.std.specs.Prelude.{◌≡◌, ℕ, ◌*◌, ◌<◌, List, Some, length, map, slice_get};
ghost use Rattle.std.specs.List.{range_with_len};
ghost use Rattle.block_index.specs.Places.{Cube, child_of};
ghost use Rattle.block_fields.specs.Divisions.{join_amounts, parts_of, split_amounts, sums_of};

/// The sums of the eight children that a block is split into are its amounts.
pub fn joining_undoes_splitting()
    ensures field { (n : ℕ) (a : Cube) (q : List ℕ) → 0 < n → length q ≡ n * n * n →
        sums_of n a (map (λ k. parts_of n (child_of a k) q) (range_with_len 0 8)) ≡ q }
    ensures fields { (n fields : ℕ) (a : Cube) (amounts : List (List ℕ)) → 0 < n → length amounts ≡ fields →
        ((f : ℕ) (q : List ℕ) → slice_get amounts f ≡ Some q → length q ≡ n * n * n) →
        join_amounts n fields a (map (λ k. split_amounts n (child_of a k) amounts) (range_with_len 0 8)) ≡ amounts }
{}
