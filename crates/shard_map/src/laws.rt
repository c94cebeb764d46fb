//! Laws about owners.
ghost use Rattle.std.specs.Prelude.{◌≡◌, ℕ, ◌<◌, ◌≤◌};
ghost use Rattle.shard_map.specs.Owners.{owner_of};

/// The owners of leaves ascend, so each shard has a run of leaves; and where there are at least as many leaves as
/// shards, each shard owns one.
pub fn owners_ascend()
    ensures ascend { (shards leaves i j : ℕ) → 0 < leaves → i ≤ j → owner_of shards leaves i ≤ owner_of shards leaves j }
    ensures run { (shards leaves i j k : ℕ) → 0 < leaves → i ≤ j → j ≤ k →
        owner_of shards leaves i ≡ owner_of shards leaves k → owner_of shards leaves j ≡ owner_of shards leaves i }
    ensures each { (shards leaves shard : ℕ) → shard < shards → shards ≤ leaves →
        (i : ℕ) × (i < leaves) × (owner_of shards leaves i ≡ shard) }
{}
