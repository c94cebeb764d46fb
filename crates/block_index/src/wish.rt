//! What a leaf wishes for its level.

ghost use Rattle.std.specs.Prelude.{◌≡◌, ◌⊎◌, ◌<◌, max, IsTrue, ◌↔◌};
ghost use Rattle.std.specs.Ordering.{nat_cmp};
ghost use Rattle.block_index.specs.Wishes.{wish_rank};

/// What a leaf wishes for its own level in the next mesh. The order is that of the levels.
#[derive(Debug, Clone, Copy, PartialEq, Eq, PartialOrd, Ord, Hash)]
pub enum Wish {
    /// One level coarser.
    Coarsen,
    /// The same level.
    Stay,
    /// One level finer.
    Refine,
}

/// The greater of two wishes.
pub fn greater_wish(a: Wish, b: Wish) -> Wish
    ensures rank { wish_rank result ≡ max (wish_rank a) (wish_rank b) }
    ensures either { (result ≡ a) ⊎ (result ≡ b) }
{
    a.max(b)
}

/// Whether a wish asks for a coarser level than another.
pub fn is_coarser_wish(a: Wish, b: Wish) -> bool
    ensures before { IsTrue result ↔ (wish_rank a < wish_rank b) }
{
    a < b
}
