//! The wish of one cell.
ghost use Rattle.std.specs.Prelude.{◌≡◌, ◌↔◌, ◌||◌, ◌≤◌, IsTrue};
ghost use Rattle.block_index.specs.declared.wish.Wish.TheVariants.{Refine};
ghost use Rattle.params_check.specs.Bounds.{greatest_slope};
ghost use Rattle.criteria.specs.Cells.{is_steep};
ghost use Rattle.criteria.specs.Lemmas.CellWishes.{number_wish};
ghost use Rattle.criteria.specs.Samples.{most_amount};
ghost use Rattle.criteria.specs.Wishes.{greater};

use block_index::{Wish, greater_wish};

/// The greater of two wishes.
pub(crate) fn greater(a: Wish, b: Wish) -> Wish
    ensures wish { result ≡ greater a b }
{
    greater_wish(a, b)
}

/// Whether no further cell can change a wish.
pub(crate) fn is_refine(wish: Wish) -> bool
    ensures refine { IsTrue result ↔ (wish ≡ Refine) }
{
    match wish {
        Wish::Refine => true,
        Wish::Coarsen | Wish::Stay => false,
    }
}

/// The wish by a number.
pub(crate) fn number_wish(refine: u64, coarsen: u64, q: u64) -> Wish
    ensures wish { result ≡ number_wish refine coarsen q }
{
    if q > refine {
        Wish::Refine
    } else if q <= coarsen {
        Wish::Coarsen
    } else {
        Wish::Stay
    }
}

/// Whether the difference across an amount along one of three axes is steep. The greatest of them decides.
pub(crate) fn is_steep(hundredths: u64, q: u64, dx: u64, dy: u64, dz: u64) -> bool
    requires hundredths { hundredths ≤ greatest_slope }
    requires q { q ≤ most_amount }
    requires dx { dx ≤ most_amount }
    requires dy { dy ≤ most_amount }
    requires dz { dz ≤ most_amount }
    ensures steep { result ≡ (is_steep hundredths q dx || is_steep hundredths q dy || is_steep hundredths q dz) }
{
    let steepest = 100 * dx.max(dy.max(dz));
    hundredths * q < steepest
}
