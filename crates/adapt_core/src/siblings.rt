//! The test for siblings.

ghost use Rattle.std.specs.Prelude.{◌≡◌};
ghost use Rattle.adapt_core.specs.Problem.{are_siblings};

use block_index::Place;

/// Whether two places of one level, below the roots, have the same parent.
pub(crate) fn are_siblings(a: Place, c: Place) -> bool
    ensures { result ≡ are_siblings a c }
{
    1 <= a.level()
        && c.level() == a.level()
        && c.x() / 2 == a.x() / 2
        && c.y() / 2 == a.y() / 2
        && c.z() / 2 == a.z() / 2
}
