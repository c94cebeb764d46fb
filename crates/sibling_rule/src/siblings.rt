//! The test for siblings.
ghost use Rattle.std.specs.Prelude.{◌↔◌, IsTrue};
ghost use Rattle.leaf_set.specs.LevelRules.{AreSiblings};

use block_index::Place;

/// Whether two places are children of one place, or one of these twice.
pub(crate) fn are_siblings(a: Place, c: Place) -> bool
    ensures siblings { IsTrue result ↔ AreSiblings a c }
{
    1 <= a.level()
        && c.level() == a.level()
        && c.x() / 2 == a.x() / 2
        && c.y() / 2 == a.y() / 2
        && c.z() / 2 == a.z() / 2
}
