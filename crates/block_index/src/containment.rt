//! Whether a place lies inside a domain, and whether one contains another.

ghost use Rattle.std.specs.Prelude.{◌≡◌, IsTrue, ◌↔◌};
ghost use Rattle.block_index.specs.Places.{IsInside, covers};

use crate::domain::Domain;
use crate::place::Place;

/// Whether the place lies inside the domain: its level is at most the finest, and its coordinates are in range.
pub fn inside(a: Place, domain: &Domain) -> bool
    ensures in_range { IsTrue result ↔ IsInside domain.now a }
{
    let [trees_x, trees_y, trees_z] = domain.array();
    a.level() <= domain.max_level()
        && a.x() < trees_x << a.level()
        && a.y() < trees_y << a.level()
        && a.z() < trees_z << a.level()
}

/// Whether `a` is `b` or contains it.
pub fn covers(a: Place, b: Place) -> bool
    ensures contains { result ≡ covers a b }
{
    if a.level() > b.level() {
        return false;
    }
    let deeper = b.level() - a.level();
    b.x() >> deeper == a.x() && b.y() >> deeper == a.y() && b.z() >> deeper == a.z()
}
