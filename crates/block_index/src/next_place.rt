//! The place one step from a place.

ghost use Rattle.std.specs.Prelude.{◌≡◌, ℕ, ◌*◌, ◌^◌, ◌<◌, ◌≤◌, Some, IfSome};
ghost use Rattle.block_index.specs.Places.{Cube, IsInside, deepest, most_trees};
ghost use Rattle.block_index.specs.Axes.{IsUnitStep, IsNext};
ghost use Rattle.block_index.specs.Beyond.{IsBeyond};

use crate::axis::step_along;
use crate::domain::{Axis, Domain};
use crate::place::Place;

/// The place of the same level that lies steps of -1, 0 or 1 along x, y and z from a place. On a periodic axis a step
/// may go across its ends. Where a step leaves the domain on another axis there is none.
pub fn place_beyond(place: Place, x: i8, y: i8, z: i8, domain: &Domain) -> Option<Place>
    requires inside { IsInside domain.now place }
    requires x { IsUnitStep x }
    requires y { IsUnitStep y }
    requires z { IsUnitStep z }
    ensures found { IfSome result (λ q. IsBeyond domain.now place (record { x = x; y = y; z = z }) q) }
    ensures every { (q : Cube) → IsBeyond domain.now place (record { x = x; y = y; z = z }) q → result ≡ Some q }
{
    let [axis_x, axis_y, axis_z] = domain.axes();
    let level = place.level();
    Place::new(
        level,
        axis_x.next(level, place.x(), x)?,
        axis_y.next(level, place.y(), y)?,
        axis_z.next(level, place.z(), z)?,
    )
}

impl Axis {
    /// The coordinate one step from the place of a level at `x`.
    fn next(self, level: u8, x: u16, step: i8) -> Option<u16>
        requires trees { self.trees ≤ most_trees }
        requires level { level ≤ deepest }
        requires inside { x < self.trees * 2 ^ level }
        requires step { IsUnitStep step }
        ensures found { IfSome result (λ q. IsNext (self.trees * 2 ^ level) self.periodic step x q) }
        ensures every { (q : ℕ) → IsNext (self.trees * 2 ^ level) self.periodic step x q → result ≡ Some q }
    {
        let next = step_along(
            u32::from(self.trees) << level,
            self.periodic,
            u32::from(x),
            step,
        )?;
        Some(next as u16)
    }
}
