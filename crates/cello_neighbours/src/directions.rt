//! Directions from a leaf, and the place beside it in one.

ghost use Rattle.std.specs.Prelude.{◌≡◌, ◌<◌, ◌↔◌, IsTrue, Some, IsSome, IfSome};
ghost use Rattle.block_index.specs.Places.{Cube, IsInside};
ghost use Rattle.block_index.specs.Axes.{IsUnitStep};
ghost use Rattle.block_index.specs.Beyond.{IsBeyond};
ghost use Rattle.cello_neighbours.specs.Directions.{IsDirection};
ghost use Rattle.cello_neighbours.specs.Lemmas.Numbering.{offset_count, offset_numbered, step_numbered};

use block_index::{Domain, Place, place_beyond};
use std::marker::Model;

/// A direction from a leaf: along x, y and z a step of -1, 0 or 1, not all 0. There are 26.
#[derive(Debug, Clone, Copy, PartialEq, Eq)]
pub struct Direction {
    x: i8,
    y: i8,
    z: i8,
}

impl Model for Direction {
    ghost use Rattle.block_index.specs.Beyond.{Offset};
    ghost use Rattle.cello_neighbours.specs.Directions.{IsDirection};

    ghost Value = { Offset };

    ghost view = { λ d. record { x = d.x; y = d.y; z = d.z } };

    ghost invariant = { λ d. IsDirection (record { x = d.x; y = d.y; z = d.z }) };

    ghost inverse = { λ s. record { x = s.x; y = s.y; z = s.z } };
}

impl Direction {
    /// The direction of these steps along x, y and z, where each is -1, 0 or 1 and not all are 0.
    pub fn new(x: i8, y: i8, z: i8) -> Option<Direction>
        ensures limits { IsSome result ↔ IsDirection (record { x = x; y = y; z = z }) }
        ensures value { IfSome result (λ direction. direction ≡ record { x = x; y = y; z = z }) }
    {
        if !is_step(x) || !is_step(y) || !is_step(z) {
            return None;
        }
        if x == 0 && y == 0 && z == 0 {
            return None;
        }
        Some(Direction { x, y, z })
    }

    /// The step along x.
    pub fn x(self) -> i8
        ensures x { result ≡ self.x }
        ensures limits { IsDirection self }
    {
        self.x
    }

    /// The step along y.
    pub fn y(self) -> i8
        ensures y { result ≡ self.y }
        ensures limits { IsDirection self }
    {
        self.y
    }

    /// The step along z.
    pub fn z(self) -> i8
        ensures z { result ≡ self.z }
        ensures limits { IsDirection self }
    {
        self.z
    }

    /// The direction with a number, by its steps along x fastest, then y, then z. Number 13, in the middle, is none.
    pub(crate) fn numbered(n: u8) -> Option<Direction>
        requires number { n < offset_count }
        ensures value { IfSome result (λ direction. direction ≡ offset_numbered n) }
        ensures direction { IsSome result → IsDirection (offset_numbered n) }
        ensures each { IsDirection (offset_numbered n) → IsSome result }
    {
        Direction::new(
            step_numbered(n % 3),
            step_numbered(n / 3 % 3),
            step_numbered(n / 9),
        )
    }

    /// The place one step from a leaf, of the leaf's level. Where the step leaves the domain on an axis that doesn't
    /// wrap there is none.
    pub(crate) fn beyond(self, leaf: Place, domain: &Domain) -> Option<Place>
        requires inside { IsInside domain.now leaf }
        ensures found { IfSome result (λ q. IsBeyond domain.now leaf self q) }
        ensures every { (q : Cube) → IsBeyond domain.now leaf self q → result ≡ Some q }
        ensures limits { IsDirection self }
    {
        place_beyond(leaf, self.x, self.y, self.z, domain)
    }
}

/// Step 0, 1 or 2 of -1, 0 and 1.
fn step_numbered(k: u8) -> i8
    requires number { k < 3 }
    ensures step { result ≡ step_numbered k }
{
    match k {
        0 => -1,
        1 => 0,
        _ => 1,
    }
}

/// Whether a number is -1, 0 or 1.
fn is_step(step: i8) -> bool
    ensures step { IsTrue result ↔ IsUnitStep step }
{
    -1 <= step && step <= 1
}
