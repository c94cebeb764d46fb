//! The domain: an array of octrees, its periodic axes, and its finest level.

ghost use Rattle.std.specs.Prelude.{◌≡◌, ◌≤◌, [], ◌∷◌, ◌↔◌, IsSome, IfSome};
ghost use Rattle.block_index.specs.Places.{IsDomain, grid_of, most_trees};

use crate::place::{DEEPEST, MOST_TREES};
use std::marker::Model;

/// One axis of a domain.
#[derive(Debug, Clone, Copy, PartialEq, Eq)]
pub(crate) struct Axis {
    pub(crate) trees: u16,
    pub(crate) periodic: bool,
}

impl Axis {
    fn new(trees: u16, periodic: bool) -> Option<Axis>
        ensures valid { IsSome result ↔ ((1 ≤ trees) × (trees ≤ most_trees)) }
        ensures value { IfSome result (λ axis. axis ≡ record { trees = trees; periodic = periodic }) }
    {
        if trees == 0 || trees > MOST_TREES {
            return None;
        }
        Some(Axis { trees, periodic })
    }
}

/// An array of octrees: along each axis the number of trees and whether it is periodic, and the finest level.
#[derive(Debug, Clone, Copy, PartialEq, Eq)]
pub struct Domain {
    x: Axis,
    y: Axis,
    z: Axis,
    max_level: u8,
}

impl Model for Domain {
    ghost use Rattle.block_index.specs.Places.{Grid, IsDomain};

    ghost Value = { Grid };

    ghost view = { λ d. record {
      trees_x = d.x.trees;
      trees_y = d.y.trees;
      trees_z = d.z.trees;
      wraps_x = d.x.periodic;
      wraps_y = d.y.periodic;
      wraps_z = d.z.periodic;
      finest = d.max_level;
    } };

    ghost invariant = { λ d. IsDomain (record {
      trees_x = d.x.trees;
      trees_y = d.y.trees;
      trees_z = d.z.trees;
      wraps_x = d.x.periodic;
      wraps_y = d.y.periodic;
      wraps_z = d.z.periodic;
      finest = d.max_level;
    }) };

    ghost inverse = { λ g. record {
      x = record { trees = g.trees_x; periodic = g.wraps_x };
      y = record { trees = g.trees_y; periodic = g.wraps_y };
      z = record { trees = g.trees_z; periodic = g.wraps_z };
      max_level = g.finest;
    } };
}

impl Domain {
    /// The domain of these numbers of trees along x, y and z, and of these axes that wrap, where no limit is
    /// broken: 1 to 16 trees along each axis, and a finest level of at most 6.
    pub fn new(array: [u16; 3], periodic: [bool; 3], max_level: u8) -> Option<Domain>
        ensures limits { IsSome result ↔ IsDomain (grid_of array periodic max_level) }
        ensures value { IfSome result (λ domain. domain ≡ grid_of array periodic max_level) }
    {
        if max_level > DEEPEST {
            return None;
        }
        Some(Domain {
            x: Axis::new(array[0], periodic[0])?,
            y: Axis::new(array[1], periodic[1])?,
            z: Axis::new(array[2], periodic[2])?,
            max_level,
        })
    }

    /// The numbers of trees along x, y and z.
    pub fn array(&self) -> [u16; 3]
        ensures trees { result ≡ self.now.trees_x ∷ self.now.trees_y ∷ self.now.trees_z ∷ [] }
        ensures limits { IsDomain self.now }
    {
        [self.x.trees, self.y.trees, self.z.trees]
    }

    /// Whether the domain wraps along x, y and z.
    pub fn periodic(&self) -> [bool; 3]
        ensures wraps { result ≡ self.now.wraps_x ∷ self.now.wraps_y ∷ self.now.wraps_z ∷ [] }
    {
        [self.x.periodic, self.y.periodic, self.z.periodic]
    }

    /// The finest level that a leaf may have.
    pub fn max_level(&self) -> u8
        ensures level { result ≡ self.now.finest }
        ensures limits { IsDomain self.now }
    {
        self.max_level
    }

    /// The axes x, y and z.
    pub(crate) fn axes(&self) -> [Axis; 3]
        ensures axes { result
            ≡ record { trees = self.now.trees_x; periodic = self.now.wraps_x }
            ∷ record { trees = self.now.trees_y; periodic = self.now.wraps_y }
            ∷ record { trees = self.now.trees_z; periodic = self.now.wraps_z } ∷ [] }
        ensures limits { IsDomain self.now }
    {
        [self.x, self.y, self.z]
    }
}
