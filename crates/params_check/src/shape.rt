//! What the root cells hold at the start.
ghost use Rattle.std.specs.Prelude.{◌≡◌, ◌≤◌, length};

use std::marker::Model;

/// Which root cells a shape holds. Coordinates are in root cells, from the low corner of the domain, at most 256.
#[derive(Debug, Clone, Copy, PartialEq, Eq)]
pub enum Form {
    /// The cells from `low` on and below `high`.
    Cuboid { low: [u16; 3], high: [u16; 3] },
    /// The cells whose middles are at most the radius from the center.
    Ball { center: [u16; 3], radius: u16 },
}

/// An amount for each root cell that a form holds.
#[derive(Debug, Clone, Copy, PartialEq, Eq)]
pub struct Shape {
    /// The position of the field among the names.
    pub field: u8,
    /// The amount for each cell, at most 2^40.
    pub amount: u64,
    pub form: Form,
}

/// Shapes in the order of the text, at most 16.
#[derive(Drop)]
pub struct Shapes {
    shapes: Vec<Shape>,
}

impl Model for Shapes {
    ghost use Rattle.std.specs.Prelude.{List, ◌≤◌, length};
    ghost use Rattle.params_check.specs.declared.shape.Shape.{Shape};

    ghost Value = { List Shape };

    ghost view = { λ s. s.shapes.items };

    ghost invariant = { λ s. length s.shapes.items ≤ 16 };
}

impl Shapes {
    /// These shapes.
    pub fn of(shapes: Vec<Shape>) -> Shapes
        requires few { length shapes.items ≤ 16 }
        ensures items { result ≡ shapes.items }
    {
        Shapes { shapes }
    }

    /// The shapes in order.
    pub fn items(&self) -> &[Shape]
        ensures items { result.now ≡ self.now }
        ensures few { length self.now ≤ 16 }
    {
        &self.shapes
    }
}
