//! Sides of a block: directions along one axis alone.
ghost use Rattle.std.specs.Prelude.{◌≡◌, ◌<◌, ◌≤◌};
ghost use Rattle.advect.specs.Coordinates.{along, across_first, across_second};
ghost use Rattle.advect.specs.FaceFluxes.{IsSide, axis_of, is_end};
ghost use Rattle.advect.specs.Flows.{axis_number};
ghost use Rattle.advect.specs.Lemmas.Lines.{axis_named};

use crate::line::Line;
use cello_neighbours::Direction;

/// The number of the axis along which a side lies.
pub(crate) fn axis_of(side: Direction) -> usize
    requires side { IsSide side }
    ensures axis { result ≡ axis_number (axis_of side) }
    ensures within { result < 3 }
{
    if side.x() != 0 {
        0
    } else if side.y() != 0 {
        1
    } else {
        2
    }
}

/// The axis along which a side lies.
pub(crate) fn line_of(side: Direction) -> Line
    requires side { IsSide side }
    ensures line { axis_named result ≡ axis_of side }
{
    if side.x() != 0 {
        Line::X
    } else if side.y() != 0 {
        Line::Y
    } else {
        Line::Z
    }
}

/// Whether a side is the one at the end of its axis.
pub(crate) fn is_end(side: Direction) -> bool
    ensures end { result ≡ is_end side }
{
    side.x() == 1 || side.y() == 1 || side.z() == 1
}

/// Three coordinates.
#[derive(Clone, Copy)]
pub(crate) struct Spot {
    pub(crate) x: u16,
    pub(crate) y: u16,
    pub(crate) z: u16,
}

impl Spot {
    /// The cell with a coordinate along an axis and two across.
    pub(crate) fn at(line: Line, u: u16, i: u16, j: u16) -> Spot
        ensures along { along (axis_named line) result.x result.y result.z ≡ u }
        ensures first { across_first (axis_named line) result.x result.y result.z ≡ i }
        ensures second { across_second (axis_named line) result.x result.y result.z ≡ j }
    {
        match line {
            Line::X => Spot { x: u, y: i, z: j },
            Line::Y => Spot { x: i, y: u, z: j },
            Line::Z => Spot { x: i, y: j, z: u },
        }
    }

    /// The first of the coordinates across an axis.
    pub(crate) fn first(self, line: Line) -> u16
        ensures first { result ≡ across_first (axis_named line) self.x self.y self.z }
    {
        match line {
            Line::X => self.y,
            Line::Y | Line::Z => self.x,
        }
    }

    /// The second of the coordinates across an axis.
    pub(crate) fn second(self, line: Line) -> u16
        ensures second { result ≡ across_second (axis_named line) self.x self.y self.z }
    {
        match line {
            Line::X | Line::Y => self.z,
            Line::Z => self.y,
        }
    }
}
