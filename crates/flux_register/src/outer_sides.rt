//! Sides of leaves that are outer sides of the domain.

ghost use Rattle.std.specs.Prelude.{◌≡◌, ◌+◌, ◌*◌, ◌^◌, ◌≤◌, ◌==◌};
ghost use Rattle.grid_fluxes.specs.Axes.{coordinate, trees_along, wraps_along};
ghost use Rattle.advect.specs.FaceFluxes.{IsSide, axis_of, is_end};
ghost use Rattle.advect.specs.Flows.{goes_up_by, velocity_along};
ghost use Rattle.flux_register.specs.Lemmas.Outward.{axis_named, is_outer_side};

use advect::FaceFluxes;
use block_index::{Domain, Place};
use cello_neighbours::Direction;

/// An axis.
#[derive(Clone, Copy)]
pub(crate) enum Line {
    X,
    Y,
    Z,
}

/// The velocity along an axis.
fn velocity_along(faces: &FaceFluxes, line: Line) -> i32
    ensures velocity { result ≡ velocity_along faces.now.velocity (axis_named line) }
{
    let [x, y, z] = faces.velocity();
    match line {
        Line::X => x,
        Line::Y => y,
        Line::Z => z,
    }
}

/// Whether the flow along an axis goes up.
pub(crate) fn goes_up(faces: &FaceFluxes, line: Line) -> bool
    ensures up { result ≡ goes_up_by faces.now.velocity (axis_named line) }
{
    velocity_along(faces, line) >= 0
}

/// How many trees stand along an axis.
fn trees_along(domain: &Domain, line: Line) -> u16
    ensures trees { result ≡ trees_along (axis_named line) domain.now }
    ensures most { result ≤ 16 }
{
    let [x, y, z] = domain.array();
    match line {
        Line::X => x,
        Line::Y => y,
        Line::Z => z,
    }
}

/// How many places of a level stand along an axis.
fn end_along(domain: &Domain, line: Line, level: u8) -> u32
    requires level { level ≤ 6 }
    ensures end { result ≡ trees_along (axis_named line) domain.now * 2 ^ level }
{
    (trees_along(domain, line) as u32) << level
}

/// Whether an axis wraps.
fn wraps_along(domain: &Domain, line: Line) -> bool
    ensures wraps { result ≡ wraps_along (axis_named line) domain.now }
{
    let [x, y, z] = domain.periodic();
    match line {
        Line::X => x,
        Line::Y => y,
        Line::Z => z,
    }
}

/// The coordinate of a place along an axis.
fn coordinate(place: Place, line: Line) -> u16
    ensures coordinate { result ≡ coordinate (axis_named line) place }
{
    match line {
        Line::X => place.x(),
        Line::Y => place.y(),
        Line::Z => place.z(),
    }
}

/// Whether the side of a place at the end of an axis, or the one at its beginning, is an outer side of the domain.
pub(crate) fn is_outer_side(domain: &Domain, place: Place, line: Line, end: bool) -> bool
    ensures outer { result ≡ is_outer_side domain.now place (axis_named line) end }
{
    if wraps_along(domain, line) {
        return false;
    }
    let at = coordinate(place, line) as u32;
    if end {
        at + 1 == end_along(domain, line, place.level())
    } else {
        at == 0
    }
}

/// The side at the end of an axis, or the one at its beginning.
pub(crate) fn side_along(line: Line, end: bool) -> Direction
    ensures side { IsSide result }
    ensures axis { axis_of result ≡ axis_named line }
    ensures end { is_end result ≡ end }
{
    let step = if end { 1 } else { -1 };
    match line {
        Line::X => Direction::new(step, 0, 0).unwrap(),
        Line::Y => Direction::new(0, step, 0).unwrap(),
        Line::Z => Direction::new(0, 0, step).unwrap(),
    }
}
