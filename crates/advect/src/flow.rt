//! The flow of parameters through a block, axis by axis.
ghost use Rattle.std.specs.Prelude.{◌≡◌, ℕ, ◌+◌, ◌*◌, ◌^◌, ◌≤◌, ◌&&◌, ◌||◌, ◌==◌, cond, false, true, nat_abs};
ghost use Rattle.block_index.specs.Places.{IsInside};
ghost use Rattle.grid_fluxes.specs.Axes.{coordinate, trees_along, wraps_along};
ghost use Rattle.params_check.specs.Parameters.{IsParameters};
ghost use Rattle.advect.specs.Flows.{flow_of, is_closed, velocity_along};
ghost use Rattle.advect.specs.Lemmas.Lines.{axis_named};

use crate::line::Line;
use crate::share::Share;
use crate::stream::Stream;
use block_index::{Domain, Place};
use params_check::{AxisKind, Params};

/// The velocity along an axis.
fn velocity_along(params: &Params, line: Line) -> i32
    ensures velocity { result ≡ velocity_along params.now.velocity (axis_named line) }
{
    let [x, y, z] = params.velocity();
    match line {
        Line::X => x,
        Line::Y => y,
        Line::Z => z,
    }
}

/// The speed along an axis.
fn speed_along(params: &Params, line: Line) -> u32
    ensures speed { result ≡ (flow_of params.now).speed (axis_named line) }
{
    let [x, y, z] = params.velocity();
    match line {
        Line::X => x.unsigned_abs(),
        Line::Y => y.unsigned_abs(),
        Line::Z => z.unsigned_abs(),
    }
}

/// Whether the outer faces of an axis are closed.
fn closes(params: &Params, line: Line) -> bool
    ensures closed { result ≡ (flow_of params.now).closed (axis_named line) }
{
    let [x, y, z] = params.axes();
    match line {
        Line::X => is_closed(x),
        Line::Y => is_closed(y),
        Line::Z => is_closed(z),
    }
}

/// Whether a kind of axis has closed outer faces.
fn is_closed(kind: AxisKind) -> bool
    ensures closed { result ≡ is_closed kind }
{
    match kind {
        AxisKind::Periodic | AxisKind::Outflow => false,
        AxisKind::Closed => true,
    }
}

/// How many trees stand along an axis.
fn trees_along(domain: &Domain, line: Line) -> u16
    ensures trees { result ≡ trees_along (axis_named line) domain.now }
    ensures most { result ≤ 16 }
{
    let [x, y, z] = domain.array();
    match line {
        Line::X => x,
        Line::Y => y,
        Line::Z => z,
    }
}

/// How many places of a level stand along an axis.
fn end_along(domain: &Domain, line: Line, level: u8) -> u32
    requires level { level ≤ 6 }
    ensures end { result ≡ trees_along (axis_named line) domain.now * 2 ^ level }
{
    (trees_along(domain, line) as u32) << level
}

/// Whether an axis wraps.
fn wraps_along(domain: &Domain, line: Line) -> bool
    ensures wraps { result ≡ wraps_along (axis_named line) domain.now }
{
    let [x, y, z] = domain.periodic();
    match line {
        Line::X => x,
        Line::Y => y,
        Line::Z => z,
    }
}

/// The coordinate of a place along an axis.
fn coordinate(place: Place, line: Line) -> u16
    ensures coordinate { result ≡ coordinate (axis_named line) place }
{
    match line {
        Line::X => place.x(),
        Line::Y => place.y(),
        Line::Z => place.z(),
    }
}

/// The share of an amount that flows through a face of a level.
fn share_along(params: &Params, line: Line, level: u8) -> Share
    requires level { level ≤ params.now.grid.finest }
    ensures parts { result.parts ≡ (flow_of params.now).speed (axis_named line) * 2 ^ level }
    ensures den { result.den ≡ params.now.den }
    ensures limits { IsParameters params.now }
{
    let den = params.den();
    let speed = speed_along(params, line);
    Share::new(speed << level, den)
}

/// Whether the flow along an axis goes up.
fn goes_up(params: &Params, line: Line) -> bool
    ensures up { result ≡ (flow_of params.now).goes_up (axis_named line) }
{
    velocity_along(params, line) >= 0
}

/// Nothing passes an outermost face that is an outer face of the domain, where the axis is closed or the flow comes
/// from outside.
fn bars(wraps: bool, outermost: bool, closed: bool, from_outside: bool) -> bool
    ensures bars { result ≡ (cond wraps false outermost && (closed || from_outside)) }
{
    if wraps {
        return false;
    }
    if !outermost {
        return false;
    }
    if closed { true } else { from_outside }
}

/// What flows through the block of a place along an axis.
pub(crate) fn stream_along(place: Place, params: &Params, line: Line) -> Stream
    requires inside { IsInside params.now.grid place }
    ensures share { result.share.parts ≡ (flow_of params.now).speed (axis_named line) * 2 ^ place.level }
    ensures den { result.share.den ≡ params.now.den }
    ensures up { result.up ≡ (flow_of params.now).goes_up (axis_named line) }
    ensures low { result.low_barred ≡ (cond (wraps_along (axis_named line) params.now.grid) false (coordinate (axis_named line) place == 0)
        && ((flow_of params.now).closed (axis_named line) || (flow_of params.now).goes_up (axis_named line))) }
    ensures high { result.high_barred ≡ (cond (wraps_along (axis_named line) params.now.grid) false (coordinate (axis_named line) place + 1 == trees_along (axis_named line) params.now.grid * 2 ^ place.level)
        && ((flow_of params.now).closed (axis_named line) || cond ((flow_of params.now).goes_up (axis_named line)) false true)) }
    ensures limits { IsParameters params.now }
{
    let up = goes_up(params, line);
    let closed = closes(params, line);
    let wraps = wraps_along(params.domain(), line);
    let at = coordinate(place, line) as u32;
    let end = end_along(params.domain(), line, place.level());
    Stream {
        share: share_along(params, line, place.level()),
        up,
        low_barred: bars(wraps, at == 0, closed, up),
        high_barred: bars(wraps, at + 1 == end, closed, !up),
    }
}
