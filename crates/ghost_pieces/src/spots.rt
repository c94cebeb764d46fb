//! Where a region lies in a block's lists of ghosts.
ghost use Rattle.std.specs.Prelude.{◌≡◌, ℕ, ◌+◌, ◌*◌, ◌%◌, ◌<◌, ◌≤◌};
ghost use Rattle.block_index.specs.Axes.{IsUnitStep};
ghost use Rattle.cello_neighbours.specs.Directions.{IsDirection};
ghost use Rattle.block_fields.specs.Shells.{side_length};
ghost use Rattle.ghost_pieces.specs.Boxes.{span};
ghost use Rattle.ghost_pieces.specs.Filing.{listed_box, listed_part, number_of, side_of_step};

use block_index::Place;
use cello_neighbours::Direction;

/// How many cells of the receiver's level lie along the sender's edge.
pub(crate) fn span_of(n: usize, level: u8, from: u8) -> usize
    requires least { 4 ≤ n }
    requires most { n ≤ 16 }
    requires even { n % 2 ≡ 0 }
    requires near { level ≤ from + 1 }
    requires far { from ≤ level + 1 }
    ensures span { result ≡ span n level from }
    ensures some { 0 < result }
    ensures most { result ≤ 32 }
{
    if level == from {
        n
    } else if from < level {
        2 * n
    } else {
        n / 2
    }
}

/// The side of a block to which a step leads.
fn side_of(step: i8) -> u8
    requires step { IsUnitStep step }
    ensures side { result ≡ side_of_step step }
    ensures three { result < 3 }
{
    match step {
        -1 => 0,
        0 => 1,
        _ => 2,
    }
}

/// The number of a direction among a block's lists of ghosts.
pub(crate) fn number_of(d: Direction) -> u8
    ensures number { result ≡ number_of d }
    ensures below { result < 27 }
    ensures limits { IsDirection d }
{
    side_of(d.x()) + 3 * side_of(d.y()) + 9 * side_of(d.z())
}

/// A stretch along an axis of a direction's box: how many cells the box has there, and which of them are meant.
#[derive(Debug, Clone, Copy)]
pub(crate) struct Run {
    pub(crate) length: usize,
    pub(crate) first: usize,
    pub(crate) count: usize,
}

/// Along an axis, a region of the block `a` whose samples the block `b` holds, which is `span` cells long.
fn run_along(n: usize, depth: usize, step: i8, a: u16, span: usize, b: u16) -> Run
    requires most { n ≤ 16 }
    requires deepest { depth ≤ 2 }
    requires step { IsUnitStep step }
    requires span { span ≤ 32 }
    ensures length { result.length ≡ side_length n depth (side_of_step step) }
    ensures first { result.first ≡ (listed_part n depth a span b step).first }
    ensures count { result.count ≡ (listed_part n depth a span b step).count }
    ensures within { 0 < result.count → result.first + result.count ≤ result.length }
    ensures short { result.length ≤ 16 }
{
    if step == 0 {
        let own = a as usize * n;
        let low = b as usize * span;
        let skip = low.saturating_sub(own);
        Run {
            length: n,
            first: skip,
            count: n.min((low + span).saturating_sub(own)).saturating_sub(skip),
        }
    } else {
        Run {
            length: depth,
            first: 0,
            count: depth,
        }
    }
}

/// A box in one of a block's lists of ghosts.
#[derive(Debug, Clone, Copy)]
pub(crate) struct Spot {
    pub(crate) x: Run,
    pub(crate) y: Run,
    pub(crate) z: Run,
}

/// The box of a region in the list of its direction.
pub(crate) fn spot_of(n: u16, depth: u8, receiver: Place, d: Direction, sender: Place) -> Spot
    requires least { 4 ≤ n }
    requires most { n ≤ 16 }
    requires even { n % 2 ≡ 0 }
    requires deepest { depth ≤ 2 }
    requires near { receiver.level ≤ sender.level + 1 }
    requires far { sender.level ≤ receiver.level + 1 }
    ensures wide { result.x.length ≡ side_length n depth (side_of_step d.x) }
    ensures high { result.y.length ≡ side_length n depth (side_of_step d.y) }
    ensures deep { result.z.length ≡ side_length n depth (side_of_step d.z) }
    ensures first_x { result.x.first ≡ (listed_box n depth receiver d sender).x.first }
    ensures first_y { result.y.first ≡ (listed_box n depth receiver d sender).y.first }
    ensures first_z { result.z.first ≡ (listed_box n depth receiver d sender).z.first }
    ensures count_x { result.x.count ≡ (listed_box n depth receiver d sender).x.count }
    ensures count_y { result.y.count ≡ (listed_box n depth receiver d sender).y.count }
    ensures count_z { result.z.count ≡ (listed_box n depth receiver d sender).z.count }
    ensures within_x { 0 < result.x.count → result.x.first + result.x.count ≤ result.x.length }
    ensures within_y { 0 < result.y.count → result.y.first + result.y.count ≤ result.y.length }
    ensures within_z { 0 < result.z.count → result.z.first + result.z.count ≤ result.z.length }
    ensures short_x { result.x.length ≤ 16 }
    ensures short_y { result.y.length ≤ 16 }
    ensures short_z { result.z.length ≤ 16 }
{
    let edge = n as usize;
    let deep = depth as usize;
    let span = span_of(edge, receiver.level(), sender.level());
    Spot {
        x: run_along(edge, deep, d.x(), receiver.x(), span, sender.x()),
        y: run_along(edge, deep, d.y(), receiver.y(), span, sender.y()),
        z: run_along(edge, deep, d.z(), receiver.z(), span, sender.z()),
    }
}
