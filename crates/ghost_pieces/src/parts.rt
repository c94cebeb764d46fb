//! The parts of a region along the three axes.
ghost use Rattle.std.specs.Prelude.{◌≡◌, ℕ, ◌+◌, ◌*◌, ◌%◌, ◌^◌, ◌<◌, ◌≤◌};
ghost use Rattle.block_index.specs.Axes.{IsUnitStep};
ghost use Rattle.block_index.specs.Places.{IsInside};
ghost use Rattle.ghost_pieces.specs.Boxes.{span};
ghost use Rattle.ghost_pieces.specs.Lemmas.Parts.{FitsIn, Follows, IsPart};

use crate::axis_parts::{Part, Side, part_along};
use crate::spots::span_of;
use block_index::{Domain, Place};
use cello_neighbours::Direction;

/// Along an axis of so many trees, the part of a region of a block of a level at `at`, sent by the one at `from`.
fn axis_part(
    n: usize,
    depth: usize,
    trees: u16,
    wraps: bool,
    level: u8,
    at: u16,
    step: i8,
    from_level: u8,
    from: u16,
) -> Part
    requires least { 4 ≤ n }
    requires most { n ≤ 16 }
    requires even { n % 2 ≡ 0 }
    requires some { 0 < depth }
    requires deep { 2 * depth ≤ n }
    requires trees { trees ≤ 16 }
    requires level { level ≤ 6 }
    requires at { at < trees * 2 ^ level }
    requires step { IsUnitStep step }
    requires near { level ≤ from_level + 1 }
    requires far { from_level ≤ level + 1 }
    requires from { from < 1024 }
    ensures part { IsPart n depth (trees * 2 ^ level) wraps at (span n level from_level) from step result.first result.count result.start result.runs }
    ensures follows { Follows n depth (trees * 2 ^ level) wraps at (span n level from_level) from result.first result.count result.start result.runs }
    ensures fits { FitsIn (span n level from_level) result.start result.runs result.count }
{
    let span = span_of(n, level, from_level);
    let side = side_of(trees, wraps, level, at);
    part_along(n, depth, side, step, span, from as usize)
}

/// An axis of a level.
pub(crate) fn side_of(trees: u16, wraps: bool, level: u8, at: u16) -> Side
    requires trees { trees ≤ 16 }
    requires level { level ≤ 6 }
    requires at { at < trees * 2 ^ level }
    ensures side { result ≡ record { places = trees * 2 ^ level; wraps = wraps; at = at } }
    ensures places { result.places ≤ 1024 }
{
    Side {
        places: (trees << level) as usize,
        wraps,
        at: at as usize,
    }
}

/// The parts of a region along the three axes.
#[derive(Debug, Clone, Copy)]
pub(crate) struct Parts {
    pub(crate) x: Part,
    pub(crate) y: Part,
    pub(crate) z: Part,
}

/// The parts of the region of a receiver in a direction whose samples a sender holds. The two are one or touch.
pub(crate) fn parts_of(
    n: usize,
    depth: usize,
    domain: &Domain,
    receiver: Place,
    d: Direction,
    sender: Place,
) -> Parts
    requires least { 4 ≤ n }
    requires most { n ≤ 16 }
    requires even { n % 2 ≡ 0 }
    requires some { 0 < depth }
    requires deep { 2 * depth ≤ n }
    requires inside { IsInside domain.now receiver }
    requires near { receiver.level ≤ sender.level + 1 }
    requires far { sender.level ≤ receiver.level + 1 }
    ensures part_x { IsPart n depth (domain.now.trees_x * 2 ^ receiver.level) domain.now.wraps_x receiver.x (span n receiver.level sender.level) sender.x d.x
        result.x.first result.x.count result.x.start result.x.runs }
    ensures follows_x { Follows n depth (domain.now.trees_x * 2 ^ receiver.level) domain.now.wraps_x receiver.x (span n receiver.level sender.level) sender.x
        result.x.first result.x.count result.x.start result.x.runs }
    ensures fits_x { FitsIn (span n receiver.level sender.level) result.x.start result.x.runs result.x.count }
    ensures part_y { IsPart n depth (domain.now.trees_y * 2 ^ receiver.level) domain.now.wraps_y receiver.y (span n receiver.level sender.level) sender.y d.y
        result.y.first result.y.count result.y.start result.y.runs }
    ensures follows_y { Follows n depth (domain.now.trees_y * 2 ^ receiver.level) domain.now.wraps_y receiver.y (span n receiver.level sender.level) sender.y
        result.y.first result.y.count result.y.start result.y.runs }
    ensures fits_y { FitsIn (span n receiver.level sender.level) result.y.start result.y.runs result.y.count }
    ensures part_z { IsPart n depth (domain.now.trees_z * 2 ^ receiver.level) domain.now.wraps_z receiver.z (span n receiver.level sender.level) sender.z d.z
        result.z.first result.z.count result.z.start result.z.runs }
    ensures follows_z { Follows n depth (domain.now.trees_z * 2 ^ receiver.level) domain.now.wraps_z receiver.z (span n receiver.level sender.level) sender.z
        result.z.first result.z.count result.z.start result.z.runs }
    ensures fits_z { FitsIn (span n receiver.level sender.level) result.z.start result.z.runs result.z.count }
{
    let [trees_x, trees_y, trees_z] = domain.array();
    let [wraps_x, wraps_y, wraps_z] = domain.periodic();
    let level = receiver.level();
    let from = sender.level();
    Parts {
        x: axis_part(
            n,
            depth,
            trees_x,
            wraps_x,
            level,
            receiver.x(),
            d.x(),
            from,
            sender.x(),
        ),
        y: axis_part(
            n,
            depth,
            trees_y,
            wraps_y,
            level,
            receiver.y(),
            d.y(),
            from,
            sender.y(),
        ),
        z: axis_part(
            n,
            depth,
            trees_z,
            wraps_z,
            level,
            receiver.z(),
            d.z(),
            from,
            sender.z(),
        ),
    }
}
