//! Along an axis the part of a region, from both places.
ghost use Rattle.std.specs.Prelude.{◌≡◌, ℕ, ◌+◌, ◌-◌, ◌*◌, ◌%◌, ◌<◌, ◌≤◌, cond, pos, ◌-ℤ◌};
ghost use Rattle.block_index.specs.Axes.{IsUnitStep};
ghost use Rattle.block_fields.specs.Samples.{moved};
ghost use Rattle.ghost_pieces.specs.Boxes.{reached_part};
ghost use Rattle.ghost_pieces.specs.Sent.{offset_of};
ghost use Rattle.ghost_pieces.specs.Lemmas.Parts.{runs};

use crate::counts::depth_where;

/// Along an axis the part of a region: the first local coordinate, how many there are, where the first lies in the
/// sender's block, and whether the others go on from there or stay.
#[derive(Debug, Clone, Copy)]
pub(crate) struct Part {
    pub(crate) first: usize,
    pub(crate) count: usize,
    pub(crate) start: usize,
    pub(crate) runs: bool,
}

/// An axis of the receiver's level: how many blocks it has, whether it wraps, and the receiver's place on it.
#[derive(Debug, Clone, Copy)]
pub(crate) struct Side {
    pub(crate) places: usize,
    pub(crate) wraps: bool,
    pub(crate) at: usize,
}

/// Where the first coordinate before a block is moved.
pub(crate) fn reached_before(n: usize, depth: usize, side: Side) -> usize
    requires edge { n ≤ 16 }
    requires deep { 2 * depth ≤ n }
    requires some { 0 < depth }
    requires places { side.places ≤ 1024 }
    requires at { side.at < side.places }
    ensures { result ≡ moved side.wraps (side.places * n) (pos (side.at * n + 0) -ℤ pos depth) }
{
    if side.at > 0 {
        side.at * n - depth
    } else if side.wraps {
        side.places * n - depth
    } else {
        0
    }
}

/// Where the first coordinate after a block is moved.
pub(crate) fn reached_after(n: usize, depth: usize, side: Side) -> usize
    requires edge { n ≤ 16 }
    requires deep { 2 * depth ≤ n }
    requires some { 0 < depth }
    requires places { side.places ≤ 1024 }
    requires at { side.at < side.places }
    ensures { result ≡ moved side.wraps (side.places * n) (pos (side.at * n + (n + depth)) -ℤ pos depth) }
{
    if side.at + 1 < side.places {
        (side.at + 1) * n
    } else if side.wraps {
        0
    } else {
        side.places * n - 1
    }
}

/// Along an axis the part of a region: of the receiver's local coordinates of a step, those that are moved into the
/// block `from` of an axis that is cut into blocks of `span` cells.
pub(crate) fn part_along(
    n: usize,
    depth: usize,
    side: Side,
    step: i8,
    span: usize,
    from: usize,
) -> Part
    requires edge { n ≤ 16 }
    requires deep { 2 * depth ≤ n }
    requires some { 0 < depth }
    requires places { side.places ≤ 1024 }
    requires at { side.at < side.places }
    requires step { IsUnitStep step }
    requires span { 0 < span }
    requires most { span ≤ 32 }
    requires from { from < 2048 }
    ensures first { result.first ≡ (reached_part n depth side.places side.wraps side.at span from step).first }
    ensures count { result.count ≡ (reached_part n depth side.places side.wraps side.at span from step).count }
    ensures start { 0 < result.count → result.start ≡ offset_of n depth side.places side.wraps side.at span from result.first }
    ensures runs { cond result.runs 1 0 ≡ runs side.places side.wraps side.at step }
{
    match step {
        -1 => {
            let reached = reached_before(n, depth, side);
            Part {
                first: 0,
                count: depth_where(depth, reached, span, from),
                start: reached.saturating_sub(from * span),
                runs: side.wraps || side.at > 0,
            }
        }
        0 => own_part(n, depth, side, span, from),
        _ => {
            let reached = reached_after(n, depth, side);
            Part {
                first: n + depth,
                count: depth_where(depth, reached, span, from),
                start: reached.saturating_sub(from * span),
                runs: side.wraps || side.at + 1 < side.places,
            }
        }
    }
}

/// The part along an axis on which the region doesn't step.
fn own_part(n: usize, depth: usize, side: Side, span: usize, from: usize) -> Part
    requires edge { n ≤ 16 }
    requires deep { 2 * depth ≤ n }
    requires some { 0 < depth }
    requires places { side.places ≤ 1024 }
    requires at { side.at < side.places }
    requires span { 0 < span }
    requires most { span ≤ 32 }
    requires from { from < 2048 }
    ensures first { result.first ≡ (reached_part n depth side.places side.wraps side.at span from (pos 0)).first }
    ensures count { result.count ≡ (reached_part n depth side.places side.wraps side.at span from (pos 0)).count }
    ensures start { 0 < result.count → result.start ≡ offset_of n depth side.places side.wraps side.at span from result.first }
    ensures runs { cond result.runs 1 0 ≡ runs side.places side.wraps side.at (pos 0) }
{
    let own = side.at * n;
    let low = from * span;
    let skip = low.saturating_sub(own);
    Part {
        first: depth + skip,
        count: own_count(n, side, span, from),
        start: own.saturating_sub(low),
        runs: true,
    }
}

/// How many coordinates it has.
pub(crate) fn own_count(n: usize, side: Side, span: usize, from: usize) -> usize
    requires edge { n ≤ 16 }
    requires places { side.places ≤ 1024 }
    requires at { side.at < side.places }
    requires most { span ≤ 32 }
    requires from { from < 2048 }
    ensures count { (depth : ℕ) → result ≡ (reached_part n depth side.places side.wraps side.at span from (pos 0)).count }
    ensures few { result ≤ n }
{
    let own = side.at * n;
    let low = from * span;
    let skip = low.saturating_sub(own);
    n.min((low + span).saturating_sub(own)).saturating_sub(skip)
}
