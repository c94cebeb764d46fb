//! How many ghost coordinates of a receiver have their samples with a sender, for each step along each axis.
ghost use Rattle.std.specs.Prelude.{◌≡◌, ℕ, ◌+◌, ◌-◌, ◌*◌, ◌/◌, ◌%◌, ◌^◌, ◌<◌, ◌≤◌, ◌==◌, cond, pos};
ghost use Rattle.block_index.specs.Places.{IsInside};
ghost use Rattle.ghost_pieces.specs.Boxes.{reached_part, span};
ghost use Rattle.ghost_pieces.specs.Lemmas.Counts.{AreCounts, AreFew, count_at};

use crate::axis_parts::{Side, own_count, reached_after, reached_before};
use crate::parts::side_of;
use crate::spots::span_of;
use block_index::{Domain, Place};

/// Along an axis, how many of the coordinates before a block, of its own, and after it are moved into another block.
#[derive(Debug, Clone, Copy)]
pub(crate) struct Counts {
    pub(crate) before: usize,
    pub(crate) own: usize,
    pub(crate) after: usize,
}

impl Counts {
    /// Those of the step with a number of three.
    pub(crate) fn at(self, k: u8) -> usize
        requires number { k < 3 }
        ensures count { result ≡ count_at self.before self.own self.after k }
        ensures few { AreFew self.before self.own self.after → result ≤ 16 }
    {
        match k {
            0 => self.before,
            1 => self.own,
            _ => self.after,
        }
    }
}

/// Whether a coordinate lies in a block of an axis that is cut into blocks of `span` cells.
fn lies_in(v: usize, span: usize, block: usize) -> bool
    requires some { 0 < span }
    requires most { span ≤ 32 }
    requires block { block < 2048 }
    ensures same { result ≡ (v / span == block) }
{
    let low = block * span;
    low <= v && v < low + span
}

/// The depth, or none where a coordinate doesn't lie in a block.
pub(crate) fn depth_where(depth: usize, v: usize, span: usize, block: usize) -> usize
    requires some { 0 < span }
    requires most { span ≤ 32 }
    requires block { block < 2048 }
    ensures count { result ≡ cond (v / span == block) depth 0 }
    ensures few { result ≤ depth }
{
    if lies_in(v, span, block) { depth } else { 0 }
}

/// Along an axis how many coordinates of each step are moved into the block `from` of an axis that is cut into blocks
/// of `span` cells.
fn counts_along(n: usize, depth: usize, side: Side, span: usize, from: usize) -> Counts
    requires edge { n ≤ 16 }
    requires deep { 2 * depth ≤ n }
    requires some { 0 < depth }
    requires places { side.places ≤ 1024 }
    requires at { side.at < side.places }
    requires span { 0 < span }
    requires most { span ≤ 32 }
    requires from { from < 2048 }
    ensures counts { AreCounts n depth side.places side.wraps side.at span from result.before result.own result.after }
    ensures few { AreFew result.before result.own result.after }
{
    Counts {
        before: depth_where(depth, reached_before(n, depth, side), span, from),
        own: own_count(n, side, span, from),
        after: depth_where(depth, reached_after(n, depth, side), span, from),
    }
}

/// The same on an axis of so many trees, for a block of a level at `at`.
fn axis_counts(
    n: usize,
    depth: usize,
    trees: u16,
    wraps: bool,
    level: u8,
    at: u16,
    span: usize,
    from: u16,
) -> Counts
    requires edge { n ≤ 16 }
    requires deep { 2 * depth ≤ n }
    requires some { 0 < depth }
    requires trees { trees ≤ 16 }
    requires level { level ≤ 6 }
    requires at { at < trees * 2 ^ level }
    requires span { 0 < span }
    requires most { span ≤ 32 }
    requires from { from < 1024 }
    ensures counts { AreCounts n depth (trees * 2 ^ level) wraps at span from result.before result.own result.after }
    ensures few { AreFew result.before result.own result.after }
{
    let side = side_of(trees, wraps, level, at);
    counts_along(n, depth, side, span, from as usize)
}

/// The counts along the three axes.
#[derive(Debug, Clone, Copy)]
pub(crate) struct Reach {
    pub(crate) x: Counts,
    pub(crate) y: Counts,
    pub(crate) z: Counts,
}

/// How many coordinates of each step of a receiver have their samples with a sender. The two are one or touch.
pub(crate) fn reach_of(
    n: usize,
    depth: usize,
    domain: &Domain,
    receiver: Place,
    sender: Place,
) -> Reach
    requires least { 4 ≤ n }
    requires most { n ≤ 16 }
    requires even { n % 2 ≡ 0 }
    requires some { 0 < depth }
    requires deep { 2 * depth ≤ n }
    requires inside { IsInside domain.now receiver }
    requires near { receiver.level ≤ sender.level + 1 }
    requires far { sender.level ≤ receiver.level + 1 }
    ensures x { AreCounts n depth (domain.now.trees_x * 2 ^ receiver.level) domain.now.wraps_x receiver.x (span n receiver.level sender.level) sender.x
        result.x.before result.x.own result.x.after }
    ensures y { AreCounts n depth (domain.now.trees_y * 2 ^ receiver.level) domain.now.wraps_y receiver.y (span n receiver.level sender.level) sender.y
        result.y.before result.y.own result.y.after }
    ensures z { AreCounts n depth (domain.now.trees_z * 2 ^ receiver.level) domain.now.wraps_z receiver.z (span n receiver.level sender.level) sender.z
        result.z.before result.z.own result.z.after }
    ensures few_x { AreFew result.x.before result.x.own result.x.after }
    ensures few_y { AreFew result.y.before result.y.own result.y.after }
    ensures few_z { AreFew result.z.before result.z.own result.z.after }
{
    let [trees_x, trees_y, trees_z] = domain.array();
    let [wraps_x, wraps_y, wraps_z] = domain.periodic();
    let level = receiver.level();
    let span = span_of(n, level, sender.level());
    Reach {
        x: axis_counts(
            n,
            depth,
            trees_x,
            wraps_x,
            level,
            receiver.x(),
            span,
            sender.x(),
        ),
        y: axis_counts(
            n,
            depth,
            trees_y,
            wraps_y,
            level,
            receiver.y(),
            span,
            sender.y(),
        ),
        z: axis_counts(
            n,
            depth,
            trees_z,
            wraps_z,
            level,
            receiver.z(),
            span,
            sender.z(),
        ),
    }
}
