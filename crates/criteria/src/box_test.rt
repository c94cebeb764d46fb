//! The wish by a box.
ghost use Rattle.std.specs.Prelude.{◌≡◌, ◌≤◌, ◌<◌};
ghost use Rattle.params_check.specs.Limits.{IsCorner};
ghost use Rattle.block_index.specs.Places.{deepest};
ghost use Rattle.criteria.specs.Lemmas.Bounds.{widest_block, most_root_cells, most_across};
ghost use Rattle.criteria.specs.Wishes.{meets_along, meets_box, box_wish};

use block_index::{Place, Wish};

/// Whether along one axis the box from `low` to `high` shares cells with the block at coordinate `x` of a level.
fn meets_along(block: u16, low: u16, high: u16, level: u8, x: u16) -> bool
    requires block { block ≤ widest_block }
    requires low { low ≤ most_root_cells }
    requires high { high ≤ most_root_cells }
    requires level { level ≤ deepest }
    requires x { x < most_across }
    ensures meets { result ≡ meets_along block low high level x }
{
    let cells = 1u32 << level;
    let block = u32::from(block);
    let x = u32::from(x);
    low < high && x * block < u32::from(high) * cells && u32::from(low) * cells < (x + 1) * block
}

fn meets_box(block: u16, low: &[u16; 3], high: &[u16; 3], place: Place) -> bool
    requires block { block ≤ widest_block }
    requires low { IsCorner low.now }
    requires high { IsCorner high.now }
    ensures meets { result ≡ meets_box block low.now high.now place }
{
    let level = place.level();
    meets_along(block, low[0], high[0], level, place.x())
        && meets_along(block, low[1], high[1], level, place.y())
        && meets_along(block, low[2], high[2], level, place.z())
}

/// The wish by one box for one level.
pub(crate) fn box_wish(block: u16, low: &[u16; 3], high: &[u16; 3], level: u8, place: Place) -> Wish
    requires block { block ≤ widest_block }
    requires low { IsCorner low.now }
    requires high { IsCorner high.now }
    ensures wish { result ≡ box_wish block low.now high.now level place }
{
    if !meets_box(block, low, high, place) {
        return Wish::Coarsen;
    }
    if place.level() < level {
        Wish::Refine
    } else if place.level() > level {
        Wish::Coarsen
    } else {
        Wish::Stay
    }
}
