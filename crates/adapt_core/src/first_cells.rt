//! The cells with which a phase over a leaf set begins.

ghost use Rattle.std.specs.Prelude.{◌≡◌, ◌<◌, ◌≤◌, All, IfOk, length};
ghost use Rattle.leaf_set.specs.Meshes.{most_leaves};
ghost use Rattle.adapt_core.specs.Lemmas.FirstCells.{AreFirstCells, IsFirstCell};
ghost use Rattle.adapt_core.specs.Problem.{siblings_among};

use crate::cell::AdaptCell;
use crate::siblings::are_siblings;
use block_index::{Place, Wish};
use cello_neighbours::touching;
use cello_num::Memory;
use leaf_set::LeafSet;
use sibling_rule::opening;
use std::alloc::Global;

/// How many leaves can be siblings of one.
const MOST_SIBLINGS: usize = 7;

/// The cells of a leaf set before anything is handled, in the order of the leaves.
pub(crate) fn first_cells(
    alloc: Global,
    set: &LeafSet,
    wishes: &[Wish],
) -> Result<Vec<AdaptCell>, Memory>
    requires { length wishes.now ≡ length set.now.places }
    ensures { IfOk result (λ cells. AreFirstCells set.now.grid set.now.places wishes.now cells.items) }
{
    let openings = opening(alloc, set, wishes)?;
    let mut cells = Vec::with_capacity(alloc, set.len())?;
    for at in 0..set.len() {
        cells.push(first_cell(alloc, set, wishes, &openings, at)?)?;
    }
    Ok(cells)
}

/// The cell of the leaf at position `at` before anything is handled.
pub(crate) fn first_cell(
    alloc: Global,
    set: &LeafSet,
    wishes: &[Wish],
    openings: &[u8],
    at: usize,
) -> Result<AdaptCell, Memory>
    requires leaf { at < length set.now.places }
    requires limit { length set.now.places ≤ most_leaves }
    requires wishes { length wishes.now ≡ length set.now.places }
    requires openings { length openings.now ≡ length set.now.places }
    ensures { IfOk result (λ cell. IsFirstCell set.now.grid set.now.places wishes.now openings.now at cell) }
{
    let place = set.place(at);
    let (wish, opening) = (wishes[at], openings[at]);
    let neighbours = Vec::from_slice(alloc, touching(set, at).items())?;
    let siblings = siblings_among(alloc, set, place, &neighbours)?;
    Ok(AdaptCell::unopened(at as u32, place, wish, opening, neighbours, siblings))
}

/// Those of the leaves at these positions that are siblings of a place.
fn siblings_among(
    alloc: Global,
    set: &LeafSet,
    place: Place,
    leaves: &[u32],
) -> Result<Vec<u32>, Memory>
    requires below { All (λ j. j < length set.now.places) leaves.now }
    ensures { IfOk result (λ siblings. siblings.items ≡ siblings_among set.now.places place leaves.now) }
{
    let mut siblings = Vec::with_capacity(alloc, MOST_SIBLINGS)?;
    for j in leaves {
        if are_siblings(place, set.place(*j as usize)) {
            siblings.push(*j)?;
        }
    }
    Ok(siblings)
}
