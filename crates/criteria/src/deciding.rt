//! The wish of a block.
ghost use Rattle.std.specs.Prelude.{◌≡◌, ℕ, All, length};
ghost use Rattle.block_fields.specs.Blocks.{seen_at};
ghost use Rattle.block_fields.specs.BlockStates.{HoldsSamples, IsLeafOf};
ghost use Rattle.block_fields.specs.States.{IsState, State};
ghost use Rattle.params_check.specs.Limits.{KeepsCriterion, KeepsTest};
ghost use Rattle.criteria.specs.Samples.{IsSmall};
ghost use Rattle.criteria.specs.Wishes.{criteria_wish, test_wish, wish_of};

use crate::box_test::box_wish;
use crate::cell::{greater, is_refine};
use crate::contrast::contrast_wish;
use crate::mass::mass_wish;
use crate::slope::slope_wish;
use block_fields::Block;
use block_index::Wish;
use params_check::{Criterion, Test};

/// The wish of a block in a phase: the greatest of the active criteria. It reads the block's own amounts, and of its
/// ghosts those next to its cells.
pub fn wish(block: &Block, criteria: &[Criterion], phase: u32) -> Wish
    requires limits { All (KeepsCriterion (length block.now.amounts)) criteria.now }
    requires small { IsSmall block.now }
    ensures wish { result ≡ criteria_wish block.now.edge phase criteria.now (seen_at block.now) block.now.place }
    ensures of_state { (s : State) (i : ℕ) → IsState s → IsLeafOf s i block.now → HoldsSamples s block.now →
        result ≡ wish_of phase criteria.now s block.now.place }
{
    criteria_wish(block, block.edge(), criteria, phase)
}

/// The greatest wish of the active criteria. It stops where that is Refine.
fn criteria_wish(block: &Block, edge: u16, criteria: &[Criterion], phase: u32) -> Wish
    requires edge { edge ≡ block.now.edge }
    requires limits { All (KeepsCriterion (length block.now.amounts)) criteria.now }
    requires small { IsSmall block.now }
    ensures wish { result ≡ criteria_wish block.now.edge phase criteria.now (seen_at block.now) block.now.place }
{
    let mut wish = Wish::Coarsen;
    for criterion in criteria {
        if phase <= criterion.until {
            wish = greater(wish, test_wish(block, edge, &criterion.test));
            if is_refine(wish) {
                return wish;
            }
        }
    }
    wish
}

/// The wish by one test.
fn test_wish(block: &Block, edge: u16, test: &Test) -> Wish
    requires edge { edge ≡ block.now.edge }
    requires limits { KeepsTest (length block.now.amounts) test.now }
    requires small { IsSmall block.now }
    ensures wish { result ≡ test_wish block.now.edge (seen_at block.now) test.now block.now.place }
{
    match test {
        Test::Region { low, high, level } => box_wish(edge, low, high, *level, block.place()),
        Test::Mass {
            field,
            refine,
            coarsen,
        } => mass_wish(block, *field, *refine, *coarsen),
        Test::Slope {
            field,
            refine,
            coarsen,
        } => slope_wish(block, *field, *refine, *coarsen),
        Test::Contrast {
            field,
            refine,
            coarsen,
        } => contrast_wish(block, *field, *refine, *coarsen),
    }
}
