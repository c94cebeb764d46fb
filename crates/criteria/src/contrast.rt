//! The wish by how much the 27 samples at cells and around them differ: their greatest and least, axis by axis.
ghost use Rattle.std.specs.Prelude.{◌≡◌, ℕ, ◌+◌, ◌-◌, ◌<◌, ◌≤◌, length, max, min, slice_index};
ghost use Rattle.block_fields.specs.Blocks.{seen_at};
ghost use Rattle.params_check.specs.declared.criterion.Test.TheVariants.{Contrast};
ghost use Rattle.criteria.specs.Cells.{greatest_near, least_near};
ghost use Rattle.criteria.specs.Lemmas.CellWishes.{number_wish, plane_wish, row_wish, wish_below};
ghost use Rattle.criteria.specs.Lemmas.Rows.{HoldsColumn, greatest_three, least_three};
ghost use Rattle.criteria.specs.Samples.{before};

use crate::cell::{greater, is_refine, number_wish};
use crate::extremes::{greatest_of, least_of};
use crate::row::{LONGEST, row_at};
use block_fields::Block;
use block_index::Wish;

/// The wish of a block, plane by plane.
pub(crate) fn contrast_wish(block: &Block, field: u8, refine: u64, coarsen: u64) -> Wish
    requires field { field < length block.now.amounts }
    ensures wish { result ≡ wish_below block.now.edge (plane_wish block.now.edge (seen_at block.now) (Contrast field refine coarsen)) }
{
    let mut wish = Wish::Coarsen;
    for z in 0..block.edge() {
        wish = greater(wish, contrast_plane(block, field, refine, coarsen, z));
        if is_refine(wish) {
            return wish;
        }
    }
    wish
}

/// For each cell of a row the greatest and the least of the three samples at it, below it and above it.
#[derive(Clone, Copy)]
struct Column {
    greatest: [u64; LONGEST],
    least: [u64; LONGEST],
}

/// The column of the row at one coordinate, around the other.
fn column_at(block: &Block, field: u8, y: u16, z: u16) -> Column
    requires field { field < length block.now.amounts }
    requires y { y < block.now.edge + 2 }
    requires z { z < block.now.edge }
    ensures column { HoldsColumn block.now field y z result.greatest result.least }
{
    let width = block.edge() as usize + 2;
    let low = row_at(block, field, y, z);
    let here = row_at(block, field, y, z + 1);
    let high = row_at(block, field, y, z + 2);
    Column {
        greatest: greatest_of(&low, &here, &high, width),
        least: least_of(&low, &here, &high, width),
    }
}

/// The wish of a plane of cells.
fn contrast_plane(block: &Block, field: u8, refine: u64, coarsen: u64, z: u16) -> Wish
    requires field { field < length block.now.amounts }
    requires z { z < block.now.edge }
    ensures wish { result ≡ plane_wish block.now.edge (seen_at block.now) (Contrast field refine coarsen) z }
{
    let n = block.edge();
    let mut wish = Wish::Coarsen;
    let mut low = column_at(block, field, 0, z);
    let mut here = column_at(block, field, 1, z);
    for y in 0..n {
        let high = column_at(block, field, y + 2, z);
        wish = greater(
            wish,
            contrast_row(&low, &here, &high, n as usize, refine, coarsen),
        );
        if is_refine(wish) {
            return wish;
        }
        low = here;
        here = high;
    }
    wish
}

/// The wish of a row of cells, from the columns before it, at it and past it.
fn contrast_row(
    low: &Column,
    here: &Column,
    high: &Column,
    n: usize,
    refine: u64,
    coarsen: u64,
) -> Wish
    requires most { n ≤ 16 }
    ensures wish { result ≡ wish_below n (λ x. number_wish refine coarsen (
        greatest_three (λ u. max (slice_index low.now.greatest u) (max (slice_index here.now.greatest u) (slice_index high.now.greatest u))) x
        - least_three (λ u. min (slice_index low.now.least u) (min (slice_index here.now.least u) (slice_index high.now.least u))) x)) }
{
    let greatest = greatest_of(&low.greatest, &here.greatest, &high.greatest, n + 2);
    let least = least_of(&low.least, &here.least, &high.least, n + 2);
    spread_row(&greatest, &least, n, refine, coarsen)
}

/// The same from the greatest and the least across the row.
fn spread_row(
    greatest: &[u64; LONGEST],
    least: &[u64; LONGEST],
    n: usize,
    refine: u64,
    coarsen: u64,
) -> Wish
    requires most { n ≤ 16 }
    ensures wish { result ≡ wish_below n (λ x. number_wish refine coarsen (greatest_three (slice_index greatest.now) x - least_three (slice_index least.now) x)) }
{
    let mut wish = Wish::Coarsen;
    for x in 0..n {
        let most = greatest[x].max(greatest[x + 1].max(greatest[x + 2]));
        let fewest = least[x].min(least[x + 1].min(least[x + 2]));
        wish = greater(
            wish,
            number_wish(refine, coarsen, most.saturating_sub(fewest)),
        );
        if is_refine(wish) {
            return wish;
        }
    }
    wish
}
