//! The wish by the amounts of cells. The greatest of them decides.
ghost use Rattle.std.specs.Prelude.{◌≡◌, ◌<◌, length, slice_index};
ghost use Rattle.block_fields.specs.Blocks.{seen_at};
ghost use Rattle.params_check.specs.declared.criterion.Test.TheVariants.{Mass};
ghost use Rattle.criteria.specs.Lemmas.CellWishes.{greatest_below, plane_wish, wish_below};

use crate::cell::number_wish;
use block_fields::Block;
use block_index::Wish;

/// The wish of a block.
pub(crate) fn mass_wish(block: &Block, field: u8, refine: u64, coarsen: u64) -> Wish
    requires field { field < length block.now.amounts }
    ensures wish { result ≡ wish_below block.now.edge (plane_wish block.now.edge (seen_at block.now) (Mass field refine coarsen)) }
{
    number_wish(refine, coarsen, greatest_amount(block.field(field)))
}

/// The greatest of a list of amounts.
fn greatest_amount(amounts: &[u64]) -> u64
    ensures greatest { result ≡ greatest_below (length amounts.now) (slice_index amounts.now) }
{
    let mut greatest = 0u64;
    for q in amounts {
        greatest = greatest.max(*q);
    }
    greatest
}
