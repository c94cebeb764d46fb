//! One field of a block advanced.
ghost use Rattle.std.specs.Prelude.{◌≡◌, ℕ, ◌+◌, ◌*◌, ◌^◌, ◌≤◌, ◌<◌, length, map};
ghost use Rattle.advect.specs.Lemmas.Advances.{AdvancesField, AdvancesFields, FieldAtMost, NotesFields, field_in};
ghost use Rattle.advect.specs.OwnFluxes.{HoldsAtMost};
ghost use Rattle.block_fields.specs.Blocks.{IsBlock};
ghost use Rattle.advect.specs.Lemmas.Rims.{AreSides, NotesField};
ghost use Rattle.advect.specs.Lemmas.Shares.{carried};
ghost use Rattle.advect.specs.Lemmas.Streams.{stream_flux, stream_on};

use crate::field_steps::move_field;
use crate::stream::Streams;
use block_fields::{Block, Copies};

/// Advances a field of a block into its second copy, and exchanges the two. The field's lists get the fluxes through
/// the outermost faces.
pub(crate) fn advance_field(
    block: &mut Block,
    field: u8,
    streams: Streams,
    low: &mut Vec<Vec<u64>>,
    high: &mut Vec<Vec<u64>>,
)
    requires field { field < length block.old.amounts }
    requires at_low { 3 * field + 2 < length low.old.items }
    requires at_high { 3 * field + 2 < length high.old.items }
    requires low { AreSides block.old.edge (map (λ v. v.items) low.old.items) }
    requires high { AreSides block.old.edge (map (λ v. v.items) high.old.items) }
    requires small { FieldAtMost (2 ^ 42) block.old field }
    requires held { (q : ℕ) → carried streams.x.share q + carried streams.y.share q + carried streams.z.share q ≤ q }
    ensures advances { AdvancesField streams field block.old block.new }
    ensures low { NotesField block.old.edge field (λ a. stream_flux (stream_on streams a) (field_in block.old field) a 0) (map (λ v. v.items) low.old.items) (map (λ v. v.items) low.new.items) }
    ensures high { NotesField block.old.edge field (λ a. stream_flux (stream_on streams a) (field_in block.old field) a block.old.edge) (map (λ v. v.items) high.old.items) (map (λ v. v.items) high.new.items) }
{
    let n = block.edge();
    let depth = block.depth();
    let Copies {
        amounts,
        ghosts,
        before,
    } = block.copies(field);
    move_field(amounts, ghosts, before, low, high, field, n, depth, streams);
    block.exchange(field);
}

/// Advances all fields of a block.
pub(crate) fn advance_fields(
    block: &mut Block,
    streams: Streams,
    low: &mut Vec<Vec<u64>>,
    high: &mut Vec<Vec<u64>>,
)
    requires all_low { length low.old.items ≡ 3 * length block.old.amounts }
    requires all_high { length high.old.items ≡ 3 * length block.old.amounts }
    requires low { AreSides block.old.edge (map (λ v. v.items) low.old.items) }
    requires high { AreSides block.old.edge (map (λ v. v.items) high.old.items) }
    requires small { HoldsAtMost (2 ^ 42) block.old }
    requires held { (q : ℕ) → carried streams.x.share q + carried streams.y.share q + carried streams.z.share q ≤ q }
    ensures advances { AdvancesFields streams (length block.old.amounts) block.old block.new }
    ensures low { NotesFields block.old.edge (length block.old.amounts) (λ f a. stream_flux (stream_on streams a) (field_in block.old f) a 0) (map (λ v. v.items) low.old.items) (map (λ v. v.items) low.new.items) }
    ensures high { NotesFields block.old.edge (length block.old.amounts) (λ f a. stream_flux (stream_on streams a) (field_in block.old f) a block.old.edge) (map (λ v. v.items) high.old.items) (map (λ v. v.items) high.new.items) }
    ensures limits { IsBlock block.old }
{
    for field in 0..block.fields() {
        advance_field(block, field, streams, low, high);
    }
}
