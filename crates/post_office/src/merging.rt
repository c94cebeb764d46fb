//! Moving all envelopes between a shard's pile and a box. It takes no memory.
ghost use Rattle.std.specs.Prelude.{◌≡◌, ◌^◌, ◌+◌, ◌<◌, ◌++◌, [], Some, length, slice_get, slice_set};
ghost use Rattle.quiet_table.specs.Contents.{pool};

use crate::load::{PostBox, PostCell};
use crate::pile::Pile;
use phase_core::Phase;

// Moves all of the box behind those of a pile.
fn pour_in<M>(mail: &mut Vec<Pile<M>>, shard: usize, envelopes: &mut Pile<M>)
    requires within { shard < length mail.old.items }
    requires few { length (pool mail.old.items) + length envelopes.old < 2 ^ 62 }
    ensures moved { (es : _) × (slice_get mail.old.items shard ≡ Some es) × (mail.new.items ≡ slice_set mail.old.items shard (es ++ envelopes.old)) }
    ensures emptied { envelopes.new ≡ [] }
{
    let pile = &mut mail[shard];
    pile.append(envelopes);
}

// Moves all of a pile behind those of the box.
fn pour_out<M>(mail: &mut Vec<Pile<M>>, shard: usize, envelopes: &mut Pile<M>)
    requires within { shard < length mail.old.items }
    requires few { length (pool mail.old.items) + length envelopes.old < 2 ^ 62 }
    ensures moved { (es : _) × (slice_get mail.old.items shard ≡ Some es) × (envelopes.new ≡ envelopes.old ++ es) }
    ensures emptied { mail.new.items ≡ slice_set mail.old.items shard [] }
{
    let pile = &mut mail[shard];
    envelopes.append(pile);
}

/// Moves what lies in the shard's box behind what waits.
pub(crate) fn merge<P: Phase>(served: PostCell<P>, inbox: PostBox<P>) -> (PostCell<P>, PostBox<P>)
    requires same { (inbox.owners.value.items ≡ served.owners.value.items) × (inbox.shard ≡ served.shard) }
    requires few { length (pool served.mail.items) + length served.fresh.items + length inbox.envelopes < 2 ^ 62 }
    ensures kept { (result.0.phase ≡ served.phase) × (result.0.first ≡ served.first) × (result.0.owners ≡ served.owners) × (result.0.shard ≡ served.shard) × (result.0.cells ≡ served.cells) × (result.0.fresh ≡ served.fresh) }
    ensures moved { (es : _) × (slice_get served.mail.items served.shard ≡ Some es) × (result.0.mail.items ≡ slice_set served.mail.items served.shard (es ++ inbox.envelopes)) }
    ensures emptied { (result.1.envelopes ≡ []) × (result.1.owners ≡ inbox.owners) × (result.1.shard ≡ inbox.shard) }
{
    let PostCell {
        phase,
        first,
        owners,
        shard,
        cells,
        mut mail,
        fresh,
    } = served;
    let PostBox {
        owners: box_owners,
        shard: box_shard,
        mut envelopes,
        room,
    } = inbox;
    pour_in(&mut mail, shard as usize, &mut envelopes);
    let served = PostCell {
        phase,
        first,
        owners,
        shard,
        cells,
        mail,
        fresh,
    };
    let inbox = PostBox {
        owners: box_owners,
        shard: box_shard,
        envelopes,
        room,
    };
    (served, inbox)
}

/// Moves what goes out to a shard into its box.
pub(crate) fn post<P: Phase>(served: PostCell<P>, inbox: PostBox<P>) -> (PostCell<P>, PostBox<P>)
    requires same { inbox.owners.value.items ≡ served.owners.value.items }
    requires within { inbox.shard < length served.mail.items }
    requires few { length (pool served.mail.items) + length inbox.envelopes < 2 ^ 62 }
    ensures kept { (result.0.phase ≡ served.phase) × (result.0.first ≡ served.first) × (result.0.owners ≡ served.owners) × (result.0.shard ≡ served.shard) × (result.0.cells ≡ served.cells) × (result.0.fresh ≡ served.fresh) }
    ensures moved { (es : _) × (slice_get served.mail.items inbox.shard ≡ Some es) × (result.1.envelopes ≡ inbox.envelopes ++ es) }
    ensures emptied { (result.0.mail.items ≡ slice_set served.mail.items inbox.shard []) × (result.1.owners ≡ inbox.owners) × (result.1.shard ≡ inbox.shard) }
{
    let PostCell {
        phase,
        first,
        owners,
        shard,
        cells,
        mut mail,
        fresh,
    } = served;
    let PostBox {
        owners: box_owners,
        shard: box_shard,
        mut envelopes,
        room,
    } = inbox;
    pour_out(&mut mail, box_shard as usize, &mut envelopes);
    let served = PostCell {
        phase,
        first,
        owners,
        shard,
        cells,
        mail,
        fresh,
    };
    let inbox = PostBox {
        owners: box_owners,
        shard: box_shard,
        envelopes,
        room,
    };
    (served, inbox)
}
