//! Putting what was sent onto the pile of the shard that it is for.
ghost use Rattle.std.specs.Prelude.{◌≡◌, ◌<◌, ◌++◌, ◌∷◌, [], All, IsPermutation, IfSome, IfNone, Some, length, slice_get, slice_set, slice_index, true};
ghost use Rattle.quiet_table.specs.Contents.{pool};
ghost use Rattle.post_office.specs.Shares.{Sorted};

use crate::pile::Pile;
use phase_core::Envelope;

// Puts an envelope behind those of a pile, or gives it back where memory is wanting.
#[inline(always)]
pub(crate) fn put<M: Drop>(
    mail: &mut Vec<Pile<M>>,
    shard: usize,
    envelope: Envelope<M>,
) -> Option<Envelope<M>>
    requires within { shard < length mail.old.items }
    ensures done { IfNone result ((es : _) × (slice_get mail.old.items shard ≡ Some es) × (mail.new.items ≡ slice_set mail.old.items shard (es ++ envelope ∷ []))) }
    ensures back { IfSome result (λ e. (e ≡ envelope) × (mail.new.items ≡ mail.old.items)) }
{
    let pile = &mut mail[shard];
    pile.push(envelope)
}

/// Puts all that was sent onto the piles, from the back, as far as memory lasts, and says whether it did.
pub(crate) fn sort_out<M: Drop>(
    owners: &[u8],
    fresh: &mut Vec<Envelope<M>>,
    mail: &mut Vec<Pile<M>>,
) -> bool
    requires within { All (λ o. o < length mail.old.items) owners.now }
    requires addressed { All (λ e. e.to < length owners.now) fresh.old.items }
    requires sorted { Sorted owners.now mail.old.items }
    ensures same { IsPermutation (pool mail.old.items ++ fresh.old.items) (pool mail.new.items ++ fresh.new.items) }
    ensures sorted { Sorted owners.now mail.new.items }
    ensures count { length mail.new.items ≡ length mail.old.items }
    ensures addressed { All (λ e. e.to < length owners.now) fresh.new.items }
    ensures whole { result ≡ true → fresh.new.items ≡ [] }
{
    while let Some(envelope) = fresh.pop() {
        let shard = owners[envelope.to as usize] as usize;
        if let Some(envelope) = put(mail, shard, envelope) {
            fresh.push_reserved(envelope);
            return false;
        }
    }
    true
}
