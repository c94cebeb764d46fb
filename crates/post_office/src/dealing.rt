//! Dealing cells out to their shards, each with its start message.
ghost use Rattle.std.specs.Prelude.{◌≡◌, ◌<◌, ◌+◌, ◌^◌, List, [], All, OnOk, Some, length, map, slice_get, slice_set};
ghost use Rattle.quiet_table.specs.Contents.{pool};
ghost use Rattle.post_office.specs.Shares.{IsFor};
ghost use Rattle.post_office.specs.Lemmas.Dealt.{Added, Dealt};

use crate::load::PostCell;
use crate::mail::put;
use cello_num::Memory;
use phase_core::{Envelope, Phase};
use quiet_table::Load;

// Puts a cell behind those of its shard, and its envelope behind what waits there.
fn add<P: Phase>(
    post: &mut PostCell<P>,
    cell: P::Cell,
    envelope: Envelope<P::Msg>,
) -> Result<(), Memory>
    requires ours { IsFor post.old.owners.value.items post.old.shard envelope }
    requires few { length (⟦<PostCell<P> as Load>⟧.parcels post.old) < 2 ^ 32 }
    ensures { OnOk result (Added (⟦<PostCell<P> as Load>⟧.rest post.old) (⟦<PostCell<P> as Load>⟧.parcels post.old) (⟦<PostCell<P> as Load>⟧.rest post.new) (⟦<PostCell<P> as Load>⟧.parcels post.new) cell envelope) }
{
    if let Some(_envelope) = put(&mut post.mail, post.shard as usize, envelope) {
        return Err(Memory);
    }
    post.cells.push(cell)?;
    Ok(())
}

// Adds a cell and its envelope to one of the shards.
fn add_at<P: Phase>(
    posts: &mut Vec<PostCell<P>>,
    shard: usize,
    cell: P::Cell,
    envelope: Envelope<P::Msg>,
) -> Result<(), Memory>
    requires within { shard < length posts.old.items }
    requires ours { (r : _) → slice_get (map ⟦<PostCell<P> as Load>⟧.rest posts.old.items) shard ≡ Some r → IsFor r.owners r.shard envelope }
    requires few { length (pool (map ⟦<PostCell<P> as Load>⟧.parcels posts.old.items)) < 2 ^ 32 }
    ensures { OnOk result ((r : _) × (es : _) × (r' : _) × (es' : _) × (slice_get (map ⟦<PostCell<P> as Load>⟧.rest posts.old.items) shard ≡ Some r) × (slice_get (map ⟦<PostCell<P> as Load>⟧.parcels posts.old.items) shard ≡ Some es) × (map ⟦<PostCell<P> as Load>⟧.rest posts.new.items ≡ slice_set (map ⟦<PostCell<P> as Load>⟧.rest posts.old.items) shard r') × (map ⟦<PostCell<P> as Load>⟧.parcels posts.new.items ≡ slice_set (map ⟦<PostCell<P> as Load>⟧.parcels posts.old.items) shard es') × Added r es r' es' cell envelope) }
{
    let post = &mut posts[shard];
    add(post, cell, envelope)?;
    Ok(())
}

/// Deals all cells out, in their order.
pub(crate) fn deal_out<P: Phase>(
    phase: &P,
    owners: &[u8],
    cells: Vec<P::Cell>,
    posts: &mut Vec<PostCell<P>>,
) -> Result<(), Memory>
    requires owned { (length owners.now ≡ length cells.items) × All (λ o. o < length posts.old.items) owners.now }
    requires few { length cells.items < 2 ^ 32 }
    requires empty { Dealt phase.now (P.problem phase.now cells.items) owners.now P.start (length posts.old.items) [] (map ⟦<PostCell<P> as Load>⟧.rest posts.old.items) (map ⟦<PostCell<P> as Load>⟧.parcels posts.old.items) }
    ensures dealt { OnOk result (Dealt phase.now (P.problem phase.now cells.items) owners.now P.start (length posts.old.items) cells.items (map ⟦<PostCell<P> as Load>⟧.rest posts.new.items) (map ⟦<PostCell<P> as Load>⟧.parcels posts.new.items)) }
{
    let mut at: u32 = 0;
    for cell in cells {
        let envelope = Envelope {
            to: at,
            msg: phase.start(at),
        };
        add_at(posts, owners[at as usize] as usize, cell, envelope)?;
        at += 1;
    }
    Ok(())
}
