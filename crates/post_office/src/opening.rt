//! Opening a post: the cells by shard, and their start messages.
ghost use Rattle.std.specs.Prelude.{◌≡◌, ◌<◌, ◌≤◌, ◌^◌, IfOk, All, [], length, map};
ghost use Rattle.std.proofs.Common.{replicate};
ghost use Rattle.post_office.specs.Shares.{Ranked, rank};
ghost use Rattle.post_office.specs.Lemmas.Dealt.{Bare, Dealt};

use crate::load::{PostBox, PostCell};
use crate::pile::Pile;
use cello_num::Memory;
use phase_core::Phase;
use quiet_table::Load;
use std::alloc::Global;
use std::snapshot::Snapshot;

fn zeros(alloc: Global, count: usize) -> Result<Vec<u32>, Memory>
    ensures { IfOk result (λ v. v.items ≡ replicate count 0) }
{
    let mut zeros = Vec::new(alloc);
    for _ in 0..count {
        zeros.push(0)?;
    }
    Ok(zeros)
}

/// The place of each cell among those of its shard.
pub(crate) fn rank_all(alloc: Global, owners: &[u8], shards: u32) -> Result<Vec<u32>, Memory>
    requires few { length owners.now < 2 ^ 32 }
    requires within { All (λ o. o < shards) owners.now }
    ensures ranked { IfOk result (λ ranks. Ranked owners.now ranks.items) }
{
    let mut counts = zeros(alloc, shards as usize)?;
    let mut ranks = Vec::new(alloc);
    for i in 0..owners.len() {
        let owner = owners[i] as usize;
        ranks.push(counts[owner])?;
        counts[owner] += 1;
    }
    Ok(ranks)
}

// Piles without an envelope.
pub(crate) fn empty_piles<M: Drop>(alloc: Global, count: usize) -> Result<Vec<Pile<M>>, Memory>
    ensures { IfOk result (λ mail. mail.items ≡ replicate count []) }
{
    let mut mail = Vec::new(alloc);
    for _ in 0..count {
        mail.push(Pile::new(alloc))?;
    }
    Ok(mail)
}

// A shard's cell without cells, with room for its part of them where all shards own as many.
fn empty_cell<P: Phase>(
    alloc: Global,
    phase: &P,
    first: &Vec<P::Cell>,
    owners: &Vec<u8>,
    shards: u32,
    shard: u32,
) -> Result<PostCell<P>, Memory>
    requires within { (shard < shards) × All (λ o. o < shards) owners.now.items }
    ensures about { IfOk result (λ c. (c.phase.value ≡ phase.now) × (c.first.value.items ≡ first.now.items) × (c.owners.value.items ≡ owners.now.items) × (c.shard ≡ shard)) }
    ensures bare { IfOk result (λ c. (c.cells.items ≡ []) × (c.mail.items ≡ replicate shards []) × (c.fresh.items ≡ [])) }
{
    let mail = empty_piles(alloc, shards as usize)?;
    let cells = Vec::with_capacity(alloc, owners.len() / shards as usize + 1)?;
    Ok(PostCell {
        phase: Snapshot::of(phase),
        first: Snapshot::of(first),
        owners: Snapshot::of(owners),
        shard,
        cells,
        mail,
        fresh: Vec::new(alloc),
    })
}

/// A cell for each shard, without cells.
pub(crate) fn empty_cells<P: Phase>(
    alloc: Global,
    phase: &P,
    first: &Vec<P::Cell>,
    owners: &Vec<u8>,
    shards: u32,
) -> Result<Vec<PostCell<P>>, Memory>
    requires within { All (λ o. o < shards) owners.now.items }
    ensures dealt { IfOk result (λ cells. Dealt phase.now (P.problem phase.now first.now.items) owners.now.items P.start shards [] (map ⟦<PostCell<P> as Load>⟧.rest cells.items) (map ⟦<PostCell<P> as Load>⟧.parcels cells.items)) }
{
    let mut cells = Vec::new(alloc);
    for shard in 0..shards {
        let cell = empty_cell(alloc, phase, first, owners, shards, shard)?;
        cells.push(cell)?;
    }
    Ok(cells)
}

// A shard's box without an envelope.
fn empty_box<P: Phase>(alloc: Global, owners: &Vec<u8>, shard: u32) -> Result<PostBox<P>, Memory>
    ensures about { IfOk result (λ b. (b.owners.value.items ≡ owners.now.items) × (b.shard ≡ shard)) }
    ensures bare { IfOk result (λ b. b.envelopes ≡ []) }
{
    let wanted = if shard == 0 { owners.len() } else { 0 };
    let room = Vec::with_capacity(alloc, wanted)?;
    Ok(PostBox {
        owners: Snapshot::of(owners),
        shard,
        envelopes: Pile::new(alloc),
        room,
    })
}

/// A box for each shard, without an envelope.
pub(crate) fn empty_boxes<P: Phase>(
    alloc: Global,
    owners: &Vec<u8>,
    shards: u32,
) -> Result<Vec<PostBox<P>>, Memory>
    ensures bare { IfOk result (λ boxes. Bare owners.now.items shards (map ⟦<PostBox<P> as Load>⟧.rest boxes.items) (map ⟦<PostBox<P> as Load>⟧.parcels boxes.items)) }
{
    let mut boxes = Vec::new(alloc);
    for shard in 0..shards {
        let inbox = empty_box(alloc, owners, shard)?;
        boxes.push(inbox)?;
    }
    Ok(boxes)
}
