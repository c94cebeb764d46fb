//! Handling what waits at a shard.
ghost use Rattle.std.specs.Prelude.{◌≡◌, ◌<◌, ◌≤◌, ◌++◌, ◌∷◌, [], ℕ, All, OnOk, OnErr, Some, drop, length, slice_get, slice_set, take, true};
ghost use Rattle.quiet_table.specs.Contents.{pool};
ghost use Rattle.post_office.specs.Shares.{IsFor, Ranked, Sorted, rank};
ghost use Rattle.post_office.specs.Posts.{Standing, Turns, after, stood};
ghost use Rattle.post_office.specs.Lemmas.Handled.{HandledFirst, HandledInOrder};

use crate::load::PostCell;
use crate::mail::sort_out;
use crate::pile::Pile;
use cello_num::Memory;
use phase_core::{Envelope, Outbox, Phase};
use std::alloc::Global;
use std::snapshot::Snapshot;

/// What was handled and sent, and whether all that waited was handled.
#[derive(Clone, Copy, Debug, PartialEq, Eq)]
pub(crate) struct Tally {
    pub handled: u64,
    pub sent: u64,
    pub whole: bool,
}

// How many envelopes were handled one after another, and whether memory lasted.
#[derive(Clone, Copy, Debug, PartialEq, Eq)]
struct Round {
    handled: usize,
    lasted: bool,
}

// Handles one envelope at its cell. What it sends goes behind what was sent. The first cells are for the proof of the
// call alone.
#[inline(always)]
fn handle_one<P: Phase>(
    alloc: Global,
    phase: &P,
    _first: &Snapshot<Vec<P::Cell>>,
    owners: &[u8],
    ranks: &[u32],
    shard: u32,
    cells: &mut Vec<P::Cell>,
    envelope: &Envelope<P::Msg>,
    out: &mut Outbox<P::Msg>,
) -> Result<(), Memory>
    requires ours { IsFor owners.now shard envelope.now }
    requires ranked { Ranked owners.now ranks.now }
    requires stands { (rest : _) × Standing P.problem P.holds P.weight P.start_weight owners.now shard (stood P.problem phase.now _first.now.value.items cells.old.items) (envelope.now ∷ rest) }
    ensures done { OnOk result ((c : _) × (slice_get cells.old.items (rank owners.now shard envelope.now.to) ≡ Some c) × (cells.new.items ≡ slice_set cells.old.items (rank owners.now shard envelope.now.to) (P.react (P.problem phase.now _first.now.value.items) envelope.now.to c envelope.now.msg).cell) × (out.new.items ≡ out.old.items ++ (P.react (P.problem phase.now _first.now.value.items) envelope.now.to c envelope.now.msg).sent)) }
    ensures none { OnErr result ((cells.new.items ≡ cells.old.items) × (out.new.items ≡ out.old.items)) }
{
    let place = ranks[envelope.to as usize] as usize;
    let cell = &mut cells[place];
    phase.handle(alloc, envelope.to, cell, &envelope.msg, out)?;
    Ok(())
}

// Handles the envelopes of a page, in order, as far as memory lasts.
fn handle_page<P: Phase>(
    alloc: Global,
    phase: &P,
    first: &Snapshot<Vec<P::Cell>>,
    owners: &[u8],
    ranks: &[u32],
    shard: u32,
    cells: &mut Vec<P::Cell>,
    page: &[Envelope<P::Msg>],
    out: &mut Outbox<P::Msg>,
) -> Round
    requires none_sent { out.old.items ≡ [] }
    requires ours { All (λ e. IsFor owners.now shard e) page.now }
    requires ranked { Ranked owners.now ranks.now }
    requires stands { (rest : _) × Standing P.problem P.holds P.weight P.start_weight owners.now shard (stood P.problem phase.now first.now.value.items cells.old.items) (page.now ++ rest) }
    ensures handled { (result.handled ≤ length page.now) × HandledInOrder (P.react (P.problem phase.now first.now.value.items)) owners.now shard (take result.handled page.now) cells.old.items cells.new.items out.new.items }
    ensures all { result.lasted ≡ true → result.handled ≡ length page.now }
{
    let mut handled: usize = 0;
    for envelope in page {
        match handle_one(
            alloc, phase, first, owners, ranks, shard, cells, envelope, out,
        ) {
            Ok(()) => handled += 1,
            Err(Memory) => {
                return Round {
                    handled,
                    lasted: false,
                };
            }
        }
    }
    Round {
        handled,
        lasted: true,
    }
}

// Passes over the first envelopes of a pile.
fn pass<M: Drop>(mail: &mut Vec<Pile<M>>, shard: usize, count: usize)
    requires within { (es : _) × (slice_get mail.old.items shard ≡ Some es) × (count ≤ length es) }
    ensures { (es : _) → slice_get mail.old.items shard ≡ Some es → mail.new.items ≡ slice_set mail.old.items shard (drop count es) }
{
    let pile = &mut mail[shard];
    pile.pass(count);
}

// Lets go of the handled pages of a pile.
fn let_go<M: Drop>(mail: &mut Vec<Pile<M>>, shard: usize)
    requires within { shard < length mail.old.items }
    ensures { mail.new.items ≡ mail.old.items }
{
    let pile = &mut mail[shard];
    pile.let_go();
}

// Handles the first page of what waits, in order, as far as memory lasts. Where none waits, the handled ones are let go.
fn handle_round<P: Phase>(
    alloc: Global,
    phase: &P,
    first: &Snapshot<Vec<P::Cell>>,
    owners: &[u8],
    ranks: &[u32],
    shard: u32,
    cells: &mut Vec<P::Cell>,
    mail: &mut Vec<Pile<P::Msg>>,
    out: &mut Outbox<P::Msg>,
) -> Round
    requires none_sent { out.old.items ≡ [] }
    requires within { shard < length mail.old.items }
    requires sorted { Sorted owners.now mail.old.items }
    requires ranked { Ranked owners.now ranks.now }
    requires stands { Standing P.problem P.holds P.weight P.start_weight owners.now shard (stood P.problem phase.now first.now.value.items cells.old.items) (pool mail.old.items) }
    ensures handled { HandledFirst (P.react (P.problem phase.now first.now.value.items)) owners.now shard result.handled mail.old.items mail.new.items cells.old.items cells.new.items out.new.items }
    ensures ended { result.lasted ≡ true → result.handled ≡ 0 → (slice_get mail.new.items shard ≡ Some []) × (out.new.items ≡ []) }
{
    let pile = &mail[shard as usize];
    if pile.is_empty() {
        let_go(mail, shard as usize);
        return Round {
            handled: 0,
            lasted: true,
        };
    }
    let page = pile.first_page();
    let round = handle_page(alloc, phase, first, owners, ranks, shard, cells, page, out);
    pass(mail, shard as usize, round.handled);
    round
}

// Handles what waits, in order, and what that sends to cells of the shard itself, until nothing waits or memory is
// wanting.
fn serve_all<P: Phase>(
    alloc: Global,
    phase: &P,
    first: &Snapshot<Vec<P::Cell>>,
    owners: &[u8],
    ranks: &[u32],
    shard: u32,
    cells: &mut Vec<P::Cell>,
    mail: &mut Vec<Pile<P::Msg>>,
    fresh: &mut Vec<Envelope<P::Msg>>,
    out: &mut Outbox<P::Msg>,
) -> Tally
    requires none_sent { out.old.items ≡ [] }
    requires within { (shard < length mail.old.items) × All (λ o. o < length mail.old.items) owners.now }
    requires addressed { All (λ e. e.to < length owners.now) fresh.old.items }
    requires sorted { Sorted owners.now mail.old.items }
    requires ranked { Ranked owners.now ranks.now }
    requires stands { Standing P.problem P.holds P.weight P.start_weight owners.now shard (stood P.problem phase.now first.now.value.items cells.old.items) (pool mail.old.items ++ fresh.old.items) }
    ensures turns { Turns P.react owners.now shard (stood P.problem phase.now first.now.value.items cells.old.items) (pool mail.old.items ++ fresh.old.items) result.sent result.handled (stood P.problem phase.now first.now.value.items cells.new.items) (pool mail.new.items ++ fresh.new.items) }
    ensures addressed { All (λ e. e.to < length owners.now) fresh.new.items }
    ensures sorted { Sorted owners.now mail.new.items }
    ensures count { length mail.new.items ≡ length mail.old.items }
    ensures whole { result.whole ≡ true → (slice_get mail.new.items shard ≡ Some []) × (fresh.new.items ≡ []) }
{
    let mut handled: u64 = 0;
    let mut sent: u64 = 0;
    while sort_out(owners, fresh, mail) {
        let round = handle_round(alloc, phase, first, owners, ranks, shard, cells, mail, out);
        out.swap(fresh);
        handled += round.handled as u64;
        sent += fresh.len() as u64;
        if !round.lasted {
            break;
        }
        if round.handled == 0 {
            return Tally {
                handled,
                sent,
                whole: true,
            };
        }
    }
    Tally {
        handled,
        sent,
        whole: false,
    }
}

/// Handles what waits at the shard, in order, as far as memory lasts.
pub(crate) fn serve<P: Phase>(
    alloc: Global,
    phase: &P,
    owners: &[u8],
    ranks: &[u32],
    served: PostCell<P>,
) -> (PostCell<P>, Tally)
    requires about { (served.phase.value ≡ phase.now) × (served.owners.value.items ≡ owners.now) }
    requires ranked { Ranked owners.now ranks.now }
    requires stands { Standing P.problem P.holds P.weight P.start_weight served.owners.value.items served.shard (stood P.problem served.phase.value served.first.value.items served.cells.items) (pool served.mail.items ++ served.fresh.items) }
    ensures kept { (result.0.phase ≡ served.phase) × (result.0.first ≡ served.first) × (result.0.owners ≡ served.owners) × (result.0.shard ≡ served.shard) × (length result.0.mail.items ≡ length served.mail.items) }
    ensures turns { Turns P.react served.owners.value.items served.shard (stood P.problem served.phase.value served.first.value.items served.cells.items) (pool served.mail.items ++ served.fresh.items) result.1.sent result.1.handled (stood P.problem served.phase.value served.first.value.items result.0.cells.items) (pool result.0.mail.items ++ result.0.fresh.items) }
    ensures whole { result.1.whole ≡ true → (slice_get result.0.mail.items served.shard ≡ Some []) × (result.0.fresh.items ≡ []) }
{
    let PostCell {
        phase: known,
        first,
        owners: owned,
        shard,
        mut cells,
        mut mail,
        mut fresh,
    } = served;
    let mut out = Outbox::new(alloc);
    let tally = serve_all(
        alloc, phase, &first, owners, ranks, shard, &mut cells, &mut mail, &mut fresh, &mut out,
    );
    let served = PostCell {
        phase: known,
        first,
        owners: owned,
        shard,
        cells,
        mail,
        fresh,
    };
    (served, tally)
}
