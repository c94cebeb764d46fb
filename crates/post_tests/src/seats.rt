//! A post of one leaf, which two seats bring to rest.
ghost use Rattle.std.specs.Prelude.{◌≡◌, ◌≢◌, ◌<◌, ◌∷◌, ℕ, [], IfOk, Some, slice_get, true, vec_len};
ghost use Rattle.quiet_table.specs.Views.{dealt_view};
ghost use Rattle.post_office.specs.Seats.{StaysSeat};

use crate::meshes::{mesh, wishes};
use adapt_core::{Adapt, levels};
use block_index::Wish;
use cello_num::Memory;
use leaf_set::LeafSet;
use phase_core::{Phase, Quiet};
use post_office::{Post, PostSeat, Visit};
use quiet_table::{Verdict, Wave};
use shard_map::assign;
use std::alloc::Global;

// Whether a look finds no verdict yet.
fn finds_no_verdict<P: Phase>(post: &Post<P>, seat: &mut PostSeat<P>) -> bool
    requires own { seat.old.place.table_id ≡ post.now.board.table.shared.table_id }
    ensures own { seat.new.place.table_id ≡ seat.old.place.table_id }
    ensures stays { StaysSeat seat.old.place.me.0 seat.new.place.me.0 }
{
    match post.verdict(seat) {
        Verdict::Running => true,
        Verdict::Quiet => false,
        Verdict::Stopped => false,
    }
}

// Whether a look finds that the post is at rest.
fn finds_rest<P: Phase>(post: &Post<P>, seat: &mut PostSeat<P>) -> bool
    requires own { seat.old.place.table_id ≡ post.now.board.table.shared.table_id }
    ensures own { seat.new.place.table_id ≡ seat.old.place.table_id }
    ensures stays { StaysSeat seat.old.place.me.0 seat.new.place.me.0 }
    ensures seen { result ≡ true → seat.new.place.me.0.seen ≢ 0 }
{
    match post.verdict(seat) {
        Verdict::Running => false,
        Verdict::Quiet => true,
        Verdict::Stopped => false,
    }
}

// Whether a wave counts one message sent and none handled.
fn counts_one_sent<P: Phase>(post: &Post<P>, seat: &mut PostSeat<P>) -> bool
    requires own { seat.old.place.table_id ≡ post.now.board.table.shared.table_id }
    ensures own { seat.new.place.table_id ≡ seat.old.place.table_id }
    ensures stays { StaysSeat seat.old.place.me.0 seat.new.place.me.0 }
{
    match post.wave(seat) {
        Wave::NotYet { handled, sent } => handled == 0 && sent == 1,
        Wave::Quiet => false,
        Wave::Stopped => false,
    }
}

// Whether a wave finds the post at rest.
fn counts_rest<P: Phase>(post: &Post<P>, seat: &mut PostSeat<P>) -> bool
    requires own { seat.old.place.table_id ≡ post.now.board.table.shared.table_id }
    ensures own { seat.new.place.table_id ≡ seat.old.place.table_id }
    ensures stays { StaysSeat seat.old.place.me.0 seat.new.place.me.0 }
{
    match post.wave(seat) {
        Wave::NotYet {
            handled: _,
            sent: _,
        } => false,
        Wave::Quiet => true,
        Wave::Stopped => false,
    }
}

// Whether a visit handles one message, sends none and leaves none.
fn handles_one<P: Phase>(alloc: Global, post: &Post<P>, seat: &mut PostSeat<P>) -> bool
    requires own { seat.old.place.table_id ≡ post.now.board.table.shared.table_id }
    requires some_shard { 0 < post.now.board.shards }
    requires bare { seat.old.place.me.0.hands ≡ [] }
    ensures own { seat.new.place.table_id ≡ seat.old.place.table_id }
    ensures stays { StaysSeat seat.old.place.me.0 seat.new.place.me.0 }
{
    match post.visit(alloc, seat, 0) {
        Ok(
            Visit::Done {
                handled,
                sent,
                left,
            },
        ) => handled == 1 && sent == 0 && left == 0,
        Ok(Visit::Busy { turn: _ }) => false,
        Err(Memory) => false,
    }
}

// Whether a seat finds no verdict, and then one message sent and none handled.
fn finds_one_sent<P: Phase>(post: &Post<P>, seat: &mut PostSeat<P>) -> bool
    requires own { seat.old.place.table_id ≡ post.now.board.table.shared.table_id }
    ensures own { seat.new.place.table_id ≡ seat.old.place.table_id }
    ensures stays { StaysSeat seat.old.place.me.0 seat.new.place.me.0 }
{
    let running = finds_no_verdict(post, seat);
    let one_sent = counts_one_sent(post, seat);
    running && one_sent
}

// Whether a seat handles one message, and then counts that the post is at rest.
fn brings_to_rest<P: Phase>(alloc: Global, post: &Post<P>, seat: &mut PostSeat<P>) -> bool
    requires own { seat.old.place.table_id ≡ post.now.board.table.shared.table_id }
    requires some_shard { 0 < post.now.board.shards }
    requires bare { seat.old.place.me.0.hands ≡ [] }
    ensures own { seat.new.place.table_id ≡ seat.old.place.table_id }
    ensures stays { StaysSeat seat.old.place.me.0 seat.new.place.me.0 }
{
    let one_handled = handles_one(alloc, post, seat);
    let at_rest = counts_rest(post, seat);
    one_handled && at_rest
}

// Whether the second seat finds one message sent, the first one brings the post to rest, and the second one then finds
// that it is.
fn see_rest<P: Phase>(
    alloc: Global,
    post: &Post<P>,
    first: &mut PostSeat<P>,
    second: &mut PostSeat<P>,
) -> bool
    requires own { (first.old.place.table_id ≡ post.now.board.table.shared.table_id) × (second.old.place.table_id ≡ post.now.board.table.shared.table_id) }
    requires some_shard { 0 < post.now.board.shards }
    requires bare { first.old.place.me.0.hands ≡ [] }
    ensures own_first { first.new.place.table_id ≡ first.old.place.table_id }
    ensures own_second { second.new.place.table_id ≡ second.old.place.table_id }
    ensures stays_first { StaysSeat first.old.place.me.0 first.new.place.me.0 }
    ensures stays_second { StaysSeat second.old.place.me.0 second.new.place.me.0 }
    ensures seen { result ≡ true → second.new.place.me.0.seen ≢ 0 }
{
    let one_sent = finds_one_sent(post, second);
    let brought = brings_to_rest(alloc, post, first);
    let at_rest = finds_rest(post, second);
    one_sent && brought && at_rest
}

// The two seats of a list.
fn two_seats<P: Phase>(seats: Vec<PostSeat<P>>) -> (PostSeat<P>, PostSeat<P>)
    requires two { vec_len seats ≡ 2 }
    ensures { seats.items ≡ result.0 ∷ result.1 ∷ [] }
{
    let mut seats = seats;
    let first = seats.remove(0);
    let second = seats.remove(0);
    (first, second)
}

// The seats as a list again.
fn both<P: Phase>(
    alloc: Global,
    first: PostSeat<P>,
    second: PostSeat<P>,
) -> Result<Vec<PostSeat<P>>, Memory>
    ensures { IfOk result (λ v. v.items ≡ first ∷ second ∷ []) }
{
    let mut seats = Vec::new(alloc);
    seats.push(first)?;
    seats.push(second)?;
    Ok(seats)
}

// Closes a post with its two seats, of which the second one has seen a verdict.
fn close_two<P: Phase>(
    alloc: Global,
    post: Post<P>,
    first: PostSeat<P>,
    second: PostSeat<P>,
) -> Result<Quiet<P>, Memory>
    requires own { (first.place.table_id ≡ post.board.table.shared.table_id) × (second.place.table_id ≡ post.board.table.shared.table_id) }
    requires stays_first { StaysSeat (dealt_view 2 0) first.place.me.0 }
    requires stays_second { StaysSeat (dealt_view 2 1) second.place.me.0 }
    requires seen { second.place.me.0.seen ≢ 0 }
{
    let seats = both(alloc, first, second)?;
    post.close(seats)
}

// The phase at rest, if its two seats see it come to rest.
fn close_at_rest<P: Phase>(
    alloc: Global,
    post: Post<P>,
    first: PostSeat<P>,
    second: PostSeat<P>,
) -> Result<Option<Quiet<P>>, Memory>
    requires some_shard { 0 < post.board.shards }
    requires own { (first.place.table_id ≡ post.board.table.shared.table_id) × (second.place.table_id ≡ post.board.table.shared.table_id) }
    requires dealt_first { first.place.me.0 ≡ dealt_view 2 0 }
    requires dealt_second { second.place.me.0 ≡ dealt_view 2 1 }
{
    let mut first = first;
    let mut second = second;
    if !see_rest(alloc, &post, &mut first, &mut second) {
        return Ok(None);
    }
    let quiet = close_two(alloc, post, first, second)?;
    Ok(Some(quiet))
}

// A post of the adapt phase over this mesh, whose leaves all wish to stay, with one shard and two seats.
fn open_two(alloc: Global, set: &LeafSet) -> Result<(Post<Adapt>, Vec<PostSeat<Adapt>>), Memory>
    ensures counts { IfOk result (λ r. (vec_len r.1 ≡ 2) × (r.0.board.shards ≡ 1)) }
    ensures seats { IfOk result (λ r. (i : ℕ) (s : _) → slice_get r.1.items i ≡ Some s → (s.number ≡ i) × (s.place.table_id ≡ r.0.board.table.shared.table_id) × (s.place.me.0 ≡ dealt_view 2 i)) }
{
    let wishes = wishes(alloc, Wish::Stay, set.len())?;
    let (phase, cells) = Adapt::begin(alloc, set, &wishes)?;
    let owners = assign(alloc, set, 1)?;
    Post::open(alloc, phase, cells, &owners, 1, 2)
}

// The adapt phase of this mesh at rest, if two seats see it come to rest.
fn rest_of(alloc: Global, set: &LeafSet) -> Result<Option<Quiet<Adapt>>, Memory> {
    let (post, seats) = open_two(alloc, set)?;
    let (first, second) = two_seats(seats);
    close_at_rest(alloc, post, first, second)
}

/// Whether two seats bring a lone leaf to rest by one message, and it keeps its level 0.
fn a_lone_leaf_comes_to_rest(alloc: Global) -> Option<bool> {
    let set = mesh(alloc, 1, false, 0, b"0000")?;
    let quiet = rest_of(alloc, &set).ok()??;
    let levels = levels(alloc, &quiet).ok()?;
    Some(quiet.handled() == 1 && matches!(levels.as_slice(), [0]))
}

#[test]
fn two_seats_bring_a_lone_leaf_to_rest(rt: HostRuntime) {
    assert!(rt; a_lone_leaf_comes_to_rest(rt.alloc()) == Some(true));
}
