//! Visits of a shard, for tests.
ghost use Rattle.std.specs.Prelude.{◌≡◌, ◌<◌, ◌≤◌, ◌+◌, ◌++◌, List, [], ◌∷◌, length, IsPermutation};
ghost use Rattle.quiet_table.specs.Views.{hand_of};
ghost use Rattle.quiet_table.specs.Lemmas.Purses.{PurseTurn};

use crate::board::{Board, BoardSeat};
use crate::purses::{Purse, Tray};
use crate::take::Take;

pub type TestBoard = Board<Purse, Tray>;

pub type TestSeat = BoardSeat<Purse, Tray>;

// Moves all of the second list behind the first, or nothing where memory is wanting.
fn pour(first: Vec<u64>, second: Vec<u64>) -> (Vec<u64>, Vec<u64>)
    ensures same { first.items ++ second.items ≡ result.0.items ++ result.1.items }
{
    let mut first = first;
    let mut second = second;
    match first.append(&mut second) {
        Ok(()) => (first, second),
        Err(_) => (first, second),
    }
}

// Moves the envelopes of a tray and of a purse to one of the two.
#[tactic(auto, using(crate::proofs::Trading::same_permutation, crate::proofs::Trading::swapped))]
fn move_all(tray: Vec<u64>, purse: Vec<u64>, into: bool) -> (Vec<u64>, Vec<u64>)
    ensures same { IsPermutation (tray.items ++ purse.items) (result.0.items ++ result.1.items) }
{
    if into {
        return pour(tray, purse);
    }
    let (purse, tray) = pour(purse, tray);
    (tray, purse)
}

// Hands each envelope on that has a credit left.
fn serve(purse: Purse) -> (Purse, u64, u64)
    ensures turn { PurseTurn purse.credits purse.envelopes.items result.1 result.2 result.0.credits result.0.envelopes.items }
{
    let Purse {
        credits,
        mut envelopes,
    } = purse;
    let handled = envelopes.len() as u64;
    let sent = credits.min(handled);
    envelopes.truncate(sent as usize);
    let purse = Purse {
        credits: credits - sent,
        envelopes,
    };
    (purse, sent, handled)
}

// Tries a box once, and moves the envelopes out of it or into it.
fn trade(
    board: &TestBoard,
    seat: &mut TestSeat,
    shard: u32,
    at: u32,
    purse: Purse,
    into: bool,
) -> Purse
    requires own { seat.old.place.table_id ≡ board.now.table.shared.table_id }
    requires within { (shard < board.now.shards) × (at < board.now.shards) }
    requires held { (es : List _) × (seat.old.place.me.0.hands ≡ hand_of shard (record { rest = purse.credits; parcels = es }) ∷ []) × IsPermutation es purse.envelopes.items }
    ensures own { seat.new.place.table_id ≡ seat.old.place.table_id }
    ensures held { (es : List _) × (seat.new.place.me.0.hands ≡ hand_of shard (record { rest = result.credits; parcels = es }) ∷ []) × IsPermutation es result.envelopes.items }
    ensures rest { seat.new.place.me.0 ≡ record seat.old.place.me.0 { hands = seat.new.place.me.0.hands; finds = seat.new.place.me.0.finds; gave = seat.new.place.me.0.gave } }
{
    match board.take_box(seat, at) {
        Take::Held { turn: _ } => purse,
        Take::Taken(tray) => {
            let Purse { credits, envelopes } = purse;
            let (tray, envelopes) = move_all(tray.envelopes, envelopes, into);
            board.give_box(seat, at, Tray { envelopes: tray });
            Purse { credits, envelopes }
        }
    }
}

/// Serves a shard once, and sends to the next one. Says whether the shard was free.
pub fn visit(board: &TestBoard, seat: &mut TestSeat, shard: u32, next: u32) -> bool
    requires own { seat.old.place.table_id ≡ board.now.table.shared.table_id }
    requires within { (shard < board.now.shards) × (next < board.now.shards) }
    requires bare { seat.old.place.me.0.hands ≡ [] }
    ensures own { seat.new.place.table_id ≡ seat.old.place.table_id }
    ensures rest { seat.new.place.me.0 ≡ record seat.old.place.me.0 { handled = seat.new.place.me.0.handled; finds = seat.new.place.me.0.finds; gave = seat.new.place.me.0.gave } }
{
    let purse = match board.take_cell(seat, shard) {
        Take::Held { turn: _ } => return false,
        Take::Taken(purse) => purse,
    };
    let purse = trade(board, seat, shard, shard, purse, false);
    let (purse, sent, handled) = serve(purse);
    board.count(seat, shard, &purse, sent, handled);
    let purse = trade(board, seat, shard, next, purse, true);
    board.give_cell(seat, shard, purse);
    true
}

/// Visits each of four shards once.
pub fn round(board: &TestBoard, seat: &mut TestSeat)
    requires own { seat.old.place.table_id ≡ board.now.table.shared.table_id }
    requires four { board.now.shards ≡ 4 }
    requires bare { seat.old.place.me.0.hands ≡ [] }
    ensures own { seat.new.place.table_id ≡ seat.old.place.table_id }
    ensures rest { seat.new.place.me.0 ≡ record seat.old.place.me.0 { handled = seat.new.place.me.0.handled; finds = seat.new.place.me.0.finds; gave = seat.new.place.me.0.gave } }
{
    for shard in 0..4u32 {
        let _served = visit(board, seat, shard, (shard + 1) % 4);
    }
}

/// Visits four shards in turn, so many times.
pub fn work(board: &TestBoard, seat: TestSeat, rounds: u32) -> TestSeat
    requires own { seat.place.table_id ≡ board.now.table.shared.table_id }
    requires four { board.now.shards ≡ 4 }
    requires bare { seat.place.me.0.hands ≡ [] }
    ensures own { (result.place.table_id ≡ seat.place.table_id) × (result.number ≡ seat.number) }
    ensures rest { result.place.me.0 ≡ record seat.place.me.0 { handled = result.place.me.0.handled; finds = result.place.me.0.finds; gave = result.place.me.0.gave } }
{
    let mut seat = seat;
    for _ in 0..rounds {
        round(board, &mut seat);
    }
    seat
}
