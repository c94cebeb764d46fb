//! Tests of a board with a small load.
ghost use Rattle.std.specs.Prelude.{◌≡◌, ◌≤◌, ◌+◌, ℕ, [], ◌∷◌, All, IfOk, Some, length, slice_get, vec_len};
ghost use Rattle.quiet_table.specs.Views.{dealt_view};

use crate::board::{Board, Remains};
use crate::load::LegalLoad;
use crate::purses::{Purse, Tray};
use crate::take::Take;
use crate::visits::{TestBoard, TestSeat, round, visit, work};
use crate::wave::{Verdict, Wave};
use cello_num::Memory;
use std::alloc::{AllocError, Global};
use std::test::Fail;
use std::thread;
use std::thread::Threads;

// A cell with one envelope.
fn purse(alloc: Global, credits: u64) -> Result<Purse, Memory>
    ensures { IfOk result (λ p. (p.credits ≡ credits) × (length p.envelopes.items ≡ 1)) }
{
    let mut envelopes = Vec::new(alloc);
    envelopes.push(7)?;
    Ok(Purse { credits, envelopes })
}

fn tray(alloc: Global) -> Tray
    ensures { result.envelopes.items ≡ [] }
{
    Tray {
        envelopes: Vec::new(alloc),
    }
}

// One shard, whose cell has one envelope and no credit, and two seats.
fn one_shard(alloc: Global) -> Result<(TestBoard, TestSeat, TestSeat), Memory>
    ensures shards { IfOk result (λ r. r.0.shards ≡ 1) }
    ensures first { IfOk result (λ r. (r.1.number ≡ 0) × (r.1.place.table_id ≡ r.0.table.shared.table_id) × (r.1.place.me.0 ≡ dealt_view 2 0)) }
    ensures second { IfOk result (λ r. (r.2.number ≡ 1) × (r.2.place.table_id ≡ r.0.table.shared.table_id) × (r.2.place.me.0 ≡ dealt_view 2 1)) }
{
    let mut cells = Vec::new(alloc);
    cells.push(purse(alloc, 0)?)?;
    let mut boxes = Vec::new(alloc);
    boxes.push(tray(alloc))?;
    let (board, seats) = Board::new(alloc, cells, boxes, 2)?;
    let (first, second) = two_seats(seats);
    Ok((board, first, second))
}

// Gives the seats back, and takes the board apart.
fn close_two(
    alloc: Global,
    board: TestBoard,
    first: TestSeat,
    second: TestSeat,
) -> Result<Remains<Purse, Tray>, Memory>
    requires first { (first.number ≡ 0) × (first.place.table_id ≡ board.table.shared.table_id) × (first.place.me.0.hands ≡ []) × (first.place.me.0.splits ≡ 1) × (first.place.me.0.joins ≡ 0) }
    requires second { (second.number ≡ 1) × (second.place.table_id ≡ board.table.shared.table_id) × (second.place.me.0.hands ≡ []) }
{
    let mut seats = Vec::new(alloc);
    seats.push(first)?;
    seats.push(second)?;
    Ok(board.close(seats))
}

// Four shards, whose cells have one envelope and twenty credits, and four seats.
fn four_shards(alloc: Global) -> Result<(TestBoard, Vec<TestSeat>), Memory>
    ensures shards { IfOk result (λ r. (r.0.shards ≡ 4) × (vec_len r.1 ≡ 4)) }
    ensures seats { IfOk result (λ r. (i : ℕ) (s : _) → slice_get r.1.items i ≡ Some s → (s.number ≡ i) × (s.place.table_id ≡ r.0.table.shared.table_id) × (s.place.me.0 ≡ dealt_view 4 i)) }
{
    let mut cells = Vec::new(alloc);
    cells.push(purse(alloc, 20)?)?;
    cells.push(purse(alloc, 20)?)?;
    cells.push(purse(alloc, 20)?)?;
    cells.push(purse(alloc, 20)?)?;
    let mut boxes = Vec::new(alloc);
    boxes.push(tray(alloc))?;
    boxes.push(tray(alloc))?;
    boxes.push(tray(alloc))?;
    boxes.push(tray(alloc))?;
    Board::new(alloc, cells, boxes, 4)
}

// The seats of two workers.
fn two_seats(seats: Vec<TestSeat>) -> (TestSeat, TestSeat)
    requires two { vec_len seats ≡ 2 }
    ensures { seats.items ≡ result.0 ∷ result.1 ∷ [] }
{
    let mut seats = seats;
    let first = seats.remove(0);
    let second = seats.remove(0);
    (first, second)
}

// Has each seat visit all shards in a thread of its own.
fn work_in_threads<R: Threads + Sync>(
    rt: &R,
    board: &TestBoard,
    seats: Vec<TestSeat>,
) -> Result<Vec<TestSeat>, AllocError>
    requires four { board.now.shards ≡ 4 }
    requires ready { All (λ s. (s.place.table_id ≡ board.now.table.shared.table_id) × (s.place.me.0.hands ≡ [])) seats.items }
    requires each { (i : ℕ) (s : _) → slice_get seats.items i ≡ Some s → (s.number ≡ i) × (s.place.table_id ≡ board.now.table.shared.table_id) × (s.place.me.0 ≡ dealt_view 4 i) }
    ensures count { IfOk result (λ v. vec_len v ≡ vec_len seats) }
    ensures each { IfOk result (λ v. (i : ℕ) (s : _) → slice_get v.items i ≡ Some s → (s.number ≡ i) × (s.place.table_id ≡ board.now.table.shared.table_id) × (s.place.me.0 ≡ record (dealt_view 4 i) { handled = s.place.me.0.handled; finds = s.place.me.0.finds; gave = s.place.me.0.gave })) }
{
    let worked = thread::map_vec(
        rt,
        seats,
        &|seat| -> TestSeat
            requires ready { (board.now.shards ≡ 4) × (seat.place.table_id ≡ board.now.table.shared.table_id) × (seat.place.me.0.hands ≡ []) }
            ensures own { (result.place.table_id ≡ seat.place.table_id) × (result.number ≡ seat.number) }
            ensures rest { result.place.me.0 ≡ record seat.place.me.0 { handled = result.place.me.0.handled; finds = result.place.me.0.finds; gave = result.place.me.0.gave } }
        { work(board, seat, 50) },
    )?;
    Ok(worked)
}

// Visits all shards often enough for all envelopes, and then makes a wave.
fn finish(board: &TestBoard, seat: &mut TestSeat) -> Wave
    requires own { seat.old.place.table_id ≡ board.now.table.shared.table_id }
    requires four { board.now.shards ≡ 4 }
    requires bare { seat.old.place.me.0.hands ≡ [] }
    ensures own { seat.new.place.table_id ≡ seat.old.place.table_id }
    ensures rest { seat.new.place.me.0 ≡ record seat.old.place.me.0 { handled = seat.new.place.me.0.handled; finds = seat.new.place.me.0.finds; gave = seat.new.place.me.0.gave; first = seat.new.place.me.0.first; second = seat.new.place.me.0.second; seen = seat.new.place.me.0.seen } }
{
    for _ in 0..100 {
        round(board, seat);
    }
    board.wave(seat)
}

// Lets the first seat finish what is left, and takes the board apart.
fn close_all(board: TestBoard, seats: Vec<TestSeat>) -> (Wave, Remains<Purse, Tray>)
    requires four { (board.shards ≡ 4) × (vec_len seats ≡ 4) }
    requires each { (i : ℕ) (s : _) → slice_get seats.items i ≡ Some s → (s.number ≡ i) × (s.place.table_id ≡ board.table.shared.table_id) × (s.place.me.0 ≡ record (dealt_view 4 i) { handled = s.place.me.0.handled; finds = s.place.me.0.finds; gave = s.place.me.0.gave }) }
{
    let mut seats = seats;
    let first = &mut seats[0];
    let wave = finish(&board, first);
    (wave, board.close(seats))
}

#[test]
fn a_held_cell_names_its_holder(rt: HostRuntime) -> Result<(), Fail> {
    let (board, mut first, mut second) = one_shard(rt.alloc())?;
    let Take::Taken(held) = board.take_cell(&mut first, 0) else {
        return Err(Fail::from("the cell was held"));
    };
    let Take::Held { turn } = board.take_cell(&mut second, 0) else {
        return Err(Fail::from("the cell was taken twice"));
    };
    assert_eq!(rt; turn, 1);
    board.give_cell(&mut first, 0, held);
    Ok(())
}

#[test]
fn two_seats_come_to_quiet(rt: HostRuntime) -> Result<(), Fail> {
    let (board, mut first, mut second) = one_shard(rt.alloc())?;
    assert_eq!(rt; board.verdict(&mut second), Verdict::Running);
    assert_eq!(rt;
        board.wave(&mut second),
        Wave::NotYet {
            handled: 0,
            sent: 1
        }
    );
    assert!(rt; visit(&board, &mut first, 0, 0));
    assert_eq!(rt; board.wave(&mut first), Wave::Quiet);
    assert_eq!(rt; board.stop(&mut second), Verdict::Quiet);
    assert_eq!(rt; board.verdict(&mut first), Verdict::Quiet);
    let remains = close_two(rt.alloc(), board, first, second)?;
    assert_eq!(rt; remains.cells.len(), 1);
    assert_eq!(rt; remains.boxes.len(), 1);
    assert!(rt; remains.cells[0].is_idle());
    assert_eq!(rt; remains.handled, 1);
    assert_eq!(rt; remains.verdict, Verdict::Quiet);
    Ok(())
}

#[test]
fn four_threads_come_to_quiet(rt: HostRuntime) -> Result<(), Fail> {
    let (board, seats) = four_shards(rt.alloc())?;
    let seats = work_in_threads(&rt, &board, seats)?;
    let (wave, remains) = close_all(board, seats);
    assert_eq!(rt; wave, Wave::Quiet);
    assert_eq!(rt; remains.verdict, Verdict::Quiet);
    assert_eq!(rt; remains.cells.len(), 4);
    assert_eq!(rt; remains.boxes.len(), 4);
    let mut left = 0u64;
    for cell in &remains.cells {
        assert_eq!(rt; cell.envelopes.len(), 0);
        left = left.saturating_add(cell.credits);
    }
    for inbox in &remains.boxes {
        assert_eq!(rt; inbox.envelopes.len(), 0);
    }
    assert_eq!(rt; remains.handled.saturating_add(left), 84);
    Ok(())
}
