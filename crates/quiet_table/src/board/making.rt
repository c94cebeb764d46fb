//! Making a board, and its seats.
ghost use Rattle.std.specs.Prelude.{◌≡◌, ◌≢◌, ◌<◌, ◌≤◌, ◌+◌, ◌*◌, ◌^◌, ℕ, [], map, ◌++◌, length, IfOk, Some, slice_get, vec_capacity, vec_len};
ghost use Rattle.quiet_table.specs.Contents.{contents_of, origin_of, pool};
ghost use Rattle.quiet_table.specs.Words.{FirstWords};
ghost use Rattle.quiet_table.specs.Views.{dealt_view, first_view, split_left, split_right};
ghost use Rattle.quiet_table.specs.declared.item.Item.TheVariants.{Cell, Inbox};

use super::{Board, BoardSeat, Room};
use crate::item::Item;
use crate::load::{LegalLoad, Load};
use crate::plays::Cut;
use crate::rule::{BoardTable, Place, Slot};
use atomic_table::{Refused, Table};
use cello_num::Memory;
use std::alloc::{AllocError, Global};
use std::snapshot::Snapshot;
use std::sync::Mutex;

// The first slots: the cells, then the boxes.
fn lay<C: LegalLoad, B: Load<Rest = C::Rest, Parcel = C::Parcel>>(
    alloc: Global,
    cells: Vec<C>,
    boxes: Vec<B>,
) -> Result<Vec<Slot<C, B>>, Memory>
    requires { length cells.items + length boxes.items < 2 ^ 32 }
    ensures { IfOk result (λ v. v.items ≡ map (λ c. Some (Cell c)) cells.items ++ map (λ b. Some (Inbox b)) boxes.items) }
{
    let mut slots = Vec::with_capacity(alloc, cells.len() + boxes.len())?;
    for cell in cells {
        slots.push(Some(Item::Cell(cell)))?;
    }
    for inbox in boxes {
        slots.push(Some(Item::Inbox(inbox)))?;
    }
    Ok(slots)
}

// Room for as many as there may be shards.
fn roomy<T>(alloc: Global) -> Result<Mutex<Room<T>>, AllocError> {
    let items = Vec::with_capacity(alloc, 64)?;
    Ok(Mutex::new(Room { items }))
}

// Each shard has sent what lies on it.
fn first_words<C: LegalLoad, B: Load<Rest = C::Rest, Parcel = C::Parcel>>(
    alloc: Global,
    cells: &Vec<C>,
    boxes: &Vec<B>,
) -> Result<Vec<u64>, Memory>
    requires counts { (length boxes.now.items ≡ length cells.now.items) × (length cells.now.items ≤ 64) }
    requires small { length (pool (map C.parcels cells.now.items ++ map B.parcels boxes.now.items)) < 2 ^ 62 }
    ensures { IfOk result (λ w. FirstWords (length cells.now.items) w.items (length (pool (map C.parcels cells.now.items ++ map B.parcels boxes.now.items)))) }
{
    let shards = cells.len();
    let mut words = Vec::from_elem(alloc, 0u64, 4 * shards + 1)?;
    for k in 0..shards {
        let there = cells[k].load() + boxes[k].load();
        words[2 * shards + k] = there;
    }
    Ok(words)
}

impl<C: LegalLoad, B: Load<Rest = C::Rest, Parcel = C::Parcel>> Board<C, B> {
    // A new seat, with the next number.
    fn split(&self, first: &mut BoardSeat<C, B>, number: u64) -> BoardSeat<C, B>
        requires own { first.old.place.table_id ≡ self.now.table.shared.table_id }
        requires next { (first.old.number ≡ 0) × (first.old.place.me.0.splits + 1 ≡ number) × (number < 16) }
        ensures kept { (first.new.place.table_id ≡ first.old.place.table_id) × (first.new.number ≡ 0) × (first.new.place.me.0 ≡ split_left first.old.place.me.0) }
        ensures made { (result.number ≡ number) × (result.place.table_id ≡ self.now.table.shared.table_id) × (result.place.me.0 ≡ split_right first.old.place.me.0) }
    {
        let place = self.table.shared.split_seat::<Cut>(&mut first.place);
        BoardSeat { place, number }
    }

    // A seat for each worker, by number.
    fn deal(
        &self,
        place: Place<C, B>,
        room: Vec<BoardSeat<C, B>>,
        workers: u64,
    ) -> Vec<BoardSeat<C, B>>
        requires own { place.table_id ≡ self.now.table.shared.table_id }
        requires fresh { place.me ≡ (first_view, []) }
        requires few { (1 ≤ workers) × (workers ≤ 16) }
        requires room { (room.items ≡ []) × (workers ≤ vec_capacity room) }
        ensures count { vec_len result ≡ workers }
        ensures seats { (i : ℕ) (s : _) → slice_get result.items i ≡ Some s → (s.number ≡ i) × (s.place.table_id ≡ self.now.table.shared.table_id) × (s.place.me.0 ≡ dealt_view workers i) }
    {
        let mut seats = room;
        seats.push_reserved(BoardSeat { place, number: 0 });
        for number in 1..workers {
            let first = &mut seats[0];
            let seat = self.split(first, number);
            seats.push_reserved(seat);
        }
        seats
    }

    /// A board of these cells and boxes by shard, and a seat for each worker: the one at position `i` has the number `i`.
    /// What lies in a shard's cell and box counts as sent by it. The room that `close` needs is taken here.
    pub fn new(
        alloc: Global,
        cells: Vec<C>,
        boxes: Vec<B>,
        workers: u32,
    ) -> Result<(Board<C, B>, Vec<BoardSeat<C, B>>), Memory>
        requires counts { (length boxes.items ≡ length cells.items) × (1 ≤ length cells.items) × (length cells.items ≤ 64) × (1 ≤ workers) × (workers ≤ 16) }
        requires legal { C.legal (map C.rest cells.items ++ map B.rest boxes.items) (pool (map C.parcels cells.items ++ map B.parcels boxes.items)) 0 }
        ensures count { IfOk result (λ r. (vec_len r.1 ≡ workers) × (r.0.shards ≡ length cells.items)) }
        ensures seats { IfOk result (λ r. (i : ℕ) (s : _) → slice_get r.1.items i ≡ Some s → (s.number ≡ i) × (s.place.table_id ≡ r.0.table.shared.table_id) × (s.place.me.0 ≡ dealt_view workers i)) }
        ensures origin { IfOk result (λ r. origin_of (contents_of C.rest C.parcels B.rest B.parcels) C.origin r.0.table.shared.key.value.items ≡ C.origin (map C.rest cells.items ++ map B.rest boxes.items)) }
    {
        let shards = cells.len();
        let room = Vec::with_capacity(alloc, workers as usize)?;
        let words = first_words(alloc, &cells, &boxes)?;
        let cell_room = roomy(alloc)?;
        let box_room = roomy(alloc)?;
        let slots = lay(alloc, cells, boxes)?;
        let about = Snapshot::of(&slots);
        let made: Result<(BoardTable<C, B>, Place<C, B>), Refused<Slot<C, B>, Global>> = Table::new(
            alloc,
            words.as_slice(),
            slots,
            &about,
        );
        match made {
            Ok((table, place)) => {
                let board = Board {
                    table,
                    shards,
                    cell_room,
                    box_room,
                };
                let seats = board.deal(place, room, workers as u64);
                Ok((board, seats))
            }
            Err(Refused { slots: _ }) => Err(Memory),
        }
    }
}
