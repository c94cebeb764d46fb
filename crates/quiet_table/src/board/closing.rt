//! Joining all seats, and taking the slots out of the table.
ghost use Rattle.std.specs.Prelude.{◌≡◌, ◌≢◌, ◌<◌, ◌≤◌, ◌+◌, ◌*◌, ◌/◌, ◌^◌, ◌++◌, ℕ, [], ◌∷◌, map, take, drop, length, false, true, ltb, Some, slice_get, slice_index_or, vec_capacity, vec_len};
ghost use Rattle.std.specs.Mem.Slots.{slots_items, slots_filled, slots_len, IsFull};
ghost use Rattle.std.specs.Mem.Slots.Ownership.{Filled};
ghost use mathlib.Core.Option.{some};
ghost use lib.ListN.{get_elem?};
ghost use Rattle.quiet_table.specs.Contents.{contents_of, is_cell, origin_of, pool};
ghost use Rattle.quiet_table.specs.Words.{span};
ghost use Rattle.quiet_table.specs.Views.{joined_view};
ghost use Rattle.quiet_table.specs.BoardRule.{stops, handles};
ghost use Rattle.quiet_table.specs.Shut.{Shut};
ghost use Rattle.quiet_table.specs.Waved.{verdict_word};
ghost use Rattle.quiet_table.specs.declared.item.Item.TheVariants.{Cell, Inbox};

use super::{Board, BoardSeat, Room};
use crate::item::Item;
use crate::load::{LegalLoad, Load};
use crate::plays::Cut;
use crate::rule::{BoardTable, Slot};
use crate::wave::Verdict;
use atomic_table::Closed;
use std::alloc::Global;

/// What a closed board leaves: the cells and the boxes by shard, the sum of the handled words, and the verdict.
#[derive(Drop)]
pub struct Remains<C, B> {
    pub cells: Vec<C>,
    pub boxes: Vec<B>,
    pub handled: u64,
    pub verdict: Verdict,
}

// Takes the cells out, which are the first slots.
fn take_cells<C: LegalLoad, B: Load<Rest = C::Rest, Parcel = C::Parcel>>(
    closed: &mut Closed<Slot<C, B>, Global>,
    shards: usize,
    room: Vec<C>,
) -> Vec<C>
    requires row { (shards ≤ slots_len closed.old.slots) × IsFull closed.old.slots }
    requires cells { (k : ℕ) → k < shards → (c : _) × (get_elem? (slots_items closed.old.slots) k ≡ some (Some (Cell c))) }
    requires room { (room.items ≡ []) × (shards ≤ vec_capacity room) }
    ensures count { vec_len result ≡ shards }
    ensures cells { map (λ c. Some (Cell c)) result.items ≡ take shards (slots_items closed.old.slots) }
    ensures rest { (slots_items closed.new.slots ≡ slots_items closed.old.slots) × (slots_len closed.new.slots ≡ slots_len closed.old.slots) × (closed.new.words ≡ closed.old.words) }
    ensures emptied { Filled (slots_filled closed.new.slots) shards (slots_len closed.new.slots) × ((j : ℕ) → j < shards → slice_index_or (slots_filled closed.new.slots) j false ≡ false) }
{
    let mut cells = room;
    for k in 0..shards {
        let item = closed.take(k).unwrap();
        match item {
            Item::Cell(cell) => cells.push_reserved(cell),
            Item::Inbox(_) => unreachable!(),
        }
    }
    cells
}

// Takes the boxes out, which come after the cells.
fn take_boxes<C: LegalLoad, B: Load<Rest = C::Rest, Parcel = C::Parcel>>(
    closed: &mut Closed<Slot<C, B>, Global>,
    shards: usize,
    room: Vec<B>,
) -> Vec<B>
    requires row { slots_len closed.old.slots ≡ 2 * shards }
    requires half { Filled (slots_filled closed.old.slots) shards (2 * shards) × ((j : ℕ) → j < shards → slice_index_or (slots_filled closed.old.slots) j false ≡ false) }
    requires boxes { (k : ℕ) → k < shards → (b : _) × (get_elem? (slots_items closed.old.slots) (shards + k) ≡ some (Some (Inbox b))) }
    requires room { (room.items ≡ []) × (shards ≤ vec_capacity room) }
    ensures count { vec_len result ≡ shards }
    ensures boxes { map (λ b. Some (Inbox b)) result.items ≡ drop shards (slots_items closed.old.slots) }
    ensures rest { closed.new.words ≡ closed.old.words }
    ensures emptied { (j : ℕ) → j < slots_len closed.new.slots → slice_index_or (slots_filled closed.new.slots) j false ≡ false }
{
    let mut boxes = room;
    for k in 0..shards {
        let item = closed.take(shards + k).unwrap();
        match item {
            Item::Inbox(inbox) => boxes.push_reserved(inbox),
            Item::Cell(_) => unreachable!(),
        }
    }
    boxes
}

// The sum of the handled words.
fn add_words<S>(closed: &Closed<S, Global>, shards: usize) -> u64
    requires row { (length (slots_items closed.now.words) ≡ 4 * shards + 1) × (shards ≤ 64) × IsFull closed.now.words }
    requires small { span (slots_items closed.now.words) (3 * shards) shards < 2 ^ 62 }
    ensures { result ≡ span (slots_items closed.now.words) (3 * shards) shards }
{
    let mut total = 0;
    for k in 0..shards {
        total += word_at(closed, 3 * shards + k);
    }
    total
}

fn word_at<S>(closed: &Closed<S, Global>, word: usize) -> u64
    requires { (word < slots_len closed.now.words) × IsFull closed.now.words }
    ensures { result ≡ slice_index_or (slots_items closed.now.words) word 0 }
{
    closed.word(word)
}

fn read_verdict<S>(closed: &Closed<S, Global>, word: usize) -> Verdict
    requires { (word < slots_len closed.now.words) × IsFull closed.now.words × (slice_index_or (slots_items closed.now.words) word 0 ≤ 2) }
    ensures { verdict_word result ≡ slice_index_or (slots_items closed.now.words) word 0 }
{
    match word_at(closed, word) {
        0 => Verdict::Running,
        1 => Verdict::Quiet,
        _ => Verdict::Stopped,
    }
}

// Takes the cells and boxes, the sum of the handled words and the verdict out of a closed table.
fn empty<C: LegalLoad, B: Load<Rest = C::Rest, Parcel = C::Parcel>>(
    closed: Closed<Slot<C, B>, Global>,
    shards: usize,
    cell_room: Vec<C>,
    box_room: Vec<B>,
) -> Remains<C, B>
    requires row { (slots_len closed.slots ≡ 2 * shards) × (shards ≤ 64) × IsFull closed.words × IsFull closed.slots }
    requires room { (cell_room.items ≡ []) × (shards ≤ vec_capacity cell_room) × (box_room.items ≡ []) × (shards ≤ vec_capacity box_room) }
    requires words { (length (slots_items closed.words) ≡ 4 * shards + 1) × (span (slots_items closed.words) (3 * shards) shards < 2 ^ 62) × (slice_index_or (slots_items closed.words) (4 * shards) 0 ≤ 2) }
    requires each { (k : ℕ) → k < 2 * shards → (i : _) × (get_elem? (slots_items closed.slots) k ≡ some (Some i)) × (is_cell i ≡ ltb (2 * k) (2 * shards)) }
    ensures counts { (vec_len result.cells ≡ shards) × (vec_len result.boxes ≡ shards) }
    ensures rows { map (λ c. Some (Cell c)) result.cells.items ++ map (λ b. Some (Inbox b)) result.boxes.items ≡ slots_items closed.slots }
    ensures handled { result.handled ≡ span (slots_items closed.words) (3 * shards) shards }
    ensures verdict { verdict_word result.verdict ≡ slice_index_or (slots_items closed.words) (4 * shards) 0 }
{
    let mut closed = closed;
    let cells = take_cells(&mut closed, shards, cell_room);
    let boxes = take_boxes(&mut closed, shards, box_room);
    let handled = add_words(&closed, shards);
    let verdict = read_verdict(&closed, 4 * shards);
    closed.free();
    Remains {
        cells,
        boxes,
        handled,
        verdict,
    }
}

// Closes the table with seat 0, into which all other seats were joined.
fn shut<C: LegalLoad, B: Load<Rest = C::Rest, Parcel = C::Parcel>>(
    table: BoardTable<C, B>,
    shards: usize,
    first: BoardSeat<C, B>,
) -> Closed<Slot<C, B>, Global>
    requires own { first.place.table_id ≡ table.shared.table_id }
    requires sized { length table.shared.key.value.items / 2 ≡ shards }
    requires last { (first.number ≡ 0) × (first.place.me.0.hands ≡ []) × (first.place.me.0.splits ≡ first.place.me.0.joins) }
    ensures full { IsFull result.words × IsFull result.slots }
    ensures counts { slots_len result.slots ≡ table.shared.table_id.slots }
    ensures shut { Shut (contents_of C.rest C.parcels B.rest B.parcels) C.legal C.origin shards (origin_of (contents_of C.rest C.parcels B.rest B.parcels) C.origin table.shared.key.value.items) (slots_items result.words) (slots_items result.slots) first.place.me.0.seen first.place.me.0.stops first.place.me.0.handled }
{
    let _shards = shards;
    let BoardSeat { place, number: _ } = first;
    table.close_with(place)
}

// The first seat, and all others.
fn first_and_others<T>(seats: Vec<T>) -> (T, Vec<T>)
    requires some_seat { 0 < vec_len seats }
    ensures { seats.items ≡ result.0 ∷ result.1.items }
{
    let mut others = seats;
    let first = others.remove(0);
    (first, others)
}

impl<C: LegalLoad, B: Load<Rest = C::Rest, Parcel = C::Parcel>> Board<C, B> {
    // Seat 0 takes in the seat whose number comes next.
    fn absorb(&self, first: &mut BoardSeat<C, B>, other: BoardSeat<C, B>)
        requires own { (first.old.place.table_id ≡ self.now.table.shared.table_id) × (other.place.table_id ≡ self.now.table.shared.table_id) }
        requires next { (first.old.number ≡ 0) × (other.number ≡ first.old.place.me.0.joins + 1) }
        requires bare { other.place.me.0.hands ≡ [] }
        ensures own { (first.new.place.table_id ≡ first.old.place.table_id) × (first.new.number ≡ 0) }
        ensures told { first.new.place.me.0 ≡ joined_view first.old.place.me.0 other.place.me.0 }
    {
        let BoardSeat { place, number: _ } = other;
        self.table.shared.join_seat::<Cut>(&mut first.place, place);
    }

    // Seat 0 takes in all others, in the order of their numbers.
    fn absorb_all(&self, first: &mut BoardSeat<C, B>, others: Vec<BoardSeat<C, B>>)
        requires own { first.old.place.table_id ≡ self.now.table.shared.table_id }
        requires zeroth { (first.old.number ≡ 0) × (first.old.place.me.0.joins ≡ 0) }
        requires each { (i : ℕ) (s : _) → slice_get others.items i ≡ Some s → (s.number ≡ i + 1) × (s.place.table_id ≡ self.now.table.shared.table_id) × (s.place.me.0.hands ≡ []) }
        ensures own { (first.new.place.table_id ≡ first.old.place.table_id) × (first.new.number ≡ 0) }
        ensures told { (first.new.place.me.0.hands ≡ first.old.place.me.0.hands) × (first.new.place.me.0.splits ≡ first.old.place.me.0.splits) × (first.new.place.me.0.joins ≡ vec_len others) }
        ensures stops { first.new.place.me.0.stops ≡ first.old.place.me.0.stops + stops (map (λ s. s.place.me.0) others.items) }
        ensures handled { first.new.place.me.0.handled ≡ first.old.place.me.0.handled + handles (map (λ s. s.place.me.0) others.items) }
        ensures seen { (first.old.place.me.0.seen ≢ 0 → first.new.place.me.0.seen ≡ first.old.place.me.0.seen) × ((i : ℕ) (s : _) → slice_get others.items i ≡ Some s → s.place.me.0.seen ≢ 0 → first.new.place.me.0.seen ≢ 0) }
    {
        for other in others {
            self.absorb(first, other);
        }
    }

    // Joins all seats into seat 0.
    fn gather(&self, seats: Vec<BoardSeat<C, B>>) -> BoardSeat<C, B>
        requires some_seat { 0 < vec_len seats }
        requires each { (i : ℕ) (s : _) → slice_get seats.items i ≡ Some s → (s.number ≡ i) × (s.place.table_id ≡ self.now.table.shared.table_id) × (s.place.me.0.hands ≡ []) }
        requires all { (s : _) → slice_get seats.items 0 ≡ Some s → (s.place.me.0.splits + 1 ≡ vec_len seats) × (s.place.me.0.joins ≡ 0) }
        ensures own { (result.place.table_id ≡ self.now.table.shared.table_id) × (result.number ≡ 0) }
        ensures told { (result.place.me.0.hands ≡ []) × (result.place.me.0.splits ≡ result.place.me.0.joins) }
        ensures stops { result.place.me.0.stops ≡ stops (map (λ s. s.place.me.0) seats.items) }
        ensures handled { result.place.me.0.handled ≡ handles (map (λ s. s.place.me.0) seats.items) }
        ensures seen { (i : ℕ) (s : _) → slice_get seats.items i ≡ Some s → s.place.me.0.seen ≢ 0 → result.place.me.0.seen ≢ 0 }
        ensures first { (s : _) → slice_get seats.items 0 ≡ Some s → s.place.me.0.seen ≢ 0 → result.place.me.0.seen ≡ s.place.me.0.seen }
    {
        let (mut first, others) = first_and_others(seats);
        self.absorb_all(&mut first, others);
        first
    }

    /// What the slots hold in the end, by shard, what all seats counted as handled, and the verdict: where the first seat
    /// has seen one, it is that one. All seats have to be there, in the order of their numbers, and none may hold a slot.
    /// It takes no memory.
    pub fn close(self, seats: Vec<BoardSeat<C, B>>) -> Remains<C, B>
        requires some_seat { 0 < vec_len seats }
        requires each { (i : ℕ) (s : _) → slice_get seats.items i ≡ Some s → (s.number ≡ i) × (s.place.table_id ≡ self.table.shared.table_id) × (s.place.me.0.hands ≡ []) }
        requires all { (s : _) → slice_get seats.items 0 ≡ Some s → (s.place.me.0.splits + 1 ≡ vec_len seats) × (s.place.me.0.joins ≡ 0) }
        ensures counts { (vec_len result.cells ≡ self.shards) × (vec_len result.boxes ≡ self.shards) }
        ensures legal { (more : ℕ) × C.legal (map C.rest result.cells.items ++ map B.rest result.boxes.items) (pool (map C.parcels result.cells.items ++ map B.parcels result.boxes.items)) (result.handled + more) × (verdict_word result.verdict ≡ 1 → (length (pool (map C.parcels result.cells.items ++ map B.parcels result.boxes.items)) ≡ 0) × (more ≡ 0)) }
        ensures origin { C.origin (map C.rest result.cells.items ++ map B.rest result.boxes.items) ≡ origin_of (contents_of C.rest C.parcels B.rest B.parcels) C.origin self.table.shared.key.value.items }
        ensures seen { (i : ℕ) (s : _) → slice_get seats.items i ≡ Some s → s.place.me.0.seen ≢ 0 → verdict_word result.verdict ≢ 0 }
        ensures first { (s : _) → slice_get seats.items 0 ≡ Some s → s.place.me.0.seen ≢ 0 → verdict_word result.verdict ≡ s.place.me.0.seen }
        ensures stopped { verdict_word result.verdict ≡ 2 → 1 ≤ stops (map (λ s. s.place.me.0) seats.items) }
        ensures handled { result.handled ≡ handles (map (λ s. s.place.me.0) seats.items) }
    {
        let first = self.gather(seats);
        let Board {
            table,
            shards,
            cell_room,
            box_room,
        } = self;
        let Room { items: cell_room } = cell_room.into_inner();
        let Room { items: box_room } = box_room.into_inner();
        let closed = shut(table, shards, first);
        empty(closed, shards, cell_room, box_room)
    }
}
