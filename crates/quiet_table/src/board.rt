//! A board, and its seats.
ghost use Rattle.std.specs.Prelude.{◌≡◌, ◌<◌, ◌≤◌, ◌+◌, ◌*◌, ◌/◌, true, [], length, vec_capacity};
ghost use Rattle.quiet_table.specs.Views.{carried_of};

use crate::load::{LegalLoad, Load};
use crate::rule::{BoardTable, Place};
use std::sync::Mutex;

/// Room for what the board gives back. It lies in a lock so that the board can be shared where its values cannot.
#[derive(Drop)]
pub struct Room<T> {
    pub items: Vec<T>,
    ghost roomy: { (items.items ≡ []) × (64 ≤ vec_capacity items) },
}

/// Words and slots that seats share. Contracts read the table's name, `table.shared.table_id`, and its key, the slots as
/// they were at first.
#[derive(Drop)]
pub struct Board<C: LegalLoad, B: Load<Rest = C::Rest, Parcel = C::Parcel>> {
    pub table: BoardTable<C, B>,
    pub shards: usize,
    pub cell_room: Mutex<Room<C>>,
    pub box_room: Mutex<Room<B>>,
    ghost sized: { (table.shared.table_id.words ≡ 4 * shards + 1) × (table.shared.table_id.slots ≡ 2 * shards) × (length table.shared.key.value.items / 2 ≡ shards) × (shards ≤ 64) × (0 < shards) },
}

/// What a thread steps with on a board. Contracts read `place.table_id`, the name of its board's table, `place.id`, the
/// name of the seat, and `place.me.0`, what it knows.
#[derive(Drop)]
pub struct BoardSeat<C: LegalLoad, B: Load<Rest = C::Rest, Parcel = C::Parcel>> {
    pub place: Place<C, B>,
    pub number: u64,
    ghost live: { place.me.0.live ≡ true },
    ghost numbered: { (place.me.0.number ≡ number) × (number < 16) },
    ghost settled: { place.me.0.uncounted ≡ 0 },
    ghost carried: { place.me.1 ≡ carried_of place.me.0.hands },
}

mod cells;
mod closing;
mod counting;
mod making;
mod slots;
mod waves;

pub use closing::Remains;
