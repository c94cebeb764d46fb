//! What lies in a slot.

/// What lies in a slot: a shard's cell or its box.
#[derive(Drop)]
pub enum Item<C, B> {
    Cell(C),
    Inbox(B),
}
