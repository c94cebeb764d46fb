//! Room that is taken once, so that later room costs less.

use std::alloc::Global;

/// How many numbers the room holds: a little less than 32 MiB.
const ROOM: usize = 4_193_280;

/// Takes a great room and lets it go at once, without touching it. A usual C library learns from it to keep what is let
/// go for the next time: else a phase hands its memory back to the system page by page, and the next one takes it
/// again. Nothing else depends on it, and where the room is refused, a run is only slower.
pub(crate) fn keep_freed_memory(alloc: Global) {
    if let Ok(room) = Vec::<u64>::with_capacity(alloc, ROOM) {
        drop(room);
    }
}
