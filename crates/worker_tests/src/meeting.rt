//! A gate at which two workers meet.
use cello_io::Gate;
use std::sync::atomic::{AtomicU64, Ordering};
use std::thread::yield_now;

/// The most turns that a worker waits for the other one.
const MOST_TURNS: u64 = 1_000_000;

/// A gate that holds each of two workers at its first pass of a phase, until the other one has come to its own first
/// pass of that phase. It counts these passes of either worker. A hold that expires is a miss, and so is a first pass of
/// a third worker. After a miss nobody is held any more.
#[derive(Drop)]
pub struct MeetingGate {
    zeroth: AtomicU64,
    first: AtomicU64,
    misses: AtomicU64,
}

impl MeetingGate {
    /// A gate that nobody has passed.
    pub fn new() -> MeetingGate {
        MeetingGate {
            zeroth: AtomicU64::new(0),
            first: AtomicU64::new(0),
            misses: AtomicU64::new(0),
        }
    }

    /// Whether the two workers met in each of so many phases, and in no other one.
    pub fn met(&self, phases: u64) -> bool {
        let zeroth = self.zeroth.load(Ordering::SeqCst);
        let first = self.first.load(Ordering::SeqCst);
        let misses = self.misses.load(Ordering::SeqCst);
        zeroth == phases && first == phases && misses == 0
    }

    /// Counts a first pass, and waits until the other worker has made as many.
    fn meet(&self, mine: &AtomicU64, others: &AtomicU64) {
        let phase = mine.fetch_add(1, Ordering::SeqCst).saturating_add(1);
        for _ in 0..MOST_TURNS {
            if others.load(Ordering::SeqCst) >= phase || self.misses.load(Ordering::SeqCst) != 0 {
                return;
            }
            yield_now();
        }
        self.miss();
    }

    fn miss(&self) {
        self.misses.fetch_add(1, Ordering::SeqCst);
    }
}

impl Gate for MeetingGate {
    fn pass(&self, worker: u32, turn: u64) {
        if turn != 0 {
            return;
        }
        match worker {
            0 => self.meet(&self.zeroth, &self.first),
            1 => self.meet(&self.first, &self.zeroth),
            _ => self.miss(),
        }
    }
}
