//! What workers pass before each visit.

/// A gate that a worker passes before each visit of a shard, with its number and the number of its turn, from 0. It
/// tells nothing.
pub trait Gate {
    fn pass(&self, worker: u32, turn: u64);
}

/// A gate that holds nobody.
#[derive(Clone, Copy, Debug, PartialEq, Eq)]
pub struct OpenGate;

impl Gate for OpenGate {
    fn pass(&self, _worker: u32, _turn: u64) {}
}
