//! What a visit answers.

/// What a visit did. `Busy` has the number of the seat that holds the shard, plus 1. `Done` has what was handled and
/// sent, and how many envelopes are left because the box of their shard was held.
#[derive(Clone, Copy, Debug, PartialEq, Eq)]
pub enum Visit {
    Busy { turn: u64 },
    Done { handled: u64, sent: u64, left: u64 },
}
