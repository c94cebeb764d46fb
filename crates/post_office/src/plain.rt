//! What slots hold, as plain data for contracts alone.

use std::collections::LinkedList;

/// A shard's cells, with the phase and the problem that they are of. No value of it is made.
pub struct Stood<P, Q, C> {
    pub phase: P,
    pub problem: Q,
    pub cells: LinkedList<C>,
}

/// What a post is about: a phase, its problem, and the shard that owns each cell. No value of it is made.
pub struct About<P, Q> {
    pub phase: P,
    pub problem: Q,
    pub owners: LinkedList<u8>,
}

/// What a slot holds but for its envelopes. `stood` is there in a shard's cell, and `waits` is the number of envelopes
/// that wait to be handled. No value of it is made.
pub struct Part<P, Q, C> {
    pub owners: LinkedList<u8>,
    pub shard: u64,
    pub waits: u64,
    pub stood: Option<Stood<P, Q, C>>,
}
