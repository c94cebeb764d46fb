//! What a seat knows, as plain data for contracts alone.

use std::collections::LinkedList;

/// What a seat keeps of a slot that it holds: all but the envelopes, and the envelopes. No value of it is made.
pub struct Hand<R, E> {
    pub slot: u64,
    pub rest: R,
    pub parcels: LinkedList<E>,
}

/// What a claim of a turn found where it failed: the slot, and another seat's number plus 1. No value of it is made.
pub struct Find {
    pub slot: u64,
    pub turn: u64,
}

/// What a seat knows. No value of it is made.
///
/// `finds` has each claim that found another seat's number, and `gave` what was given back, both newest first. `hands`
/// has the held slots, the last taken first. `handled` is what this seat counted as handled. `seen` is the verdict's
/// word that was read last, 0 where it was Running.
pub struct View<R, E> {
    pub live: bool,
    pub number: u64,
    pub splits: u64,
    pub joins: u64,
    pub stops: u64,
    pub finds: LinkedList<Find>,
    pub hands: LinkedList<Hand<R, E>>,
    pub uncounted: u64,
    pub handled: u64,
    pub first: LinkedList<u64>,
    pub second: LinkedList<u64>,
    pub seen: u64,
    pub gave: LinkedList<Hand<R, E>>,
}
