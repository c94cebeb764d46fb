//! Why places are no leaf set.

use block_index::Place;

/// Why a list of places is no balanced mesh of a domain in order. An index counts from 0.
#[derive(Debug, Clone, Copy, PartialEq, Eq)]
pub enum LeafFault {
    /// The place at `at`, the first such, doesn't stand after the one before it.
    Order { at: u32 },
    /// The place at `at`, the first such, isn't inside the domain.
    Outside { at: u32 },
    /// One of the places at `a` and `b` contains the other: the first such pair, by `a` and then `b`.
    Overlap { a: u32, b: u32 },
    /// No place covers `at`, the first such place of the finest level.
    Hole { at: Place },
    /// The places at `a` and `b` touch with levels more than one apart: the first such pair, by `a` and then `b`.
    Jump { a: u32, b: u32 },
    /// Memory was refused.
    Memory,
}
