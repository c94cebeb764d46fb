//! The limits of values, by name.

/// Trees along an axis.
pub(crate) const MOST_TREES: u64 = 16;

/// The finest level that there may be.
pub(crate) const FINEST_LEVEL: u64 = 6;

/// Cells along the edge of a block, at least and at most.
pub(crate) const LEAST_EDGE: u64 = 4;

pub(crate) const GREATEST_EDGE: u64 = 16;

/// Blocks in all.
pub(crate) const MOST_BLOCKS: u64 = 8192;

/// Cells that all blocks hold, once for each field.
pub(crate) const MOST_CELLS: u64 = 1 << 26;

/// Adapt phases before cycle 0.
pub(crate) const MOST_ROUNDS: u64 = 12;

/// The last phase in which a criterion can be active.
pub(crate) const LAST_PHASE: u64 = 8192;

/// Cycles.
pub(crate) const MOST_CYCLES: u64 = 4096;

/// Fields.
pub(crate) const MOST_FIELDS: usize = 4;

/// Bytes of the name of a field.
pub(crate) const LONGEST_FIELD: usize = 16;

/// Subs of a group: shapes, or criteria.
pub(crate) const MOST_SUBS: usize = 16;

/// A coordinate or a radius, in root cells.
pub(crate) const FARTHEST: u64 = 256;

/// The amount of a cell, a threshold of amounts, and the initial total of a field.
pub(crate) const GREATEST_AMOUNT: u64 = 1 << 40;

/// A threshold of slopes, in hundredths.
pub(crate) const GREATEST_SLOPE: u64 = 1_000_000;

/// A velocity along an axis, in either direction.
pub(crate) const FASTEST: u64 = 1 << 20;

/// What a velocity is divided by.
pub(crate) const GREATEST_DEN: u64 = 1 << 20;
