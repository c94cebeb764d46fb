//! The messages of the adapt phase.

/// A message of the adapt phase.
#[derive(Debug, Clone, Copy, PartialEq, Eq, Drop)]
pub enum AdaptMsg {
    /// The first message to each cell.
    Start,
    /// The present level of the touching leaf at position `from`.
    Level { from: u32, value: u8 },
}
