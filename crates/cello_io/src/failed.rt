//! What a call of an outside object answers where it didn't work.

/// The call failed, and the object counted it.
#[derive(Debug, Clone, Copy, PartialEq, Eq)]
pub struct Failed;

/// Why a file wasn't fetched.
#[derive(Debug, Clone, Copy, PartialEq, Eq)]
pub enum FetchFault {
    /// The call failed, and the shelf counted it among its faults of fetching.
    Failed,
    /// The shelf was handed in without a file of that name, and counted an absence.
    Absent,
}
