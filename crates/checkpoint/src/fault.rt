//! Why bytes are no checkpoint.

ghost use Rattle.std.specs.Prelude.{◌≡◌};

use leaf_set::LeafFault;
use std::alloc::{AllocError, AllocFailed};

/// The first fault of a file, in the order of its parts. A part that isn't there whole comes before what it says.
#[derive(Debug, Clone, Copy, PartialEq, Eq)]
pub enum CheckFault {
    /// A part isn't there whole. `at` is how many bytes there are.
    Truncated {
        at: u64,
    },
    /// The file doesn't begin as every checkpoint does.
    Magic,
    /// The version isn't 1.
    Version {
        found: u16,
    },
    /// The text is too long, doesn't read and check, or isn't canonical.
    Params,
    /// The cycle is above 4,096.
    Cycle {
        found: u32,
    },
    /// There are more leaves than the parameters allow.
    Count {
        found: u32,
        limit: u32,
    },
    /// The word at `at`, the first such, is no place.
    Word {
        at: u32,
    },
    /// The places are no balanced mesh of the domain in order.
    Leaves(LeafFault),
    /// The stated total of a field, the first such, isn't the sum of its amounts.
    Total {
        field: u8,
        stated: u64,
        summed: u128,
    },
    /// The total of a field, the first such, and what has left aren't its initial total.
    Balance {
        field: u8,
        held: u128,
        initial: u64,
    },
    /// Bytes stand after the last part, which ends at `at`.
    Trailing {
        at: u64,
    },
    /// Memory was refused.
    Memory,
}

impl<T: Drop> From<AllocFailed<T>> for CheckFault {
    ghost use Rattle.checkpoint.specs.declared.fault.CheckFault.TheVariants as causes;

    ghost from_gives = { λ _ error. error ≡ causes.Memory };

    fn from(_: AllocFailed<T>) -> CheckFault {
        CheckFault::Memory
    }
}

impl From<AllocError> for CheckFault {
    ghost use Rattle.checkpoint.specs.declared.fault.CheckFault.TheVariants as causes;

    ghost from_gives = { λ _ error. error ≡ causes.Memory };

    fn from(_: AllocError) -> CheckFault {
        CheckFault::Memory
    }
}

impl From<cello_num::Memory> for CheckFault {
    ghost use Rattle.checkpoint.specs.declared.fault.CheckFault.TheVariants as causes;

    ghost from_gives = { λ _ error. error ≡ causes.Memory };

    fn from(_: cello_num::Memory) -> CheckFault {
        CheckFault::Memory
    }
}
