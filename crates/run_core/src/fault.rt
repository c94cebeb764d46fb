//! Why a run ends before its last phase.
ghost use Rattle.std.specs.Prelude.{◌≡◌};
ghost use Rattle.run_core.specs.declared.fault.RunFault.TheVariants.{Memory as OutOfMemory};

use block_index::Place;
use cello_num::Memory;

/// Why a run ends before its last phase: a limit, or want of memory.
#[derive(Debug, Clone, Copy, PartialEq, Eq)]
pub enum RunFault {
    /// With strict parameters, this leaf of the finest level wishes to refine in this phase, the first such leaf.
    LevelLimit { phase: u32, place: Place },
    /// This phase would lead to more leaves than there may be blocks.
    BlockLimit { phase: u32, count: u32, limit: u32 },
    /// Memory was refused.
    Memory,
}

impl From<Memory> for RunFault {
    ghost from_gives = { λ _ fault. fault ≡ OutOfMemory };

    fn from(_: Memory) -> RunFault {
        RunFault::Memory
    }
}
