//! Why a call ended otherwise than well.
ghost use Rattle.std.specs.Prelude.{◌≡◌};
ghost use Rattle.cello_top.specs.Faults.{class_of, fault_of};

use crate::fault_class::FaultClass;
use block_index::Place;
use cello_num::Name;
use checkpoint::CheckFault;
use params_check::ParamFault;
use params_syntax::SyntaxFault;
use run_core::RunFault;

/// Why a call ended otherwise than well.
#[derive(Debug, Clone, Copy, PartialEq, Eq)]
pub enum Fault {
    /// The words are no command.
    Usage,
    /// The text's syntax is at fault.
    Syntax(SyntaxFault),
    /// The parameters are at fault.
    Param(ParamFault),
    /// With strict parameters, this leaf of the finest level wishes to refine in this phase, the first such leaf.
    LevelLimit { phase: u32, place: Place },
    /// This phase would lead to more leaves than there may be blocks.
    BlockLimit { phase: u32, count: u32, limit: u32 },
    /// The source failed, or the shelf while a file was fetched.
    ReadFault,
    /// The sink failed, or the shelf while a file was written.
    WriteFault,
    /// The shelf has no file of this name.
    Absent { name: Name },
    /// The file is no checkpoint.
    Checkpoint(CheckFault),
    /// Memory was refused.
    Memory,
}

impl Fault {
    /// What the fault comes from.
    pub(crate) fn class(&self) -> FaultClass
        ensures class { result ≡ class_of self.now }
    {
        match self {
            Fault::Usage => FaultClass::Words,
            Fault::Syntax(_) | Fault::Param(_) => FaultClass::Text,
            Fault::LevelLimit { .. } | Fault::BlockLimit { .. } => FaultClass::Limit,
            Fault::ReadFault => FaultClass::Source,
            Fault::WriteFault => FaultClass::Sink,
            Fault::Absent { .. } | Fault::Checkpoint(_) => FaultClass::File,
            Fault::Memory => FaultClass::Allocator,
        }
    }
}

impl From<RunFault> for Fault {
    ghost from_gives = { λ run fault. fault ≡ fault_of run };

    fn from(run: RunFault) -> Fault {
        match run {
            RunFault::LevelLimit { phase, place } => Fault::LevelLimit { phase, place },
            RunFault::BlockLimit {
                phase,
                count,
                limit,
            } => Fault::BlockLimit {
                phase,
                count,
                limit,
            },
            RunFault::Memory => Fault::Memory,
        }
    }
}
