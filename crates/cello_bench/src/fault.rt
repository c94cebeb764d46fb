//! Why nothing was measured.

use cello_io::Failed;
use cello_num::Memory;
use std::alloc::{AllocError, AllocFailed};
use std::io;

/// Why nothing was measured.
#[derive(Clone, Copy)]
pub enum Fault {
    /// The words name no operation, or a size that it doesn't take.
    Words,
    /// Memory was refused.
    Memory,
    /// The clock or an output failed.
    Device,
}

impl Fault {
    /// The fault in words.
    pub fn text(&self) -> &'static str {
        match self {
            Fault::Words => "no such operation or size",
            Fault::Memory => "out of memory",
            Fault::Device => "the clock or an output failed",
        }
    }
}

impl From<Memory> for Fault {
    fn from(_: Memory) -> Fault {
        Fault::Memory
    }
}

impl From<AllocError> for Fault {
    fn from(_: AllocError) -> Fault {
        Fault::Memory
    }
}

impl From<io::Error> for Fault {
    fn from(_: io::Error) -> Fault {
        Fault::Device
    }
}

impl From<Failed> for Fault {
    fn from(_: Failed) -> Fault {
        Fault::Device
    }
}

impl<T: Drop> From<AllocFailed<T>> for Fault {
    fn from(_: AllocFailed<T>) -> Fault {
        Fault::Memory
    }
}
