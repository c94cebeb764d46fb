//! What is wrong with parameters.

ghost use Rattle.std.specs.Prelude.{◌≡◌};

use cello_num::{Memory, Name};
use std::alloc::AllocFailed;

/// What is wrong with a parameter.
#[derive(Debug, Clone, Copy, PartialEq, Eq)]
pub enum ParamKind {
    /// It is required and isn't there.
    Missing,
    /// No such name is known there.
    Unknown,
    /// It stood before.
    Repeated,
    /// It isn't of the form that is wanted there.
    WrongForm,
    /// Its value is out of range.
    OutOfRange,
    /// The blocks would hold too much, or are fewer than the trees.
    Size,
    /// The velocity is too high for the time step.
    Courant,
    /// The initial total of a field is too large.
    TotalTooLarge,
}

/// The first fault of parameters. A name is empty where there is none.
#[derive(Debug, Clone, Copy, PartialEq, Eq)]
pub struct ParamFault {
    pub group: Name,
    pub sub: Name,
    pub key: Name,
    pub kind: ParamKind,
}

/// Why a tree has no parameters.
#[derive(Debug, Clone, Copy, PartialEq, Eq)]
pub enum CheckError {
    Param(ParamFault),
    /// Memory was refused.
    Memory,
}

impl From<ParamFault> for CheckError {
    ghost use Rattle.params_check.specs.declared.fault.CheckError.TheVariants.{Param};

    ghost from_gives = { λ fault error. error ≡ Param fault };

    fn from(fault: ParamFault) -> CheckError {
        CheckError::Param(fault)
    }
}

impl From<Memory> for CheckError {
    ghost use Rattle.params_check.specs.declared.fault.CheckError.TheVariants as causes;

    ghost from_gives = { λ _ error. error ≡ causes.Memory };

    fn from(_: Memory) -> CheckError {
        CheckError::Memory
    }
}

impl<T: Drop> From<AllocFailed<T>> for CheckError {
    ghost use Rattle.params_check.specs.declared.fault.CheckError.TheVariants as causes;

    ghost from_gives = { λ _ error. error ≡ causes.Memory };

    fn from(_: AllocFailed<T>) -> CheckError {
        CheckError::Memory
    }
}
