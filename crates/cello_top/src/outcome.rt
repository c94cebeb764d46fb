//! How a call ended.
ghost use Rattle.std.specs.Prelude.{◌≡◌, None, Some};
ghost use Rattle.cello_top.specs.Faults.{status_of};

use crate::fault::Fault;

/// How a call ended: its exit status, why it is not 0, and how many messages of adapt phases were handled.
#[derive(Debug, Clone, Copy, PartialEq, Eq)]
pub struct Outcome {
    pub status: u8,
    pub fault: Option<Fault>,
    pub handled: u64,
}

impl Outcome {
    /// The call did what was asked.
    pub fn done(handled: u64) -> Outcome
        ensures fault { result.fault ≡ None }
        ensures status { result.status ≡ 0 }
        ensures handled { result.handled ≡ handled }
    {
        Outcome {
            status: 0,
            fault: None,
            handled,
        }
    }

    /// The call ended with a fault.
    pub fn refused(fault: Fault) -> Outcome
        ensures fault { result.fault ≡ Some fault }
        ensures status { result.status ≡ status_of (Some fault) }
        ensures handled { result.handled ≡ 0 }
    {
        Outcome {
            status: fault.class().status(),
            fault: Some(fault),
            handled: 0,
        }
    }
}
