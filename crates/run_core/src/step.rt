//! Which work of a run comes next.
ghost use Rattle.std.specs.Prelude.{◌≡◌, ◌+◌, ◌^◌, ◌<◌, cond, nat_lt};
ghost use Rattle.run_core.specs.Steps.{after_adapt, after_cycle_told, after_round};

/// The kinds of works, in the order of a phase, of its advance and of what comes after them.
#[derive(Debug, Clone, Copy, PartialEq, Eq)]
pub enum Step {
    /// A refresh phase is to be driven until it is at rest, so that the ghosts hold samples for the wishes.
    Refresh,
    /// The wishes of the leaves are asked for.
    Wishes,
    /// An adapt phase is to be driven until it is at rest.
    Adapt,
    /// A refresh phase is to be driven until it is at rest, so that the ghosts hold samples for the advance.
    RefreshAgain,
    /// The blocks are to be advanced by their own fluxes.
    Advance,
    /// The flux correction is to be driven until it is at rest.
    Flux,
    /// The state of a cycle is to be told.
    Emit,
    /// There is no more work.
    Ended,
}

/// Where a run stands with the work of its step.
#[derive(Debug, Clone, Copy, PartialEq, Eq)]
pub enum Stage {
    /// It comes next.
    Next,
    /// It is out.
    Out,
    /// A limit or want of memory ended the run.
    Failed,
}

/// What comes after a refresh.
pub(crate) fn after_refresh(step: Step) -> Step
    ensures first { step ≡ Step.Refresh → result ≡ Step.Wishes }
    ensures again { step ≡ Step.RefreshAgain → result ≡ Step.Advance }
{
    match step {
        Step::RefreshAgain => Step::Advance,
        _ => Step::Wishes,
    }
}

/// What comes after an initial round of this number: the emission of cycle 0 after the last one.
pub(crate) fn after_round(rounds: u32, number: u32) -> Step
    ensures step { result ≡ after_round rounds number }
{
    if number == rounds {
        Step::Emit
    } else {
        Step::Refresh
    }
}

/// What comes after the adapt phase of this number.
pub(crate) fn after_adapt(rounds: u32, number: u32) -> Step
    ensures step { result ≡ after_adapt rounds number }
{
    if rounds < number {
        Step::RefreshAgain
    } else {
        after_round(rounds, number)
    }
}

/// How many phases have ended after the adapt phase of this number, where so many had ended before it: an initial round
/// ends with it.
pub(crate) fn phases_after_adapt(rounds: u32, number: u32, phases: u32) -> u32
    requires few { phases + 1 < 2 ^ 32 }
    ensures phases { result ≡ cond (nat_lt rounds number) phases (phases + 1) }
{
    if number > rounds { phases } else { phases + 1 }
}

/// What comes after a cycle was told, where so many phases of all have ended.
pub(crate) fn after_cycle_told(phases: u32, all: u32) -> Step
    ensures step { result ≡ after_cycle_told phases all }
{
    if phases < all {
        Step::Refresh
    } else {
        Step::Ended
    }
}
