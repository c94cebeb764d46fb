//! Laws of the flux correction, in any order of delivery.

ghost use Rattle.std.specs.Prelude.{◌≡◌, ℕ, ◌+◌, ◌≤◌, List, [], length};
ghost use Rattle.phase_core.specs.declared.envelope.Envelope.{Envelope};
ghost use Rattle.phase_core.specs.Machine.{CoreState, Event, IsQuiet, Delivers, start_state};
ghost use Rattle.flux_register.specs.declared.flux_msg.FluxMsg.{FluxMsg};
ghost use Rattle.flux_register.specs.Cells.{FluxState, FluxProblem};
ghost use Rattle.flux_register.specs.React.{flux_react, flux_start};
ghost use Rattle.flux_register.specs.Problem.{FluxFixBegins, FluxFixHolds, flux_weight, flux_start_weight};
ghost use Rattle.flux_register.specs.States.{AreAdvanced, IsFluxFixState};

use crate::flux_fix::FluxFix;
use phase_core::every_run_from_the_start_keeps;

/// Every list of events from the start keeps the invariant and what it says of each cell, face and message, and handles
/// at most one message for each leaf and each face with finer leaves across. At rest the cells hold the state after an
/// advance of the composite grid, by whichever scheme's fluxes the blocks were advanced.
pub fn every_run_corrects()
    ensures holds { (p : FluxProblem) (cells : List FluxState) (t : CoreState FluxState FluxMsg) (events : List Event) → FluxFixBegins p cells →
        Delivers (flux_react p) (start_state flux_start cells) events t → FluxFixHolds p t.cells t.flight }
    ensures state { (p : FluxProblem) (cells : List FluxState) (t : CoreState FluxState FluxMsg) (events : List Event) → FluxFixBegins p cells →
        Delivers (flux_react p) (start_state flux_start cells) events t → IsFluxFixState p t.cells t.flight }
    ensures handled { (p : FluxProblem) (cells : List FluxState) (t : CoreState FluxState FluxMsg) (events : List Event) → FluxFixBegins p cells →
        Delivers (flux_react p) (start_state flux_start cells) events t → length events + flux_weight p t.cells t.flight ≤ flux_start_weight p }
    ensures advanced { (p : FluxProblem) (cells : List FluxState) (t : CoreState FluxState FluxMsg) (events : List Event) → FluxFixBegins p cells →
        Delivers (flux_react p) (start_state flux_start cells) events t → IsQuiet t → AreAdvanced p t.cells }
{
    every_run_from_the_start_keeps::<FluxFix>()
}

/// What the invariant says of any cells and flight; with nothing in flight, the cells hold the advanced state.
pub fn every_state_of_a_run()
    ensures state { (p : FluxProblem) (cells : List FluxState) (flight : List (Envelope FluxMsg)) → FluxFixHolds p cells flight → IsFluxFixState p cells flight }
    ensures advanced { (p : FluxProblem) (cells : List FluxState) → FluxFixHolds p cells [] → AreAdvanced p cells }
{}
