//! Laws of the refresh phase, in any order of delivery.

ghost use Rattle.std.specs.Prelude.{◌≡◌, ℕ, ◌+◌, ◌≤◌, List, [], length};
ghost use Rattle.phase_core.specs.declared.envelope.Envelope.{Envelope};
ghost use Rattle.phase_core.specs.Machine.{CoreState, Event, IsQuiet, Delivers, start_state};
ghost use Rattle.refresh_phase.specs.declared.refresh_msg.RefreshMsg.{RefreshMsg};
ghost use Rattle.refresh_phase.specs.Cells.{LeafState, RefreshProblem};
ghost use Rattle.refresh_phase.specs.React.{refresh_react, refresh_start};
ghost use Rattle.refresh_phase.specs.Problem.{RefreshBegins, RefreshHolds, refresh_weight, refresh_start_weight};
ghost use Rattle.refresh_phase.specs.States.{AreRefreshed, IsRefreshState};

use crate::refresh::Refresh;
use phase_core::every_run_from_the_start_keeps;

/// Every list of events from the start keeps the invariant and what it says of each cell, region and message, and
/// handles at most one message for each leaf and each region. At rest no amount has changed, and every shell holds the
/// samples of its block's level.
pub fn every_run_refreshes()
    ensures holds { (p : RefreshProblem) (cells : List LeafState) (t : CoreState LeafState RefreshMsg) (events : List Event) → RefreshBegins p cells →
        Delivers (refresh_react p) (start_state refresh_start cells) events t → RefreshHolds p t.cells t.flight }
    ensures state { (p : RefreshProblem) (cells : List LeafState) (t : CoreState LeafState RefreshMsg) (events : List Event) → RefreshBegins p cells →
        Delivers (refresh_react p) (start_state refresh_start cells) events t → IsRefreshState p t.cells t.flight }
    ensures handled { (p : RefreshProblem) (cells : List LeafState) (t : CoreState LeafState RefreshMsg) (events : List Event) → RefreshBegins p cells →
        Delivers (refresh_react p) (start_state refresh_start cells) events t → length events + refresh_weight p t.cells t.flight ≤ refresh_start_weight p }
    ensures refreshed { (p : RefreshProblem) (cells : List LeafState) (t : CoreState LeafState RefreshMsg) (events : List Event) → RefreshBegins p cells →
        Delivers (refresh_react p) (start_state refresh_start cells) events t → IsQuiet t → AreRefreshed p t.cells }
{
    every_run_from_the_start_keeps::<Refresh>()
}

/// What the invariant says of any cells and flight; with nothing in flight, the blocks are refreshed.
pub fn every_state_of_a_run()
    ensures state { (p : RefreshProblem) (cells : List LeafState) (flight : List (Envelope RefreshMsg)) → RefreshHolds p cells flight → IsRefreshState p cells flight }
    ensures refreshed { (p : RefreshProblem) (cells : List LeafState) → RefreshHolds p cells [] → AreRefreshed p cells }
{}
