//! Laws about every run of a phase, in any order of delivery.

ghost use Rattle.std.specs.Prelude.{◌≡◌, ℕ, ◌+◌, ◌<◌, ◌≤◌, List, length};
ghost use Rattle.phase_core.specs.Machine.{CoreState, Event, Handles, Delivers, RunsPlainly, start_state};
ghost use Rattle.phase_core.specs.Picks.{RunsByPicks};

use crate::phase::Phase;

/// Every run, whatever the order of delivery, keeps `holds` and the problem, and each event lowers the weight.
pub fn every_run_keeps<P: Phase>()
    ensures holds { (p : P.Problem) (s t : CoreState P.Cell P.Msg) (events : List Event) → P.holds p s.cells s.flight → Delivers (P.react p) s events t → P.holds p t.cells t.flight }
    ensures weight { (p : P.Problem) (s t : CoreState P.Cell P.Msg) (events : List Event) → P.holds p s.cells s.flight → Delivers (P.react p) s events t → length events + P.weight p t.cells t.flight ≤ P.weight p s.cells s.flight }
    ensures problem { (phase : P) (p : P.Problem) (s t : CoreState P.Cell P.Msg) (events : List Event) → Delivers (P.react p) s events t → P.problem phase t.cells ≡ P.problem phase s.cells }
    ensures places { (p : P.Problem) (s t : CoreState P.Cell P.Msg) (events : List Event) → Delivers (P.react p) s events t → length t.cells ≡ length s.cells }
    ensures flight { (p : P.Problem) (s t : CoreState P.Cell P.Msg) (events : List Event) → Delivers (P.react p) s events t → length s.flight ≤ length events + length t.flight }
{}

/// The same from the start, where the problem tells the weight.
pub fn every_run_from_the_start_keeps<P: Phase>()
    ensures holds { (p : P.Problem) (cells : List P.Cell) (t : CoreState P.Cell P.Msg) (events : List Event) → P.begins p cells → Delivers (P.react p) (start_state P.start cells) events t → P.holds p t.cells t.flight }
    ensures weight { (p : P.Problem) (cells : List P.Cell) (t : CoreState P.Cell P.Msg) (events : List Event) → P.begins p cells → Delivers (P.react p) (start_state P.start cells) events t → length events + P.weight p t.cells t.flight ≤ P.start_weight p }
{}

/// Each envelope in flight can be handled, so a run goes on until nothing is in flight; and it weighs at least one.
pub fn every_envelope_is_handled<P: Phase>()
    ensures next { (p : P.Problem) (s : CoreState P.Cell P.Msg) (i : ℕ) → P.holds p s.cells s.flight → i < length s.flight → (t : CoreState P.Cell P.Msg) × Handles (P.react p) s i t }
    ensures weight { (p : P.Problem) (s : CoreState P.Cell P.Msg) → P.holds p s.cells s.flight → length s.flight ≤ P.weight p s.cells s.flight }
{}

/// The run that always handles the first envelope: there is one, and it comes to quiet.
pub fn one_plain_run<P: Phase>()
    ensures reached { (p : P.Problem) (s : CoreState P.Cell P.Msg) → P.holds p s.cells s.flight → (count : ℕ) × (t : CoreState P.Cell P.Msg) × RunsPlainly (P.react p) s count t × (count ≤ P.weight p s.cells s.flight) }
    ensures reached_from_the_start { (p : P.Problem) (cells : List P.Cell) → P.begins p cells → (count : ℕ) × (t : CoreState P.Cell P.Msg) × RunsPlainly (P.react p) (start_state P.start cells) count t × (count ≤ P.start_weight p) }
    ensures count { (p : P.Problem) (s t u : CoreState P.Cell P.Msg) (m n : ℕ) → RunsPlainly (P.react p) s m t → RunsPlainly (P.react p) s n u → m ≡ n }
    ensures cells { (p : P.Problem) (s t u : CoreState P.Cell P.Msg) (m n : ℕ) → RunsPlainly (P.react p) s m t → RunsPlainly (P.react p) s n u → t.cells ≡ u.cells }
{}

/// A run by picks is a run of the core machine of at most as many events, so what holds of every run holds of it.
pub fn a_run_by_picks_is_a_run<P: Phase>()
    ensures runs { (p : P.Problem) (s t : CoreState P.Cell P.Msg) (picks : List ℕ) → RunsByPicks (P.react p) s picks t → (events : List Event) × Delivers (P.react p) s events t × (length events ≤ length picks) }
{}
