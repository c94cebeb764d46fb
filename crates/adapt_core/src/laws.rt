//! Laws of the adapt phase, in any order of delivery.

ghost use Rattle.std.specs.Prelude.{◌≡◌, ℕ, ◌+◌, ◌*◌, ◌^◌, ◌≤◌, List, [], length, map};
ghost use Rattle.phase_core.specs.Machine.{CoreState, Event, IsQuiet, Delivers, start_state};
ghost use Rattle.leaf_set.specs.LevelRules.{IsLeast};
ghost use Rattle.adapt_core.specs.declared.adapt_msg.AdaptMsg.{AdaptMsg};
ghost use Rattle.adapt_core.specs.Cells.{LeafState, AdaptProblem};
ghost use Rattle.adapt_core.specs.React.{adapt_react, adapt_start};
ghost use Rattle.adapt_core.specs.Problem.{mesh_of, wishes_of, IsAdaptProblem, AdaptBegins};
ghost use Rattle.adapt_core.specs.Holds.{AdaptHolds, adapt_start_weight, touching_pairs};

/// What handling does follows from the cell and the message alone.
pub fn handling_needs_no_problem()
    ensures same { (p q : AdaptProblem) (at to : ℕ) (cell : LeafState) (msg : AdaptMsg) → adapt_react p at cell msg ≡ adapt_react q to cell msg }
{}

/// With nothing in flight the levels are the least that meet the level rules.
pub fn levels_at_rest_are_least()
    ensures least { (p : AdaptProblem) (cells : List LeafState) → AdaptHolds p cells [] → IsLeast p.grid (mesh_of p) (wishes_of p) (map (λ c. c.level) cells) }
{}

/// Every list of events from the start keeps the invariant, handles at most a message for each leaf and three for each
/// ordered pair of touching leaves, and at rest ends in the least levels.
pub fn every_run_agrees()
    ensures holds { (p : AdaptProblem) (cells : List LeafState) (t : CoreState LeafState AdaptMsg) (events : List Event) → AdaptBegins p cells → Delivers (adapt_react p) (start_state adapt_start cells) events t → AdaptHolds p t.cells t.flight }
    ensures handled { (p : AdaptProblem) (cells : List LeafState) (t : CoreState LeafState AdaptMsg) (events : List Event) → AdaptBegins p cells → Delivers (adapt_react p) (start_state adapt_start cells) events t → length events ≤ length (mesh_of p) + 3 * touching_pairs p }
    ensures least { (p : AdaptProblem) (cells : List LeafState) (t : CoreState LeafState AdaptMsg) (events : List Event) → AdaptBegins p cells → Delivers (adapt_react p) (start_state adapt_start cells) events t → IsQuiet t → IsLeast p.grid (mesh_of p) (wishes_of p) (map (λ c. c.level) t.cells) }
    ensures start_weight { (p : AdaptProblem) → adapt_start_weight p ≤ length (mesh_of p) + 3 * touching_pairs p }
{}

/// A phase handles few messages, so the messages of several phases can be counted together.
pub fn few_messages()
    ensures few { (p : AdaptProblem) → IsAdaptProblem p → adapt_start_weight p ≤ 2 ^ 38 }
{}
