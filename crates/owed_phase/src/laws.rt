//! Laws of phases whose cells owe messages, in any order of delivery.
ghost use Rattle.std.specs.Prelude.{◌≡◌, ℕ, true, List, []};
ghost use Rattle.phase_core.specs.declared.envelope.Envelope.{Envelope};
ghost use Rattle.owed_phase.specs.Plans.{IsPlan};
ghost use Rattle.owed_phase.specs.Holds.{Owing};
ghost use Rattle.owed_phase.specs.Rest.{AreDone};
ghost use Rattle.owed_phase.specs.States.{InThreeStates, StartsInFlight};

/// What a phase whose cells owe messages is over plain data. No value of it is ever made.
pub trait Owes {
    ghost use Rattle.owed_phase.specs.Plans.{Plan};

    /// What the problem tells of a cell.
    type Part;

    /// A cell.
    type Cell;

    /// What cells send one another.
    type Msg;

    ghost plan: { Plan Self.Part Self.Cell Self.Msg };
}

/// In every state each message is handled, owed or in flight, and is so once, and exactly one start is in flight to each
/// cell that hasn't started.
pub fn each_message_is_in_one_state<P: Owes>()
    ensures three { (parts : List P.Part) (cells : List P.Cell) (flight : List (Envelope P.Msg)) → (owing : Owing P.plan parts cells flight) →
        InThreeStates P.plan parts cells flight owing.handled }
    ensures starts { (parts : List P.Part) (cells : List P.Cell) (flight : List (Envelope P.Msg)) → IsPlan P.plan parts → Owing P.plan parts cells flight →
        StartsInFlight P.plan cells flight }
{}

/// At rest each cell has started, and has handled all messages to it, where a cell that has started owes nothing.
pub fn each_cell_is_done_at_rest<P: Owes>()
    ensures done { (parts : List P.Part) (cells : List P.Cell) → IsPlan P.plan parts →
        ((i : ℕ) (c : P.Cell) → P.plan.started c ≡ true → P.plan.owed i c ≡ []) → Owing P.plan parts cells [] → AreDone P.plan parts cells }
{}
