//! The trait of phases: cells, messages, what handling does, and the laws.

ghost use Rattle.std.specs.Prelude.{◌≡◌, ℕ, ◌++◌, List, OnOk, OnErr};
ghost use Rattle.phase_core.specs.declared.envelope.Envelope.{Envelope};
ghost use Rattle.phase_core.specs.Machine.{Reaction};
ghost use Rattle.phase_core.specs.PhaseLaws.{StartHolds, StartWeighs, Keeps, Lowers, KeepsParts, HoldsInAnyOrder, WeighsInAnyOrder, HasFewCells, IsAddressed, StartWeightFits};
ghost use Rattle.phase_core.specs.Stands.{Stands, CanHandle};

use crate::outbox::Outbox;
use cello_num::Memory;
use std::alloc::Global;

/// Cells that handle messages. What a phase means is said over plain data: by its problem, its invariant `holds`, its
/// `weight`, and `react`. Its laws make every run keep `holds` and end, whatever the order of delivery.
pub trait Phase: Drop {
    /// A cell: what stays at its place and handles messages.
    type Cell: Drop;

    /// What cells send one another.
    type Msg: Drop;

    /// The phase's own plain data and the part that each cell keeps, in order. No value of it is ever made: a phase
    /// gives a struct whose model is that data.
    type Problem;

    // The problem that a phase and its cells make.
    ghost problem: { Self → List Self.Cell → Self.Problem };

    // The cells of a problem before anything was handled.
    ghost begins: { Self.Problem → List Self.Cell → Type 0 };

    // The invariant: what is true of the cells and the flight after every event.
    ghost holds: { Self.Problem → List Self.Cell → List (Envelope Self.Msg) → Type 0 };

    // A bound on how many messages are still handled.
    ghost weight: { Self.Problem → List Self.Cell → List (Envelope Self.Msg) → ℕ };

    // The weight at the start, which the problem tells.
    ghost start_weight: { Self.Problem → ℕ };

    // The start message of the cell at a position.
    ghost start: { ℕ → Self.Msg };

    // What handling a message does, at a position and the cell there: the new cell, and what is sent.
    ghost react: { Self.Problem → ℕ → Self.Cell → Self.Msg → Reaction Self.Cell Self.Msg };

    /// The start message of the cell at position `to`.
    fn start(&self, to: u32) -> Self::Msg
        ensures message { result ≡ start to };

    /// Handles one message at the cell at position `at`. What it sends goes to `out`, behind what waits there.
    fn handle(
        &self,
        alloc: Global,
        at: u32,
        cell: &mut Self::Cell,
        msg: &Self::Msg,
        out: &mut Outbox<Self::Msg>,
    ) -> Result<(), Memory>
        requires stands { CanHandle holds (problem self.now) at cell.old msg.now }
        ensures cell { (cells : List Self.Cell) (flight : List (Envelope Self.Msg)) → Stands holds (problem self.now) at cell.old msg.now cells flight → OnOk result (cell.new ≡ (react (problem self.now cells) at cell.old msg.now).cell) }
        ensures sent { (cells : List Self.Cell) (flight : List (Envelope Self.Msg)) → Stands holds (problem self.now) at cell.old msg.now cells flight → OnOk result (out.new.items ≡ out.old.items ++ (react (problem self.now cells) at cell.old msg.now).sent) }
        ensures cell_stays { OnErr result (cell.new ≡ cell.old) }
        ensures out_stays { OnErr result (out.new.items ≡ out.old.items) };

    // The laws, as specs/PhaseLaws.antt says them. The start:
    ghost start_holds: { (p : Self.Problem) → StartHolds start (begins p) (holds p) };

    ghost start_weighs: { (p : Self.Problem) → StartWeighs start (begins p) (weight p) (start_weight p) };

    // One handling:
    ghost keeps: { (p : Self.Problem) → Keeps (react p) (holds p) };

    ghost lowers: { (p : Self.Problem) → Lowers (react p) (holds p) (weight p) };

    ghost same_problem: { (phase : Self) (p : Self.Problem) → KeepsParts (react p) (problem phase) };

    // Any cells and flight:
    ghost holds_in_any_order: { (p : Self.Problem) → HoldsInAnyOrder (holds p) };

    ghost weighs_in_any_order: { (p : Self.Problem) → WeighsInAnyOrder (weight p) };

    ghost few_cells: { (p : Self.Problem) → HasFewCells (holds p) };

    ghost addressed: { (p : Self.Problem) → IsAddressed (holds p) };

    ghost start_weight_fits: { (p : Self.Problem) → StartWeightFits (holds p) (start_weight p) };
}
