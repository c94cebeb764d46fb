//! Running a phase on one thread: its start messages, and then one handling after another.

ghost use Rattle.std.specs.Prelude.{◌≡◌, ◌≤◌, ◌∷◌, [], IfOk, OnOk, length};
ghost use Rattle.phase_core.specs.Machine.{Handles, RunsPlainly, start_flight, start_state};

use crate::envelope::Envelope;
use crate::flight::Flight;
use crate::outbox::Outbox;
use crate::phase::Phase;
use crate::quiet::Quiet;
use cello_num::Memory;
use std::alloc::Global;

/// Runs the phase on one thread, first in first out, from its start until nothing is in flight.
pub fn drive<P: Phase>(alloc: Global, phase: P, mut cells: Vec<P::Cell>) -> Result<Quiet<P>, Memory>
    requires begins { P.begins (P.problem phase cells.items) cells.items }
    ensures problem { IfOk result (λ quiet. quiet.problem ≡ P.problem phase cells.items) }
    ensures plain_run { IfOk result (λ quiet. RunsPlainly (P.react (P.problem phase cells.items)) (start_state P.start cells.items) quiet.handled (record { cells = quiet.cells; flight = [] })) }
    ensures holds { IfOk result (λ quiet. P.holds (P.problem phase cells.items) quiet.cells []) }
    ensures handles_each { IfOk result (λ quiet. length cells.items ≤ quiet.handled) }
    ensures bounded { IfOk result (λ quiet. quiet.handled ≤ P.start_weight (P.problem phase cells.items)) }
{
    let mut flight = start_messages(alloc, &phase, cells.len() as u32)?;
    let mut handled: u64 = 0;
    while let Some(envelope) = flight.pop_front() {
        handle_next(alloc, &phase, &mut cells, envelope, &mut flight)?;
        handled += 1;
    }
    Ok(Quiet::settled(phase, cells, handled))
}

/// The start messages, in the order of the cells.
fn start_messages<P: Phase>(alloc: Global, phase: &P, count: u32) -> Result<Flight<P::Msg>, Memory>
    ensures { IfOk result (λ flight. flight ≡ start_flight P.start count) }
{
    let mut sent = Outbox::new(alloc);
    sent.reserve(count as usize)?;
    for to in 0..count {
        let msg = phase.start(to);
        sent.push(Envelope { to, msg });
    }
    Ok(Flight::of(alloc, sent))
}

/// Handles an envelope that was taken from the front of the flight.
fn handle_next<P: Phase>(
    alloc: Global,
    phase: &P,
    cells: &mut Vec<P::Cell>,
    envelope: Envelope<P::Msg>,
    flight: &mut Flight<P::Msg>,
) -> Result<(), Memory>
    requires { P.holds (P.problem phase.now cells.old.items) cells.old.items (envelope ∷ flight.old) }
    ensures { OnOk result (Handles (P.react (P.problem phase.now cells.old.items)) (record { cells = cells.old.items; flight = envelope ∷ flight.old }) 0 (record { cells = cells.new.items; flight = flight.new })) }
{
    let cell = &mut cells[envelope.to as usize];
    phase.handle(alloc, envelope.to, cell, &envelope.msg, &mut flight.out)?;
    Ok(())
}
