//! Deliveries in an order that is given by picks.

ghost use Rattle.std.specs.Prelude.{◌≡◌, ◌<◌, ◌∷◌, [], IfOk, OnOk, length};
ghost use Rattle.phase_core.specs.Machine.{Handles, start_flight, start_state};
ghost use Rattle.phase_core.specs.Picks.{RunsByPicks};

use crate::envelope::Envelope;
use crate::outbox::Outbox;
use crate::phase::Phase;
use cello_num::Memory;
use std::alloc::Global;

/// Where some deliveries lead: the cells, and the envelopes that are still in flight.
#[derive(Drop)]
pub struct Delivered<P: Phase> {
    pub cells: Vec<P::Cell>,
    pub flight: Vec<Envelope<P::Msg>>,
}

/// Delivers one envelope for each pick, from the phase's start: the one at the pick's place in the flight, counted round.
/// It ends early where nothing is in flight.
pub fn deliver<P: Phase>(
    alloc: Global,
    phase: P,
    mut cells: Vec<P::Cell>,
    picks: &[u32],
) -> Result<Delivered<P>, Memory>
    requires begins { P.begins (P.problem phase cells.items) cells.items }
    ensures run { IfOk result (λ d. RunsByPicks (P.react (P.problem phase cells.items)) (start_state P.start cells.items) picks.now (record { cells = d.cells.items; flight = d.flight.items })) }
    ensures holds { IfOk result (λ d. P.holds (P.problem phase cells.items) d.cells.items d.flight.items) }
    ensures problem { IfOk result (λ d. P.problem phase d.cells.items ≡ P.problem phase cells.items) }
{
    let mut flight = start_list(alloc, &phase, cells.len() as u32)?;
    for k in 0..picks.len() {
        if flight.is_empty() {
            return Ok(Delivered { cells, flight });
        }
        let at = picks[k] as usize % flight.len();
        handle_at(alloc, &phase, &mut cells, &mut flight, at)?;
    }
    Ok(Delivered { cells, flight })
}

// The start messages, in the order of the cells.
fn start_list<P: Phase>(
    alloc: Global,
    phase: &P,
    count: u32,
) -> Result<Vec<Envelope<P::Msg>>, Memory>
    ensures { IfOk result (λ flight. flight.items ≡ start_flight P.start count) }
{
    let mut sent = Vec::new(alloc);
    for to in 0..count {
        let msg = phase.start(to);
        sent.push(Envelope { to, msg })?;
    }
    Ok(sent)
}

// Handles the envelope at a place of the flight.
fn handle_at<P: Phase>(
    alloc: Global,
    phase: &P,
    cells: &mut Vec<P::Cell>,
    flight: &mut Vec<Envelope<P::Msg>>,
    at: usize,
) -> Result<(), Memory>
    requires within { at < length flight.old.items }
    requires holds { P.holds (P.problem phase.now cells.old.items) cells.old.items flight.old.items }
    ensures { OnOk result (Handles (P.react (P.problem phase.now cells.old.items)) (record { cells = cells.old.items; flight = flight.old.items }) at (record { cells = cells.new.items; flight = flight.new.items })) }
{
    let envelope = flight.remove(at);
    let cell = &mut cells[envelope.to as usize];
    let mut out = Outbox::new(alloc);
    phase.handle(alloc, envelope.to, cell, &envelope.msg, &mut out)?;
    let mut sent = out.into_items();
    flight.append(&mut sent)?;
    Ok(())
}
