//! A small phase run, an outbox, and what threads will ask.

ghost use Rattle.std.specs.Prelude.{IfOk, ◌≤◌, ◌*◌, List, length};
ghost use Rattle.phase_core.specs.Machine.{CoreState, Event, Delivers, start_state};
ghost use Rattle.phase_core.specs.Lemmas.Ring.{RingNote, RingPlace, RingProblem, ring_problem, ring_react, ring_start, IsRing};

use crate::delivery::drive;
use crate::envelope::Envelope;
use crate::laws::every_run_from_the_start_keeps;
use crate::outbox::Outbox;
use crate::phase::Phase;
use crate::quiet::Quiet;
use crate::ring::{Place, Ring};
use cello_num::Memory;
use std::alloc::Global;
use std::test::Fail;

/// Two of the three places have the first as their next one, so the order of delivery shows.
fn three_places(alloc: Global) -> Result<Vec<Place>, Memory>
    ensures { IfOk result (λ cells. IsRing (ring_problem 3 cells.items) cells.items) }
{
    let mut cells = Vec::new(alloc);
    cells.push(Place::before(alloc, 1))?;
    cells.push(Place::before(alloc, 0))?;
    cells.push(Place::before(alloc, 0))?;
    Ok(cells)
}

/// What the laws say of this phase, whatever the order of delivery.
fn runs_are_short()
    ensures { (p : RingProblem) (cells : List RingPlace) (t : CoreState RingPlace RingNote) (events : List Event) → IsRing p cells → Delivers (ring_react p) (start_state ring_start cells) events t → length events ≤ 3 * p.places }
{
    every_run_from_the_start_keeps::<Ring>()
}

#[test]
fn tokens_pass_and_are_answered(rt: HostRuntime) -> Result<(), Fail> {
    let cells = three_places(rt.alloc())?;
    let quiet = drive(rt.alloc(), Ring { places: 3 }, cells)?;
    assert_eq!(rt; quiet.handled(), 9);
    let cells = quiet.into_cells();
    assert_eq!(rt; cells.len(), 3);
    assert_eq!(rt; cells[0].passed(), [1, 2].as_slice());
    assert_eq!(rt; cells[1].passed(), [0].as_slice());
    assert_eq!(rt; cells[2].passed(), [].as_slice());
    assert_eq!(rt; cells[0].answered(), [1].as_slice());
    assert_eq!(rt; cells[1].answered(), [0].as_slice());
    assert_eq!(rt; cells[2].answered(), [0].as_slice());
    Ok(())
}

#[test]
fn an_outbox_keeps_the_order_of_sending(rt: HostRuntime) -> Result<(), Fail> {
    let mut out: Outbox<u8> = Outbox::new(rt.alloc());
    out.reserve(2)?;
    out.push(Envelope { to: 4, msg: 7 });
    out.push(Envelope { to: 1, msg: 5 });
    let want = [Envelope { to: 4, msg: 7 }, Envelope { to: 1, msg: 5 }];
    assert_eq!(rt; out.items(), want.as_slice());
    let sent = out.into_items();
    assert_eq!(rt; sent.as_slice(), want.as_slice());
    Ok(())
}

fn may_be_sent<T: Send>(_value: &T) {}

fn may_be_shared<T: Sync>(_value: &T) {}

/// What a layer of threads over any phase needs.
fn between_threads<P: Phase + Send + Sync>(phase: &P, quiet: &Quiet<P>, out: &Outbox<P::Msg>)
where
    P::Cell: Send,
    P::Msg: Send + Sync,
{
    may_be_shared(phase);
    may_be_sent(quiet);
    may_be_sent(out);
}

#[test]
fn a_phase_may_go_between_threads(rt: HostRuntime) -> Result<(), Fail> {
    runs_are_short();
    let phase = Ring { places: 3 };
    let cells = three_places(rt.alloc())?;
    let quiet = drive(rt.alloc(), Ring { places: 3 }, cells)?;
    between_threads(&phase, &quiet, &Outbox::new(rt.alloc()));
    Ok(())
}
