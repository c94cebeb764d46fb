//! A phase that has come to rest.

ghost use Rattle.std.specs.Prelude.{◌≡◌, ◌≤◌, []};

use crate::phase::Phase;
use std::marker::Model;

/// A phase that has come to rest: nothing is in flight, and `holds` stands.
#[derive(Drop)]
pub struct Quiet<P: Phase> {
    phase: P,
    cells: Vec<P::Cell>,
    handled: u64,
}

impl<P: Phase> Model for Quiet<P> {
    ghost use Rattle.std.specs.Prelude.{◌≤◌, []};
    ghost use Rattle.phase_core.specs.Settled.{Settled};

    ghost Value = { Settled P.Problem P.Cell };

    ghost view = { λ q. record { problem = P.problem q.phase q.cells.items; cells = q.cells.items; handled = q.handled } };

    ghost invariant = { λ q. P.holds (P.problem q.phase q.cells.items) q.cells.items [] × (q.handled ≤ P.start_weight (P.problem q.phase q.cells.items)) };
}

impl<P: Phase> Quiet<P> {
    /// A phase at rest, from its parts.
    pub fn settled(phase: P, cells: Vec<P::Cell>, handled: u64) -> Quiet<P>
        requires holds { P.holds (P.problem phase cells.items) cells.items [] }
        requires bounded { handled ≤ P.start_weight (P.problem phase cells.items) }
        ensures problem { result.problem ≡ P.problem phase cells.items }
        ensures cells { result.cells ≡ cells.items }
        ensures handled { result.handled ≡ handled }
    {
        Quiet {
            phase,
            cells,
            handled,
        }
    }

    /// The cells at rest.
    pub fn cells(&self) -> &[P::Cell]
        ensures cells { result.now ≡ self.now.cells }
        ensures holds { P.holds self.now.problem self.now.cells [] }
    {
        self.cells.as_slice()
    }

    /// How many messages were handled on the way to rest.
    pub fn handled(&self) -> u64
        ensures handled { result ≡ self.now.handled }
        ensures bounded { result ≤ P.start_weight self.now.problem }
    {
        self.handled
    }

    /// The cells at rest, as a list of one's own.
    pub fn into_cells(self) -> Vec<P::Cell>
        ensures cells { result.items ≡ self.cells }
        ensures holds { P.holds self.problem self.cells [] }
    {
        let Quiet {
            phase: _,
            cells,
            handled: _,
        } = self;
        cells
    }
}
