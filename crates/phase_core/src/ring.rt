//! A small phase for the tests: each cell passes a token to the next cell, which answers.

use crate::envelope::Envelope;
use crate::outbox::Outbox;
use crate::phase::Phase;
use cello_num::Memory;
use std::alloc::Global;
use std::marker::Model;

#[derive(Drop)]
pub struct Ring {
    pub places: u32,
}

/// Never made: its model is the problem.
#[derive(Drop)]
pub struct Places {
    places: u32,
    nexts: Vec<u32>,
}

impl Model for Places {
    ghost use Rattle.phase_core.specs.Lemmas.Ring.{RingProblem};

    ghost Value = { RingProblem };

    ghost view = { λ p. record { places = p.places; nexts = p.nexts.items } };
}

#[derive(Drop)]
pub struct Place {
    next: u32,
    passed: Vec<u32>,
    answered: Vec<u32>,
}

impl Model for Place {
    ghost use Rattle.phase_core.specs.Lemmas.Ring.{RingPlace};

    ghost Value = { RingPlace };

    ghost view = { λ c. record { next = c.next; passed = c.passed.items; answered = c.answered.items } };
}

#[derive(Clone, Copy, Drop)]
enum Kind {
    Begin,
    Token(u32),
    Answer(u32),
}

#[derive(Drop)]
pub struct Note {
    kind: Kind,
}

impl Model for Note {
    ghost use Rattle.phase_core.specs.Lemmas.Ring.{RingNote, Begin, Token, Answer};
    ghost use Rattle.phase_core.specs.declared.ring.Kind.TheVariants.{Begin as KindBegin, Token as KindToken, Answer as KindAnswer};

    ghost Value = { RingNote };

    ghost view = { λ n. elim n.kind [ KindBegin ↦ Begin | KindToken from ↦ Token from | KindAnswer from ↦ Answer from ] };
}

impl Place {
    ghost use Rattle.std.specs.Prelude.{◌≡◌, []};

    pub fn before(alloc: Global, next: u32) -> Place
        ensures { result ≡ record { next = next; passed = []; answered = [] } }
    {
        Place {
            next,
            passed: Vec::new(alloc),
            answered: Vec::new(alloc),
        }
    }

    pub fn passed(&self) -> &[u32] {
        self.passed.as_slice()
    }

    pub fn answered(&self) -> &[u32] {
        self.answered.as_slice()
    }
}

impl Phase for Ring {
    ghost use Rattle.phase_core.specs.Lemmas.Ring.{ring_problem, IsRing, RingHolds, ring_weight, ring_start_weight, ring_start, ring_react};
    ghost use Rattle.phase_core.specs.Lemmas.RingLaws as laws;

    type Cell = Place;

    type Msg = Note;

    type Problem = Places;

    ghost problem = { λ phase. ring_problem phase.places };

    ghost begins = { IsRing };

    ghost holds = { RingHolds };

    ghost weight = { ring_weight };

    ghost start_weight = { ring_start_weight };

    ghost start = { ring_start };

    ghost react = { ring_react };

    ghost start_holds = { laws.start_holds };

    ghost start_weighs = { laws.start_weighs };

    ghost keeps = { laws.keeps };

    ghost lowers = { laws.lowers };

    ghost same_problem = { λ phase. laws.same_problem phase.places };

    ghost holds_in_any_order = { laws.holds_in_any_order };

    ghost weighs_in_any_order = { laws.weighs_in_any_order };

    ghost few_cells = { laws.few_cells };

    ghost addressed = { laws.addressed };

    ghost start_weight_fits = { laws.start_weight_fits };

    fn start(&self, _to: u32) -> Note {
        Note { kind: Kind::Begin }
    }

    fn handle(
        &self,
        _alloc: Global,
        at: u32,
        cell: &mut Place,
        msg: &Note,
        out: &mut Outbox<Note>,
    ) -> Result<(), Memory> {
        match msg.kind {
            Kind::Begin => {
                out.reserve(1)?;
                out.push(Envelope {
                    to: cell.next,
                    msg: Note {
                        kind: Kind::Token(at),
                    },
                });
            }
            Kind::Token(from) => {
                out.reserve(1)?;
                cell.passed.push(from)?;
                out.push(Envelope {
                    to: from,
                    msg: Note {
                        kind: Kind::Answer(at),
                    },
                });
            }
            Kind::Answer(from) => cell.answered.push(from)?,
        }
        Ok(())
    }
}
