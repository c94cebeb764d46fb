//! A leaf of the adapt phase.

ghost use Rattle.std.specs.Prelude.{◌≡◌, true, ◌++◌, OnOk, OnErr};
ghost use Rattle.adapt_core.specs.React.{raised, tells};
ghost use Rattle.adapt_core.specs.Problem.{unopened};

use crate::adapt_msg::AdaptMsg;
use block_index::{Place, Wish};
use cello_num::Memory;
use phase_core::{Envelope, Outbox};
use std::marker::Model;

/// A leaf of the adapt phase: what the problem says of it, its present level, and whether it has started.
#[derive(Drop)]
pub struct AdaptCell {
    index: u32,
    place: Place,
    wish: Wish,
    opening: u8,
    neighbours: Vec<u32>,
    siblings: Vec<u32>,
    level: u8,
    started: bool,
}

impl Model for AdaptCell {
    ghost use Rattle.adapt_core.specs.Cells.{LeafState};

    ghost Value = { LeafState };

    ghost view = { λ c. record {
      part = record { index = c.index; place = c.place; wish = c.wish; opening = c.opening; neighbours = c.neighbours.items; siblings = c.siblings.items };
      level = c.level;
      started = c.started;
    } };
}

impl AdaptCell {
    /// A cell before anything is handled: not started, one level below its leaf's, and at level 0 at that.
    pub(crate) fn unopened(
        index: u32,
        place: Place,
        wish: Wish,
        opening: u8,
        neighbours: Vec<u32>,
        siblings: Vec<u32>,
    ) -> AdaptCell
        ensures { result ≡ unopened (record { index = index; place = place; wish = wish; opening = opening; neighbours = neighbours.items; siblings = siblings.items }) }
    {
        AdaptCell {
            index,
            place,
            wish,
            opening,
            neighbours,
            siblings,
            level: place.level().saturating_sub(1),
            started: false,
        }
    }

    /// The leaves that touch this one, by their positions.
    pub(crate) fn into_neighbours(self) -> Vec<u32>
        ensures { result.items ≡ self.part.neighbours }
    {
        let AdaptCell { neighbours, .. } = self;
        neighbours
    }

    /// The present level.
    pub fn level(&self) -> u8
        ensures level { result ≡ self.now.level }
    {
        self.level
    }

    /// The least level that the rules about the leaf alone allow.
    pub(crate) fn opening(&self) -> u8
        ensures { result ≡ self.now.part.opening }
    {
        self.opening
    }

    pub(crate) fn started(&self) -> bool
        ensures { result ≡ self.now.started }
    {
        self.started
    }

    /// Takes a level, and has started from then on.
    pub(crate) fn start(&mut self, level: u8)
        ensures { self.new ≡ record { part = self.old.part; level = level; started = true } }
    {
        self.level = level;
        self.started = true;
    }

    /// Takes a level.
    pub(crate) fn set_level(&mut self, level: u8)
        ensures { self.new ≡ record { part = self.old.part; level = level; started = self.old.started } }
    {
        self.level = level;
    }

    /// The level that the level `value` of the touching leaf at position `from` leaves to this leaf: at least one
    /// less, and beside a sibling that doesn't coarsen, no coarser. It looks for the sibling only where that tells.
    pub(crate) fn raised(&self, from: u32, value: u8) -> u8
        ensures { result ≡ (raised self.now from value).level }
    {
        let least = self.level.max(value.saturating_sub(1));
        let beside = value.min(self.place.level());
        if least < beside && self.siblings.contains(&from) {
            beside
        } else {
            least
        }
    }

    /// Tells a level of this leaf to each touching leaf, in ascending order.
    pub(crate) fn tell(&self, level: u8, out: &mut Outbox<AdaptMsg>) -> Result<(), Memory>
        ensures sent { OnOk result (out.new.items ≡ out.old.items ++ tells self.now.part level) }
        ensures stays { OnErr result (out.new.items ≡ out.old.items) }
    {
        out.reserve(self.neighbours.len())?;
        for neighbour in &self.neighbours {
            let msg = AdaptMsg::Level {
                from: self.index,
                value: level,
            };
            out.push(Envelope {
                to: *neighbour,
                msg,
            });
        }
        Ok(())
    }
}
