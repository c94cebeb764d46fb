//! A small load for tests: cells with credits, whose envelopes are sent on as long as a credit is left.
ghost use Rattle.std.specs.Prelude.{◌≡◌, length};

use crate::load::{LegalLoad, Load};

/// A cell.
#[derive(Drop)]
pub struct Purse {
    pub credits: u64,
    pub envelopes: Vec<u64>,
}

/// A box.
#[derive(Drop)]
pub struct Tray {
    pub envelopes: Vec<u64>,
}

impl Load for Tray {
    type Rest = u64;

    type Parcel = u64;

    ghost rest = { λ _. 0 };

    ghost parcels = { λ t. t.envelopes.items };

    fn load(&self) -> u64 {
        self.envelopes.len() as u64
    }
}

impl Load for Purse {
    type Rest = u64;

    type Parcel = u64;

    ghost rest = { λ p. p.credits };

    ghost parcels = { λ p. p.envelopes.items };

    fn load(&self) -> u64 {
        self.envelopes.len() as u64
    }
}

impl LegalLoad for Purse {
    ghost use Rattle.quiet_table.specs.Lemmas.Purses as purses;

    type Origin = u64;

    ghost legal = { purses.PursesLegal };

    ghost turn = { purses.PurseTurn };

    ghost origin = { purses.slot_count };

    ghost balanced = { purses.balanced };

    ghost idle = { purses.idle };

    ghost sends_after = { purses.sends_after };

    ghost keeps = { purses.keeps };

    ghost any_order = { purses.any_order };

    ghost bounded = { purses.bounded };

    ghost same_origin = { purses.same_origin };
}
