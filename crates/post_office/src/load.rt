//! What lies in a post's slots: a shard's cells with their envelopes, and a shard's box.
ghost use Rattle.std.specs.Prelude.{◌≡◌, ◌^◌, ◌+◌, ◌<◌, ◌≤◌, All, length, vec_capacity, []};
ghost use Rattle.quiet_table.specs.Contents.{pool};
ghost use Rattle.post_office.specs.Shares.{IsFor, Sorted};

use crate::pile::Pile;
use crate::plain::{About, Part};
use phase_core::{Envelope, Phase};
use quiet_table::{LegalLoad, Load};
use std::snapshot::Snapshot;

/// A shard's cells with its envelopes: in `mail` a pile for each shard. The one of this shard waits to be handled, the
/// others go out. `fresh` were sent and have no place in `mail` yet.
#[derive(Drop)]
pub struct PostCell<P: Phase> {
    pub phase: Snapshot<P>,
    pub first: Snapshot<Vec<P::Cell>>,
    pub owners: Snapshot<Vec<u8>>,
    pub shard: u32,
    pub cells: Vec<P::Cell>,
    pub mail: Vec<Pile<P::Msg>>,
    pub fresh: Vec<Envelope<P::Msg>>,
    ghost few: { length (pool mail.items) + length fresh.items < 2 ^ 62 },
    ghost within: { (shard < length mail.items) × All (λ o. o < length mail.items) owners.value.items },
    ghost sorted: { Sorted owners.value.items mail.items },
    ghost addressed: { All (λ e. e.to < length owners.value.items) fresh.items },
}

/// A shard's box: envelopes for its cells. In the box of shard 0 lies the room into which `close` puts the cells of all
/// shards.
#[derive(Drop)]
pub struct PostBox<P: Phase> {
    pub owners: Snapshot<Vec<u8>>,
    pub shard: u32,
    pub envelopes: Pile<P::Msg>,
    pub room: Vec<P::Cell>,
    ghost small: { length envelopes < 2 ^ 62 },
    ghost ours: { All (λ e. IsFor owners.value.items shard e) envelopes },
    ghost roomy: { (room.items ≡ []) × (shard ≡ 0 → length owners.value.items ≤ vec_capacity room) },
}

/// How many envelopes the piles have.
pub(crate) fn count_all<M>(mail: &Vec<Pile<M>>) -> u64
    requires few { length (pool mail.now.items) < 2 ^ 62 }
    ensures { result ≡ length (pool mail.now.items) }
{
    let mut total = 0;
    for k in 0..mail.len() {
        total += mail[k].len();
    }
    total
}

impl<P: Phase> Load for PostCell<P> {
    ghost use Rattle.std.specs.Prelude.{Some, ◌++◌, length, slice_index_or, []};
    ghost use Rattle.quiet_table.specs.Contents.{pool};
    ghost use Rattle.post_office.specs.Posts.{stood};

    type Rest = Part<P, P::Problem, P::Cell>;

    type Parcel = Envelope<P::Msg>;

    ghost rest = { λ c. record { owners = c.owners.value.items; shard = c.shard; waits = length (slice_index_or c.mail.items c.shard []); stood = Some (stood P.problem c.phase.value c.first.value.items c.cells.items) } };

    ghost parcels = { λ c. pool c.mail.items ++ c.fresh.items };

    fn load(&self) -> u64 {
        count_all(&self.mail) + self.fresh.len() as u64
    }
}

impl<P: Phase> LegalLoad for PostCell<P> {
    ghost use Rattle.post_office.specs.Posts.{IsLegal, PartTurn, about};
    ghost use Rattle.post_office.specs.Lemmas.PartLaws as parts;
    ghost use Rattle.post_office.specs.Lemmas.LegalLaws as laws;

    type Origin = Option<About<P, P::Problem>>;

    ghost legal = { IsLegal P.problem P.holds P.weight P.start_weight };

    ghost turn = { PartTurn P.react };

    ghost origin = { about };

    ghost balanced = { parts.balanced P.react };

    ghost idle = { parts.idle P.react };

    ghost sends_after = { parts.sends_after P.react };

    ghost keeps = { laws.keeps P.problem P.holds P.weight P.start_weight P.react (record { keeps = P.keeps; lowers = P.lowers; same = P.same_problem; order = P.holds_in_any_order; same_weight = P.weighs_in_any_order; addressed = P.addressed; small = P.start_weight_fits }) };

    ghost any_order = { laws.any_order P.problem P.holds P.weight P.start_weight P.react (record { keeps = P.keeps; lowers = P.lowers; same = P.same_problem; order = P.holds_in_any_order; same_weight = P.weighs_in_any_order; addressed = P.addressed; small = P.start_weight_fits }) };

    ghost bounded = { laws.bounded P.problem P.holds P.weight P.start_weight P.react (record { keeps = P.keeps; lowers = P.lowers; same = P.same_problem; order = P.holds_in_any_order; same_weight = P.weighs_in_any_order; addressed = P.addressed; small = P.start_weight_fits }) };

    ghost same_origin = { parts.same_origin P.react };
}

impl<P: Phase> Load for PostBox<P> {
    ghost use Rattle.std.specs.Prelude.{None};

    type Rest = Part<P, P::Problem, P::Cell>;

    type Parcel = Envelope<P::Msg>;

    ghost rest = { λ b. record { owners = b.owners.value.items; shard = b.shard; waits = 0; stood = None } };

    ghost parcels = { λ b. b.envelopes };

    fn load(&self) -> u64 {
        self.envelopes.len()
    }
}
