//! What a handling sends.

ghost use Rattle.std.specs.Prelude.{◌≡◌, ◌+◌, ◌≤◌, ◌++◌, ◌∷◌, [], OnOk, reverse};

use crate::envelope::Envelope;
use cello_num::Memory;
use std::alloc::Global;
use std::marker::Model;

/// The envelopes that a handling sends, in the order of sending, and places reserved for more.
#[derive(Drop)]
pub struct Outbox<M> {
    sent: Vec<Envelope<M>>,
}

impl<M> Model for Outbox<M> {
    ghost use Rattle.std.specs.Prelude.{vec_len, vec_capacity, ◌-◌};
    ghost use Rattle.phase_core.specs.Outgoing.{Outgoing};

    ghost Value = { Outgoing M };

    ghost view = { λ o. record { items = o.sent.items; spare = vec_capacity o.sent - vec_len o.sent } };
}

impl<M> Outbox<M> {
    /// Keeps the allocator for what is reserved later.
    pub fn new(alloc: Global) -> Outbox<M>
        ensures empty { result.items ≡ [] }
        ensures spare { result.spare ≡ 0 }
    {
        Outbox {
            sent: Vec::new(alloc),
        }
    }

    /// Sees to it that `count` envelopes can be pushed.
    pub fn reserve(&mut self, count: usize) -> Result<(), Memory>
        ensures items { self.new.items ≡ self.old.items }
        ensures room { OnOk result (count ≤ self.new.spare) }
    {
        self.sent.reserve(count)?;
        Ok(())
    }

    /// Puts an envelope behind the others, at a reserved place.
    pub fn push(&mut self, envelope: Envelope<M>)
        requires room { 1 ≤ self.old.spare }
        ensures items { self.new.items ≡ self.old.items ++ envelope ∷ [] }
        ensures spare { self.new.spare + 1 ≡ self.old.spare }
    {
        self.sent.push_reserved(envelope);
    }

    /// Takes other envelopes in the place of those sent so far, which it gives in return. Both lists keep their room.
    pub fn swap(&mut self, other: &mut Vec<Envelope<M>>)
        ensures items { self.new.items ≡ other.old.items }
        ensures other { other.new.items ≡ self.old.items }
    {
        std::mem::swap(&mut self.sent, other);
    }

    /// Takes other envelopes in the place of those sent so far, which it gives in return, the last one first.
    pub(crate) fn swap_reversed(&mut self, other: &mut Vec<Envelope<M>>)
        ensures items { self.new.items ≡ other.old.items }
        ensures other { other.new.items ≡ reverse self.old.items }
    {
        self.sent.as_mut_slice().reverse();
        self.swap(other);
    }

    /// The envelopes, first sent first.
    pub fn items(&self) -> &[Envelope<M>]
        ensures items { result.now ≡ self.now.items }
    {
        self.sent.as_slice()
    }

    /// The envelopes, first sent first, as a list of one's own.
    pub fn into_items(self) -> Vec<Envelope<M>>
        ensures items { result.items ≡ self.items }
    {
        let Outbox { sent } = self;
        sent
    }
}
