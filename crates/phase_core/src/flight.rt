//! The envelopes in flight on one thread.

use crate::envelope::Envelope;
use crate::outbox::Outbox;
use std::alloc::Global;
use std::marker::Model;

/// The envelopes in flight, in the order in which they were sent: first those that are handled next, and behind them
/// the outbox that handling fills. The two change places where the first are used up, so none is moved one by one,
/// and both keep their room.
#[derive(Drop)]
pub(crate) struct Flight<M> {
    /// The first envelope is last.
    next: Vec<Envelope<M>>,
    pub(crate) out: Outbox<M>,
}

impl<M> Model for Flight<M> {
    ghost use Rattle.std.specs.Prelude.{List, ◌++◌, reverse};
    ghost use Rattle.phase_core.specs.declared.envelope.Envelope.{Envelope};

    ghost Value = { List (Envelope M) };

    ghost view = { λ f. reverse f.next.items ++ f.out.items };
}

impl<M> Flight<M> {
    ghost use Rattle.std.specs.Prelude.{◌≡◌, [], ◌∷◌, IfSome, IfNone};

    /// A flight of what was sent.
    pub(crate) fn of(alloc: Global, sent: Outbox<M>) -> Flight<M>
        ensures { result ≡ sent.items }
    {
        Flight {
            next: Vec::new(alloc),
            out: sent,
        }
    }

    /// Takes the first envelope, where there is one.
    pub(crate) fn pop_front(&mut self) -> Option<Envelope<M>>
        ensures first { IfSome result (λ e. self.old ≡ e ∷ self.new) }
        ensures none { IfNone result (self.old ≡ []) }
    {
        if self.next.is_empty() {
            self.out.swap_reversed(&mut self.next);
        }
        self.next.pop()
    }
}
