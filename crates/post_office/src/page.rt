//! Pages of envelopes.
ghost use Rattle.std.specs.Prelude.{◌≡◌, ◌<◌, ◌≤◌, ◌++◌, ◌∷◌, [], IfOk, IfErr, IfSome, IfNone, length, drop};

use phase_core::Envelope;
use std::alloc::Global;
use std::marker::Model;

/// Envelopes in the order in which they came. What it holds are those behind the first `handled` ones.
#[derive(Drop)]
pub struct Page<M> {
    envelopes: Vec<Envelope<M>>,
    handled: usize,
    ghost within: { handled ≤ length envelopes.items },
}

impl<M> Model for Page<M> {
    ghost use Rattle.std.specs.Prelude.{List, drop};
    ghost use Rattle.phase_core.specs.declared.envelope.Envelope.{Envelope};

    ghost Value = { List (Envelope M) };

    ghost view = { λ p. drop p.handled p.envelopes.items };
}

impl<M> Page<M> {
    /// A page with one envelope and room for `room` in all. Where memory is wanting it gives the envelope back.
    pub(crate) fn begin(
        alloc: Global,
        room: usize,
        envelope: Envelope<M>,
    ) -> Result<Page<M>, Envelope<M>>
        requires some_room { 1 ≤ room }
        ensures page { IfOk result (λ p. p ≡ envelope ∷ []) }
        ensures back { IfErr result (λ e. e ≡ envelope) }
    {
        match Vec::with_capacity(alloc, room) {
            Ok(envelopes) => {
                let mut envelopes = envelopes;
                envelopes.push_reserved(envelope);
                Ok(Page {
                    envelopes,
                    handled: 0,
                })
            }
            Err(_) => Err(envelope),
        }
    }

    /// Puts an envelope behind the others, or gives it back where the page is full.
    #[inline(always)]
    pub(crate) fn push(&mut self, envelope: Envelope<M>) -> Option<Envelope<M>>
        ensures done { IfNone result (self.new ≡ self.old ++ envelope ∷ []) }
        ensures back { IfSome result (λ e. (e ≡ envelope) × (self.new ≡ self.old)) }
    {
        if self.envelopes.len() == self.envelopes.capacity() {
            return Some(envelope);
        }
        self.envelopes.push_reserved(envelope);
        None
    }

    /// How many envelopes it holds.
    pub(crate) fn len(&self) -> usize
        ensures { result ≡ length self.now }
    {
        self.envelopes.len() - self.handled
    }

    /// The envelopes that it holds.
    pub(crate) fn envelopes(&self) -> &[Envelope<M>]
        ensures { result.now ≡ self.now }
    {
        &self.envelopes[self.handled..]
    }

    /// Passes over the first `count` envelopes, which stay where they lie.
    pub(crate) fn pass(&mut self, count: usize)
        requires within { count ≤ length self.old }
        ensures { self.new ≡ drop count self.old }
    {
        self.handled += count;
    }
}

impl<M: Drop> Page<M> {
    /// The envelope of a page that has one.
    pub(crate) fn into_only(self) -> Envelope<M>
        requires one { length self ≡ 1 }
        ensures { self ≡ result ∷ [] }
    {
        let Page {
            mut envelopes,
            handled: _,
        } = self;
        envelopes.pop().unwrap()
    }
}
