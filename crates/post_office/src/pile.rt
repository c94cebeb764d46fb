//! Piles of envelopes, in pages.
ghost use Rattle.std.specs.Prelude.{◌≡◌, ◌^◌, ◌+◌, ◌<◌, ◌≤◌, ◌++◌, ◌∷◌, [], ℕ, All, IfSome, IfNone, IsTrue, ◌↔◌, length, drop, true};

use crate::page::Page;
use phase_core::Envelope;
use std::alloc::{AllocFailed, Global};
use std::collections::LinkedList;
use std::marker::Model;

// How many envelopes the first page of a pile has room for, and each page behind others.
const FIRST_ROOM: usize = 16;

const NEXT_ROOM: usize = 128;

/// Envelopes in the order in which they came, in pages, none of which is empty. Pages whose envelopes are all handled are
/// put aside, until they are let go together.
#[derive(Drop)]
pub struct Pile<M> {
    pages: LinkedList<Page<M>>,
    spent: Vec<Page<M>>,
    ghost filled: { All (λ p. 0 < length p) pages },
}

impl<M> Model for Pile<M> {
    ghost use Rattle.std.specs.Prelude.{List};
    ghost use Rattle.phase_core.specs.declared.envelope.Envelope.{Envelope};
    ghost use Rattle.quiet_table.specs.Contents.{pool};

    ghost Value = { List (Envelope M) };

    ghost view = { λ p. pool p.pages };
}

// Puts an envelope onto the last page, or gives it back where there is none with room.
#[inline(always)]
fn push_last<M>(pages: &mut LinkedList<Page<M>>, envelope: Envelope<M>) -> Option<Envelope<M>>
    ensures done { IfNone result ((before : _) × (p : _) × (pages.old ≡ before ++ p ∷ []) × (pages.new ≡ before ++ (p ++ envelope ∷ []) ∷ [])) }
    ensures back { IfSome result (λ e. (e ≡ envelope) × (pages.new ≡ pages.old)) }
{
    match pages.back_mut() {
        Some(page) => page.push(envelope),
        None => Some(envelope),
    }
}

// Begins a page with an envelope behind the others, or gives it back where memory is wanting.
fn push_page<M: Drop>(
    alloc: Global,
    pages: &mut LinkedList<Page<M>>,
    envelope: Envelope<M>,
) -> Option<Envelope<M>>
    ensures done { IfNone result (pages.new ≡ pages.old ++ (envelope ∷ []) ∷ []) }
    ensures back { IfSome result (λ e. (e ≡ envelope) × (pages.new ≡ pages.old)) }
{
    let room = if pages.is_empty() {
        FIRST_ROOM
    } else {
        NEXT_ROOM
    };
    match Page::begin(alloc, room, envelope) {
        Err(envelope) => Some(envelope),
        Ok(page) => match pages.push_back(page) {
            Ok(()) => None,
            Err(AllocFailed { value }) => Some(value.into_only()),
        },
    }
}

// Passes over envelopes of the first page, which holds more of them.
fn pass_within<M>(pages: &mut LinkedList<Page<M>>, count: usize)
    requires more { (p : _) × (rest : _) × (pages.old ≡ p ∷ rest) × (count < length p) }
    ensures { (p : _) (rest : _) → pages.old ≡ p ∷ rest → pages.new ≡ drop count p ∷ rest }
{
    pages.front_mut().unwrap().pass(count);
}

impl<M> Pile<M> {
    /// A pile without an envelope.
    pub(crate) fn new(alloc: Global) -> Pile<M>
        ensures { result ≡ [] }
    {
        Pile {
            pages: LinkedList::new(alloc),
            spent: Vec::new(alloc),
        }
    }

    /// Whether it holds no envelope.
    pub(crate) fn is_empty(&self) -> bool
        ensures { IsTrue result ↔ (length self.now ≡ 0) }
    {
        self.pages.is_empty()
    }

    /// How many envelopes it holds.
    pub(crate) fn len(&self) -> u64
        requires few { length self.now < 2 ^ 62 }
        ensures { result ≡ length self.now }
    {
        let mut total: u64 = 0;
        for page in &self.pages {
            total += page.len() as u64;
        }
        total
    }

    /// Moves all of another pile behind what it holds. It takes no memory.
    pub(crate) fn append(&mut self, other: &mut Pile<M>)
        requires few { length self.old + length other.old < 2 ^ 62 }
        ensures moved { self.new ≡ self.old ++ other.old }
        ensures emptied { other.new ≡ [] }
    {
        match self.pages.append(&mut other.pages) {
            Ok(()) => {}
            Err(_) => unreachable!(),
        }
    }

    /// The envelopes of the first page.
    pub(crate) fn first_page(&self) -> &[Envelope<M>]
        requires some { 0 < length self.now }
        ensures some { 0 < length result.now }
        ensures first { (rest : _) × (self.now ≡ result.now ++ rest) }
    {
        self.pages.front().unwrap().envelopes()
    }
}

impl<M: Drop> Pile<M> {
    /// Lets go of the pages that were put aside.
    pub(crate) fn let_go(&mut self)
        ensures { self.new ≡ self.old }
    {
        self.spent.clear();
    }

    /// Puts an envelope behind the others, or gives it back where memory is wanting.
    #[inline(always)]
    pub(crate) fn push(&mut self, envelope: Envelope<M>) -> Option<Envelope<M>>
        ensures done { IfNone result (self.new ≡ self.old ++ envelope ∷ []) }
        ensures back { IfSome result (λ e. (e ≡ envelope) × (self.new ≡ self.old)) }
    {
        match push_last(&mut self.pages, envelope) {
            None => None,
            Some(envelope) => {
                let alloc = *self.pages.allocator();
                push_page(alloc, &mut self.pages, envelope)
            }
        }
    }

    // Passes over the first `count` envelopes as far as the first page has them, and says how many are left of them.
    fn pass_some(&mut self, count: usize) -> usize
        requires within { (0 < count) × (count ≤ length self.old) }
        ensures { (passed : ℕ) × (0 < passed) × (passed + result ≡ count) × (self.new ≡ drop passed self.old) }
    {
        let len = self.pages.front().unwrap().len();
        if count < len {
            pass_within(&mut self.pages, count);
            return 0;
        }
        let page = self.pages.pop_front().unwrap();
        if let Err(AllocFailed { value }) = self.spent.push(page) {
            drop(value);
        }
        count - len
    }

    /// Passes over the first `count` envelopes. A page that holds none then is put aside, or let go where memory is
    /// wanting.
    pub(crate) fn pass(&mut self, count: usize)
        requires within { count ≤ length self.old }
        ensures { self.new ≡ drop count self.old }
    {
        let mut left = count;
        while left > 0 {
            left = self.pass_some(left);
        }
    }
}
