//! The regions of a block that are filed.
ghost use Rattle.std.specs.Prelude.{◌≡◌, ℕ, ◌<◌, ◌++◌, [], ◌∷◌, length};
ghost use Rattle.std.specs.List.{list_any};
ghost use Rattle.ghost_pieces.specs.Filing.{Source, is_same_source};
ghost use Rattle.ghost_pieces.specs.Regions.{most_regions};

use arrayvec::ArrayVec;
use std::marker::Model;

/// The most regions of a leaf of a balanced mesh: as many as leaves can touch it.
const MOST_REGIONS: usize = 6 * 4 + 12 * 2 + 8;

/// A region of a block: the number of its direction among the lists of ghosts, and the position of its sender.
#[derive(Debug, Clone, Copy, Default)]
pub(crate) struct Source {
    pub(crate) direction: u8,
    pub(crate) sender: u32,
}

impl Model for Source {
    ghost use Rattle.ghost_pieces.specs.Filing.{Source};

    ghost Value = { Source };

    ghost view = { λ s. record { direction = s.direction; sender = s.sender } };

    ghost inverse = { λ s. record { direction = s.direction; sender = s.sender } };
}

/// Whether two regions are one.
fn is_same_source(a: Source, c: Source) -> bool
    ensures same { result ≡ is_same_source a c }
{
    a.direction == c.direction && a.sender == c.sender
}

/// Whether a region stands in a list.
fn is_listed(sources: &[Source], source: Source) -> bool
    ensures listed { result ≡ list_any (is_same_source source) sources.now }
{
    for other in sources {
        if is_same_source(source, *other) {
            return true;
        }
    }
    false
}

/// The regions of a block that are filed, with room for all that there can be.
#[derive(Drop)]
pub struct FiledSet {
    sources: ArrayVec<Source, MOST_REGIONS>,
    /// Of the number of each direction, whether one of them is in it: most often none is yet where a piece comes.
    noted: [bool; 27],
}

impl Model for FiledSet {
    ghost use Rattle.std.specs.Prelude.{List};
    ghost use Rattle.ghost_pieces.specs.Filing.{Source};

    ghost Value = { List Source };

    ghost use Rattle.ghost_pieces.specs.Lemmas.Noted.{AreNoted};

    ghost view = { λ t. t.sources.items };

    ghost invariant = { λ t. AreNoted t.noted t.sources.items };
}

impl FiledSet {
    /// No regions. Takes no memory.
    pub fn new() -> FiledSet
        ensures { result ≡ [] }
    {
        FiledSet {
            sources: ArrayVec::new(),
            noted: [false; 27],
        }
    }

    /// How many regions are filed.
    pub fn len(&self) -> usize
        ensures { result ≡ length self.now }
    {
        self.sources.len()
    }

    /// Whether a region is filed.
    pub(crate) fn has(&self, source: Source) -> bool
        requires direction { source.direction < 27 }
        ensures filed { result ≡ list_any (is_same_source source) self.now }
    {
        if !self.noted[source.direction as usize] {
            return false;
        }
        is_listed(self.sources.as_slice(), source)
    }

    /// Puts a region behind the others.
    pub(crate) fn add(&mut self, source: Source)
        requires room { length self.old < most_regions }
        requires direction { source.direction < 27 }
        ensures items { self.new ≡ self.old ++ source ∷ [] }
    {
        self.noted[source.direction as usize] = true;
        self.sources.push(source);
    }
}
