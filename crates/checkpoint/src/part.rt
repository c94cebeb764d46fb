//! The parts of a file.
ghost use Rattle.std.specs.Prelude.{◌≡◌, ◌<◌, get_or, length};
ghost use Rattle.checkpoint.specs.Parts.{parts_of_version_1};

/// A part of a checkpoint's file.
#[derive(Debug, Clone, Copy, PartialEq, Eq)]
pub enum Part {
    /// Eight bytes that every checkpoint begins with.
    Magic,
    /// The number of the format's version.
    Version,
    /// How many bytes the parameter text has.
    TextLength,
    /// The canonical text of the parameters.
    Text,
    /// The cycle after which the state was kept.
    Cycle,
    /// How many leaves there are.
    LeafCount,
    /// The places of the leaves in order.
    Places,
    /// Leaf by leaf, field by field, the amounts of the cells, x fastest.
    Amounts,
    /// Field by field what is there.
    Totals,
    /// Field by field what has left the domain.
    Gone,
}

/// The parts of version 1 in order.
pub(crate) fn parts_of_version_1() -> [Part; 10]
    ensures parts { result ≡ parts_of_version_1 }
{
    [
        Part::Magic,
        Part::Version,
        Part::TextLength,
        Part::Text,
        Part::Cycle,
        Part::LeafCount,
        Part::Places,
        Part::Amounts,
        Part::Totals,
        Part::Gone,
    ]
}

/// The part at a position.
pub(crate) fn part_at(parts: &[Part], i: usize) -> Part
    requires within { i < length parts.now }
    ensures part { result ≡ get_or parts.now i result }
{
    parts[i]
}
