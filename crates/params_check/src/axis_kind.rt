//! What lies past the ends of an axis.
ghost use Rattle.std.specs.Prelude.{◌≡◌};
ghost use Rattle.params_check.specs.TreeValues.{axis_kind, wraps};

/// What lies past the ends of an axis of the domain.
#[derive(Debug, Clone, Copy, PartialEq, Eq)]
pub enum AxisKind {
    /// The other end.
    Periodic,
    /// Nothing that comes back.
    Outflow,
    /// A wall.
    Closed,
}

/// The kind of an axis by its word; of a word that isn't known, as without one.
pub(crate) fn axis_kind(word: &[u8]) -> AxisKind
    ensures kind { result ≡ axis_kind word.now }
{
    if word == b"open".as_slice() {
        AxisKind::Outflow
    } else if word == b"closed".as_slice() {
        AxisKind::Closed
    } else {
        AxisKind::Periodic
    }
}

/// Whether an axis of a kind wraps.
pub(crate) fn wraps(kind: AxisKind) -> bool
    ensures wraps { result ≡ wraps kind }
{
    match kind {
        AxisKind::Periodic => true,
        AxisKind::Outflow | AxisKind::Closed => false,
    }
}
