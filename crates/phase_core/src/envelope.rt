//! A message with its address.

/// A message on its way to the cell at position `to`.
#[derive(Debug, Clone, PartialEq, Eq, Drop)]
pub struct Envelope<M> {
    /// The position of the cell that it is for.
    pub to: u32,
    /// What it says.
    pub msg: M,
}
