//! Which files of a cycle are due.

/// Which files are to be written after a cycle.
#[derive(Debug, Clone, Copy, PartialEq, Eq)]
pub struct Due {
    /// The text of the mesh.
    pub mesh: bool,
    /// The file of the fields.
    pub fields: bool,
    /// The checkpoint.
    pub checkpoint: bool,
}
