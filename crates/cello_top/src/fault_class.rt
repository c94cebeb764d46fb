//! What a fault comes from.
ghost use Rattle.std.specs.Prelude.{◌≡◌};
ghost use Rattle.cello_top.specs.Faults.{class_ending};

/// What a fault comes from. How a call ends by a fault goes by its class.
#[derive(Debug, Clone, Copy, PartialEq, Eq)]
pub enum FaultClass {
    /// The words after the program's name.
    Words,
    /// The text of the source.
    Text,
    /// A limit of the run.
    Limit,
    /// The source, or the shelf while a file was fetched.
    Source,
    /// The sink, or the shelf while a file was written.
    Sink,
    /// The file of a name: that there is none, or what it holds.
    File,
    /// Want of memory.
    Allocator,
}

impl FaultClass {
    /// The exit status of a call that ends so.
    pub fn status(self) -> u8
        ensures status { result ≡ (class_ending self).status }
    {
        match self {
            FaultClass::Words => 1,
            FaultClass::Text => 2,
            FaultClass::Limit => 3,
            FaultClass::Source | FaultClass::Sink => 4,
            FaultClass::Allocator => 5,
            FaultClass::File => 6,
        }
    }
}
