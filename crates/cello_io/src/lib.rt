//! The outside world as the program sees it: a source of bytes, a sink for bytes, and a shelf of files.
//!
//! Each trait says what its calls do to what the object tells, and counts the object's faults: an answer `Failed`
//! comes only where the count rose in that call. `specs/` has the words: `Counts`, `Reads`, `Writes`, `Files`, `Filing`
//! for how far one file came, `Fetching` for a whole file that is fetched, `StoredFiles` and `Devices` for those in
//! memory. The devices in memory fail at the calls that they are told to; those of the system tell no bytes.
#![tactic(auto)]

mod copying;
mod failed;
mod fetching;
mod files;
mod folder_shelf;
mod gate;
mod listed;
mod memory_shelf;
mod memory_sink;
mod memory_source;
mod reading;
mod shelf;
mod sink;
mod source;
mod standard;
mod writing;

pub use failed::{Failed, FetchFault};
pub use fetching::{FetchError, fetch_all};
pub use files::{Bytes, Files, StoredFile, WrittenFile};
pub use folder_shelf::FolderShelf;
pub use gate::{Gate, OpenGate};
pub use memory_shelf::MemoryShelf;
pub use memory_sink::MemorySink;
pub use memory_source::MemorySource;
pub use reading::{ReadError, read_all};
pub use shelf::Shelf;
pub use sink::Sink;
pub use source::Source;
pub use standard::{ErrSink, StdSink, StdSource};
pub use writing::write_all;
