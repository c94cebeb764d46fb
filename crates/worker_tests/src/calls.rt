//! Calls of `solo` and of `enter` over devices in memory.
ghost use Rattle.std.specs.Prelude.{IfSome, IsFalse};

use cello_io::{Bytes, Files, Gate, MemoryShelf, MemorySink, MemorySource, Shelf, StoredFile};
use cello_num::Name;
use cello_top::{Outcome, enter, solo};
use std::alloc::Global;
use std::sync::Wait;
use std::thread::Threads;

/// The bytes that a sink has room for.
const SINK_ROOM: usize = 1 << 20;

/// The bytes that the files of a shelf have room for.
const SHELF_ROOM: usize = 1 << 26;

/// What a call came to: its outcome, what stands in the sink, and the shelf.
#[derive(Drop)]
pub struct Called {
    outcome: Outcome,
    bytes: Vec<u8>,
    shelf: MemoryShelf,
}

impl Called {
    /// Whether both calls ended well, with the same report and the same files, and made so many files.
    pub fn agrees(&self, other: &Called, files: usize) -> bool {
        self.outcome.status == 0
            && other.outcome.status == 0
            && self.bytes.as_slice() == other.bytes.as_slice()
            && self.shelf.written().len() == files
            && self.shelf.written() == other.shelf.written()
            && self.shelf.bytes() == other.shelf.bytes()
    }

    /// The bytes of the file of this name that the call made.
    pub fn file(&self, alloc: Global, name: &[u8]) -> Option<Vec<u8>> {
        for file in self.shelf.written() {
            if file.name.bytes() == name {
                let from = self.shelf.bytes().get(file.start..)?;
                return from.get(..file.length)?.to_vec(alloc).ok();
            }
        }
        None
    }
}

/// A shelf without past files.
pub fn empty_shelf(alloc: Global) -> Option<MemoryShelf>
    ensures idle { IfSome result (λ shelf. IsFalse (⟦<MemoryShelf as Shelf>⟧.tells shelf).is_writing) }
{
    MemoryShelf::new(
        alloc,
        Files::of(Vec::new(alloc)),
        SHELF_ROOM,
        Vec::new(alloc),
    )
    .ok()
}

/// A shelf with one past file.
pub fn shelf_with(alloc: Global, name: &[u8], bytes: Vec<u8>) -> Option<MemoryShelf>
    ensures idle { IfSome result (λ shelf. IsFalse (⟦<MemoryShelf as Shelf>⟧.tells shelf).is_writing) }
{
    let name = Name::of(name)?;
    let bytes = Bytes::of(bytes);
    let past = Files::of(Vec::from_array(alloc, [StoredFile { name, bytes }]).ok()?);
    MemoryShelf::new(alloc, past, SHELF_ROOM, Vec::new(alloc)).ok()
}

/// The words of a line, between single blanks.
fn words_of(alloc: Global, line: &str) -> Option<Vec<String>> {
    let mut words = Vec::new(alloc);
    for word in line.split(' ') {
        words.push(String::from_str(alloc, word).ok()?).ok()?;
    }
    Some(words)
}

/// Calls `solo` with the words of a line on a text.
pub fn by_one(alloc: Global, line: &str, text: &[u8], shelf: MemoryShelf) -> Option<Called>
    requires idle { IsFalse (⟦<MemoryShelf as Shelf>⟧.tells shelf).is_writing }
{
    let words = words_of(alloc, line)?;
    let mut source = MemorySource::new(text.to_vec(alloc).ok()?, Vec::new(alloc));
    let mut sink = MemorySink::new(alloc, SINK_ROOM, Vec::new(alloc)).ok()?;
    let mut shelf = shelf;
    let outcome = solo(alloc, &words, &mut source, &mut sink, &mut shelf);
    let bytes = sink.bytes().to_vec(alloc).ok()?;
    Some(Called {
        outcome,
        bytes,
        shelf,
    })
}

/// Calls `enter` with the words of a line on a text. Its workers pass this gate.
pub fn by_workers<R: Threads + Wait + Sync, G: Gate + Sync>(
    rt: &R,
    alloc: Global,
    line: &str,
    text: &[u8],
    shelf: MemoryShelf,
    gate: &G,
) -> Option<Called>
    requires idle { IsFalse (⟦<MemoryShelf as Shelf>⟧.tells shelf).is_writing }
{
    let words = words_of(alloc, line)?;
    let mut source = MemorySource::new(text.to_vec(alloc).ok()?, Vec::new(alloc));
    let mut sink = MemorySink::new(alloc, SINK_ROOM, Vec::new(alloc)).ok()?;
    let mut shelf = shelf;
    let outcome = enter(rt, alloc, &words, &mut source, &mut sink, &mut shelf, gate);
    let bytes = sink.bytes().to_vec(alloc).ok()?;
    Some(Called {
        outcome,
        bytes,
        shelf,
    })
}
