//! Calls of `solo` over devices in memory.
ghost use Rattle.std.specs.Prelude.{IfSome, IsFalse};

use cello_io::{Files, MemoryShelf, MemorySink, MemorySource, Shelf};
use cello_top::{Fault, Outcome, solo};
use std::alloc::Global;

/// What a call came to: its outcome, what stands in the sink, and the shelf.
#[derive(Drop)]
pub struct Called {
    pub outcome: Outcome,
    pub bytes: Vec<u8>,
    pub shelf: MemoryShelf,
}

/// An empty shelf, whose calls of these numbers fail.
fn shelf_of(alloc: Global, fails: &[u32]) -> Option<MemoryShelf>
    ensures idle { IfSome result (λ shelf. IsFalse (⟦<MemoryShelf as Shelf>⟧.tells shelf).is_writing) }
{
    let past = Files::of(Vec::new(alloc));
    MemoryShelf::new(alloc, past, 4096, fails.to_vec(alloc).ok()?).ok()
}

/// Calls `solo` with one word on a text, where the calls of these numbers fail: those of the source, the sink and the
/// shelf.
pub fn call(
    alloc: Global,
    word: &str,
    text: &[u8],
    reads: &[u32],
    writes: &[u32],
    files: &[u32],
) -> Option<Called> {
    let mut words = Vec::new(alloc);
    words.push(String::from_str(alloc, word).ok()?).ok()?;
    let bytes = text.to_vec(alloc).ok()?;
    let mut source = MemorySource::new(bytes, reads.to_vec(alloc).ok()?);
    let mut sink = MemorySink::new(alloc, 4096, writes.to_vec(alloc).ok()?).ok()?;
    let mut shelf = shelf_of(alloc, files)?;
    let outcome = solo(alloc, &words, &mut source, &mut sink, &mut shelf);
    let bytes = sink.bytes().to_vec(alloc).ok()?;
    Some(Called {
        outcome,
        bytes,
        shelf,
    })
}

/// Whether a call ends with this fault, these bytes stand in the sink, and no file was made.
fn ends(called: Option<Called>, fault: Option<Fault>, bytes: &[u8]) -> bool {
    match called {
        Some(called) => {
            called.outcome.fault == fault
                && called.bytes.as_slice() == bytes
                && called.shelf.written().is_empty()
        }
        None => false,
    }
}

/// One tree of one leaf, which one phase leaves as it is.
const ONE_LEAF: &[u8] =
    b"Mesh { array = [1, 1, 1]; block = 4; initial_rounds = 1; boundary = [\"closed\", \"closed\", \"closed\"]; }
Adapt { c { type = \"box\"; low = [0, 0, 0]; high = [1, 1, 1]; level = 0; } }
";

const REPORT: &[u8] = b"cello report 1\nphase 1 leaves 1\ncycle 0 leaves 1\nmesh 1\n0 0 0 0\nend\n";

/// With ample memory a run gives its report and not want of memory, and one leaf handles its Start alone.
#[test]
fn one_leaf_stays(rt: HostRuntime) {
    let called = call(rt.alloc(), "solo", ONE_LEAF, &[], &[], &[]).expect(&rt, "memory");
    assert!(rt; called.outcome.status == 0 && called.outcome.handled == 1);
    assert!(rt; called.bytes.as_slice() == REPORT);
}

#[test]
fn devices_fail(rt: HostRuntime) {
    let alloc = rt.alloc();
    let read = call(alloc, "solo", ONE_LEAF, &[1], &[], &[]);
    assert!(rt; ends(read, Some(Fault::ReadFault), b""));
    let later = call(alloc, "check", ONE_LEAF, &[2], &[], &[]);
    assert!(rt; ends(later, Some(Fault::ReadFault), b""));
    let write = call(alloc, "solo", ONE_LEAF, &[], &[1], &[]);
    assert!(rt; ends(write, Some(Fault::WriteFault), b""));
    let check = call(alloc, "check", ONE_LEAF, &[], &[1], &[]);
    assert!(rt; ends(check, Some(Fault::WriteFault), b""));
}

/// A sink that fails at its third write holds two lines.
#[test]
fn a_sink_fails_in_the_middle(rt: HostRuntime) {
    let third = call(rt.alloc(), "solo", ONE_LEAF, &[], &[3], &[]);
    let lines = b"cello report 1\nphase 1 leaves 1\n";
    assert!(rt; ends(third, Some(Fault::WriteFault), lines));
}

#[test]
fn another_word_is_refused_before_anything_is_read(rt: HostRuntime) {
    let other = call(rt.alloc(), "run", ONE_LEAF, &[1], &[1], &[1]);
    assert!(rt; ends(other, Some(Fault::Usage), b""));
}
