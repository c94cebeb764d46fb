//! Runs with a cycle and files, over devices in memory. In the texts one unit stands in the fourth cell of a row of
//! four, and moves on by a cell in the one cycle.
use crate::calls::{Called, call};
use cello_io::{MemoryShelf, WrittenFile};
use cello_top::Fault;

/// The unit leaves the domain, and a checkpoint is due after each cycle.
const DRIFTING: &[u8] = b"Mesh {
  array = [1, 1, 1];
  block = 4;
  boundary = [\"open\", \"closed\", \"closed\"];
}
Field {
  names = [\"a\"];
}
Initial {
  drop {
    field = \"a\";
    shape = \"box\";
    low = [3, 0, 0];
    high = [4, 1, 1];
    amount = 1;
  }
}
Method {
  velocity = [1, 0, 0];
  den = 1;
  cycles = 1;
}
Output {
  checkpoint = 1;
}
";

const LEFT: &[u8] =
    b"cello report 1\ncycle 0 leaves 1\nfield a total 1 out 0 gone 0\nphase 1 leaves 1\ncycle 1 leaves 1\nfield a total 0 out 1 gone 1\nmesh 1\n0 0 0 0\nend\n";

/// The same at closed ends, without a file.
const CLOSED: &[u8] =
    b"Mesh { array = [1, 1, 1]; block = 4; boundary = [\"closed\", \"closed\", \"closed\"]; } Field { names = [\"a\"]; }
Initial { drop { field = \"a\"; shape = \"box\"; low = [3, 0, 0]; high = [4, 1, 1]; amount = 1; } }
Method { velocity = [1, 0, 0]; den = 1; cycles = 1; }";

const STAYED: &[u8] =
    b"cello report 1\ncycle 0 leaves 1\nfield a total 1 out 0 gone 0\nphase 1 leaves 1\ncycle 1 leaves 1\nfield a total 1 out 0 gone 0\nmesh 1\n0 0 0 0\nend\n";

/// The same round the domain, with a file of the fields after each cycle.
const ROUND: &[u8] = b"Mesh { array = [1, 1, 1]; block = 4; } Field { names = [\"a\"]; }
Initial { drop { field = \"a\"; shape = \"box\"; low = [3, 0, 0]; high = [4, 1, 1]; amount = 1; } }
Method { velocity = [1, 0, 0]; den = 1; cycles = 1; } Output { fields = 1; }";

/// Whether an entry is that of a file of this name and length.
fn is_file(file: &WrittenFile, name: &[u8], length: usize) -> bool {
    file.name.bytes() == name && file.length == length
}

/// Whether a call ended without a fault, with this report, and made two files, each sealed, of these names and this
/// length.
fn made_two(called: &Called, report: &[u8], first: &[u8], second: &[u8], length: usize) -> bool {
    match called.shelf.written() {
        [a, b] => {
            called.outcome.status == 0
                && called.bytes.as_slice() == report
                && is_file(a, first, length)
                && is_file(b, second, length)
                && a.sealed
                && b.sealed
        }
        _ => false,
    }
}

#[test]
fn a_unit_leaves_the_domain(rt: HostRuntime) {
    let called = call(rt.alloc(), "solo", DRIFTING, &[], &[], &[]).expect(&rt, "memory");
    assert!(rt; made_two(&called, LEFT, b"state-0000.cello", b"state-0001.cello", 880));
    assert!(rt; called.outcome.handled == 1);
}

#[test]
fn a_unit_stays_at_a_closed_end(rt: HostRuntime) {
    let called = call(rt.alloc(), "solo", CLOSED, &[], &[], &[]).expect(&rt, "memory");
    assert!(rt; called.outcome.status == 0 && called.bytes.as_slice() == STAYED);
    assert!(rt; called.shelf.written().is_empty());
}

/// The bytes of both files of fields: each has its cycle, one field, one leaf and an edge of four in numbers of 4
/// bytes, its place, and 64 amounts in numbers of 8 bytes. The unit is the fourth amount in the first file, and the
/// first in the second.
fn byte_at(at: usize) -> u8 {
    match at {
        7 | 11 | 55 => 1,
        15 => 4,
        539 | 543 | 547 | 567 => 1,
        551 => 4,
        _ => 0,
    }
}

/// Whether the bytes of the two files are these.
fn has_fields(shelf: &MemoryShelf) -> bool {
    let bytes = shelf.bytes();
    for at in 0..bytes.len() {
        if bytes[at] != byte_at(at) {
            return false;
        }
    }
    bytes.len() == 1072
}

#[test]
fn a_unit_goes_round(rt: HostRuntime) {
    let called = call(rt.alloc(), "solo", ROUND, &[], &[], &[]).expect(&rt, "memory");
    assert!(rt; made_two(&called, STAYED, b"field-0000.bin", b"field-0001.bin", 536));
    assert!(rt; has_fields(&called.shelf));
}

/// Whether a call ended with a failed write, and left one file of a checkpoint that has so many bytes.
fn failed_with(called: &Called, length: usize) -> bool {
    match called.shelf.written() {
        [file] => {
            called.outcome.fault == Some(Fault::WriteFault)
                && called.outcome.status == 4
                && is_file(file, b"state-0000.cello", length)
        }
        _ => false,
    }
}

/// A checkpoint of one leaf is created, written in one piece and sealed. Where its seal fails, it has all its bytes, the
/// lines of cycle 0 stand, and nothing is written any more.
#[test]
fn a_seal_fails(rt: HostRuntime) {
    let called = call(rt.alloc(), "solo", DRIFTING, &[], &[], &[3]).expect(&rt, "memory");
    assert!(rt; failed_with(&called, 880));
    let lines = b"cello report 1\ncycle 0 leaves 1\nfield a total 1 out 0 gone 0\n".as_slice();
    assert!(rt; called.bytes.as_slice() == lines);
}

/// A sink that fails in the lines of a cycle leaves no file of it.
#[test]
fn no_file_is_made_after_a_failed_line(rt: HostRuntime) {
    let called = call(rt.alloc(), "solo", DRIFTING, &[], &[3], &[]).expect(&rt, "memory");
    assert!(rt; called.outcome.fault == Some(Fault::WriteFault));
    assert!(rt; called.shelf.written().is_empty());
}
