//! A shelf in memory, with the file of a mesh.
ghost use Rattle.std.specs.Prelude.{IfSome, IsFalse};

use crate::files::reads;
use block_index::Domain;
use cello_io::{Bytes, FetchFault, Files, MemoryShelf, Shelf, StoredFile};
use cello_num::Name;
use leaf_set::LeafSet;
use mesh_output::write_mesh_file;
use std::alloc::Global;

const MESH: &[u8] = b"mesh 1\n0 0 0 0\n";

/// A shelf with one past file and room for so many bytes, whose calls of these numbers fail.
fn shelf_of(alloc: Global, room: usize, fails: &[u32]) -> Option<MemoryShelf>
    ensures idle { IfSome result (λ shelf. IsFalse (⟦<MemoryShelf as Shelf>⟧.tells shelf).is_writing) }
{
    shelf_with(alloc, b"abcdef".to_vec(alloc).ok()?, room, fails)
}

/// A shelf with one past file of these bytes.
pub fn shelf_with(alloc: Global, bytes: Vec<u8>, room: usize, fails: &[u32]) -> Option<MemoryShelf>
    ensures idle { IfSome result (λ shelf. IsFalse (⟦<MemoryShelf as Shelf>⟧.tells shelf).is_writing) }
{
    let name = Name::of(b"past")?;
    let bytes = Bytes::of(bytes);
    let past = Files::of(Vec::from_array(alloc, [StoredFile { name, bytes }]).ok()?);
    MemoryShelf::new(alloc, past, room, fails.to_vec(alloc).ok()?).ok()
}

/// Such a shelf on which the mesh of one root was written, and whether that went well.
fn with_mesh(alloc: Global, room: usize, fails: &[u32]) -> Option<(MemoryShelf, bool)> {
    let mut shelf = shelf_of(alloc, room, fails)?;
    let set = LeafSet::roots(alloc, Domain::new([1, 1, 1], [false; 3], 0)?).ok()?;
    let went = write_mesh_file(&set, Name::of(b"mesh-0000.txt")?, &mut shelf).is_ok();
    Some((shelf, went))
}

/// Whether the mesh's file is the one that is there, with these bytes.
fn has_mesh(shelf: &MemoryShelf, bytes: &[u8], sealed: bool) -> bool {
    match shelf.written() {
        [file] => {
            file.name.bytes() == b"mesh-0000.txt".as_slice()
                && file.start == 0
                && file.length == bytes.len()
                && file.sealed == sealed
                && shelf.bytes() == bytes
        }
        _ => false,
    }
}

/// Whether writing the mesh went well or not, and left these bytes.
fn leaves(alloc: Global, room: usize, fails: &[u32], went: bool, bytes: &[u8]) -> bool {
    match with_mesh(alloc, room, fails) {
        Some((shelf, did)) => did == went && has_mesh(&shelf, bytes, went),
        None => false,
    }
}

#[test]
fn a_mesh_is_a_file(rt: HostRuntime) {
    let alloc = rt.alloc();
    assert!(rt; leaves(alloc, 15, &[], true, MESH));
    assert!(rt; leaves(alloc, 14, &[], false, b""));
    assert!(rt; leaves(alloc, 15, &[2], false, b""));
    assert!(rt; leaves(alloc, 15, &[3], false, MESH));
}

/// Whether a shelf lends its past file and no other.
fn lends_past(mut shelf: MemoryShelf, past: Name, other: Name) -> bool {
    let mut buf = [0u8; 16];
    reads(&mut shelf, past, 2, b"cdef")
        && reads(&mut shelf, past, 6, b"")
        && shelf.fetch(other, 0, &mut buf) == Err(FetchFault::Absent)
        && shelf.fetch(past, 0, &mut buf) == Err(FetchFault::Failed)
}

#[test]
fn a_past_file_is_fetched(rt: HostRuntime) {
    let shelf = shelf_of(rt.alloc(), 0, &[4]).expect(&rt, "memory");
    let past = Name::of(b"past").expect(&rt, "short");
    let other = Name::of(b"pas").expect(&rt, "short");
    assert!(rt; lends_past(shelf, past, other));
}
