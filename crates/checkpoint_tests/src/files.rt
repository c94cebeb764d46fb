//! Files of one block, put together from their parts.
use checkpoint::{CheckFault, read};
use std::alloc::Global;

/// The canonical text of one block of 4 * 4 * 4 cells with one field, of which the fourth cell holds 1.
const TEXT: &[u8] =
    b"Mesh {\n  array = [1, 1, 1];\n  block = 4;\n  boundary = [\"open\", \"closed\", \"closed\"];\n}\nField {\n  names = [\"a\"];\n}\nInitial {\n  drop {\n    field = \"a\";\n    shape = \"box\";\n    low = [3, 0, 0];\n    high = [4, 1, 1];\n    amount = 1;\n  }\n}\nMethod {\n  velocity = [1, 0, 0];\n  den = 1;\n  cycles = 1;\n}\nOutput {\n  checkpoint = 1;\n}\n";

/// The magic, the version, and the length of the text.
pub const FRONT: &[u8] = b"CELLOAMR\x00\x01\x00\x00\x01\x42";

/// Cycle 0, one leaf, and the word of the root.
pub const LEAF: &[u8] = b"\x00\x00\x00\x00\x00\x00\x00\x01\x00\x00\x00\x00\x00\x00\x00\x00";

/// A total of 1, and nothing gone.
pub const END: &[u8] = b"\x00\x00\x00\x00\x00\x00\x00\x01\x00\x00\x00\x00\x00\x00\x00\x00";

/// A file with these bytes before the text, between the text and the amounts, and after the amounts, of which the
/// fourth is 1.
pub fn file(alloc: Global, front: &[u8], leaf: &[u8], end: &[u8]) -> Option<Vec<u8>> {
    let mut bytes = Vec::new(alloc);
    bytes.extend_from_slice(front).ok()?;
    bytes.extend_from_slice(TEXT).ok()?;
    bytes.extend_from_slice(leaf).ok()?;
    bytes.extend_from_slice(&[0; 31]).ok()?;
    bytes.push(1).ok()?;
    bytes.extend_from_slice(&[0; 480]).ok()?;
    bytes.extend_from_slice(end).ok()?;
    Some(bytes)
}

/// The fault of bytes, or none.
fn fault_of(alloc: Global, bytes: &[u8]) -> Option<CheckFault> {
    read(alloc, bytes).err()
}

/// Whether bytes have this fault.
pub fn is_refused(alloc: Global, bytes: &[u8], fault: CheckFault) -> bool {
    fault_of(alloc, bytes) == Some(fault)
}

/// Whether such a file has this fault.
pub fn has_fault(alloc: Global, front: &[u8], leaf: &[u8], end: &[u8], fault: CheckFault) -> bool {
    match file(alloc, front, leaf, end) {
        Some(bytes) => is_refused(alloc, &bytes, fault),
        None => false,
    }
}
