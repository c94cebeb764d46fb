//! A whole file and its cuts.
use crate::files::{END, FRONT, LEAF, file, is_refused};
use cello_io::MemorySink;
use checkpoint::{CheckFault, State, StateView, read, write};
use std::alloc::Global;

/// Whether each cut of bytes is refused at its length.
fn cuts_are_refused(alloc: Global, bytes: &[u8]) -> bool {
    for at in 0..bytes.len() {
        if !is_refused(alloc, &bytes[..at], CheckFault::Truncated { at: at as u64 }) {
            return false;
        }
    }
    true
}

/// Whether the file has 880 bytes, and each cut of it is refused.
fn all_cuts(alloc: Global) -> bool {
    match file(alloc, FRONT, LEAF, END) {
        Some(bytes) => bytes.len() == 880 && cuts_are_refused(alloc, &bytes),
        None => false,
    }
}

#[test]
fn each_cut_is_truncated(rt: HostRuntime) {
    assert!(rt; all_cuts(rt.alloc()));
}

/// Whether a state is written as these bytes.
fn is_written_as(alloc: Global, state: &State, bytes: &[u8]) -> bool {
    let Ok(mut sink) = MemorySink::new(alloc, 880, Vec::new(alloc)) else {
        return false;
    };
    let view = StateView {
        params: &state.params,
        cycle: state.cycle,
        set: &state.set,
        blocks: &state.blocks,
        ledger: &state.ledger,
    };
    write(&view, &mut sink).is_ok() && sink.bytes() == bytes
}

/// Whether the file is read, and written again as it was.
fn read_and_written(alloc: Global) -> bool {
    match file(alloc, FRONT, LEAF, END) {
        Some(bytes) => match read(alloc, &bytes) {
            Ok(state) => is_written_as(alloc, &state, &bytes),
            Err(_) => false,
        },
        None => false,
    }
}

#[test]
fn a_file_is_read_and_written(rt: HostRuntime) {
    assert!(rt; read_and_written(rt.alloc()));
}
